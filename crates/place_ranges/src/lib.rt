//! The ranges of what a packet holds, as tests: whether a packet may have a frame, and may be worked off at all.
//!
//! The layers above rest on this: [`has_ranges`] is true exactly of the packets that are within their ranges
//! (`chorus_entry/specs/Ranges.antt`). It takes no memory.
//!
//! Begin with `ranges`: from its last function upwards, each one tests a part.
#![tactic(auto)]

mod ranges;

pub use ranges::has_ranges;
