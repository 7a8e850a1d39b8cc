//! Ends of links over which threads may meet, and those of all places of a layout.
//!
//! What the layers above rest on: [`RuledEnds`] are ends as the traits of `chorus_ends` say. A packet goes over a link as its
//! frame, and the frames are seen as their packets. [`RuledEnds::all`] gives the ends of each place, with one new link for each
//! ordered pair of different places, and [`end_link`] takes the two ends of a link together again: what was sent is what was
//! received, followed by the rest.
//!
//! Begin with [`RuledEnds`], and with `specs/Ruled.antt` and `specs/Linked.antt`, the words of the contracts. The rules are this
//! project's own.
#![tactic(auto)]

mod linking;
mod ruled_ends;

pub use linking::end_link;
pub use ruled_ends::RuledEnds;
