//! The ends of links, by which a place sends packets to others and gets theirs.
//!
//! What the layers above rest on: a push tells the packet that was sent behind all that was sent to that place, a pop the packet
//! that was received behind all that was received from there, and a refusal sends and receives nothing. A push says Full only
//! where the count of that place's `fulls` rose, and a pop gives none, or a look says empty, only where the count of its `empties` rose.
//!
//! Begin with the traits [`Ends`] and [`Moves`], and with `specs/Links.antt`, the words of their contracts. [`MemEnds`] are ends in
//! memory, for one thread and for tests. The rules are this project's own.
#![tactic(auto)]

mod ends;
mod memory;

pub use ends::{Ends, EndsName, Moves, PushFault};
pub use memory::MemEnds;
