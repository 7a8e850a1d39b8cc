//! The journal of a place, with what is counted from it beside it.
//!
//! The layer above rests on this: each count equals what the definitions of `chorus_world` read from the entries
//! (`specs/Counting.antt`). It is kept beside them, so it is read in constant time.
//!
//! Begin with `journal`.
#![tactic(auto)]

mod acts;
mod journal;
mod marks;

pub use journal::Journal;
