//! That what is left to be done comes to an end: a ranking function, and its laws.
//!
//! Each delivery lowers a number that is computed from what is under way, what waits, how often ports moved and which joined groups
//! (`specs/Rank.antt`). So behind the last command at most so many deliveries come, and after at most so many rounds over all places
//! nothing is left. The crate has no code but these laws, which make no call.
//!
//! Begin with `specs/Endings.antt`, then `laws`.
#![tactic(auto)]

mod laws;

pub use laws::runs_come_to_an_end;
