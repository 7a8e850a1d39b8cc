//! Laws of the world beside those of `chorus_world`: what settles a call, what each decision says, whom a choice names, who
//! holds a port, what a receive tells of one, and how ports, groups and messages get their names.
//!
//! They speak of the definitions of `chorus_world` alone, over every legal list of entries. The laws that the place and the network
//! stand on are in `chorus_world`. The crate has no code but the laws, which make no call.
//!
//! Begin with `specs/Calls.antt`, `Decisions`, `Choices`, `Holding`, `Looks` and `Names`; `proofs/Examples` has a list for
//! each law that is not as it says.
#![tactic(auto)]

pub mod calls;
pub mod choices;
pub mod decisions;
pub mod holders;
pub mod names;
