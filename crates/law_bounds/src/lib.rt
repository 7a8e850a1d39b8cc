//! What a place keeps and puts is within the ranges of packets, so that each packet that it puts has a frame.
//!
//! The layer above rests on this: a turn of the place machine with a command, or with a lawful packet, leaves what the place keeps
//! within its ranges, and each packet that it puts is within its own ([`turns_stay_within`]); and what a command and its caller
//! hold is within theirs by itself ([`are_within`]).
//!
//! Begin with `specs/Bounds.antt`.
#![tactic(auto)]

mod laws;
mod reading;

pub use laws::turns_stay_within;
pub use reading::are_within;
