//! The laws of choosing, joined to the world.
//!
//! What a receive tells was so: at each port that it looked at in vain nothing waited when it was looked at, or the caller's actor did
//! not hold it, and the entries tell which; and a message that it gave was the first that waited. The laws speak of the definitions
//! alone and make no call.
//!
//! Begin with `specs/Found.antt`.
#![tactic(auto)]

pub mod looks;
