//! The law of ports that one seat makes and fills.
//!
//! A seat that makes ports and posts plain messages to them, and does nothing else, fills each of them with the first
//! messages that it posts to it, as many as find room, as soon as nothing is left to be done. The law speaks of the
//! definitions alone, over legal lists of entries, and makes no call.
//!
//! Begin with `specs/Filled.antt`.
#![tactic(auto)]

pub mod filled;
