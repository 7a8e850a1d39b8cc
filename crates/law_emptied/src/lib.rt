//! The law of ports that one seat fills and others empty.
//!
//! Where seat 0 made ports and sent to them, with nothing left to be done, and then others took, each at one port until it
//! found none, each of them got the first messages that were sent to its port. The law speaks of the definitions alone,
//! over runs, and makes no call.
//!
//! Begin with `specs/Crewed.antt`; `law_filled` says what the ports hold.
#![tactic(auto)]

pub mod emptied;
