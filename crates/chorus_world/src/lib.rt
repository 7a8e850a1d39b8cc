//! The world of one holder per port: which entry of a journal may come next, and what the entries so far have made of
//! ports, messages, groups and callers.
//!
//! A world is a layout and all entries so far. The definitions of `specs/` say what is read from them, by subject: what an
//! entry can read (`Views`), what was posted (`Posts`), how far a message is (`Messages`), what became of a port (`Ports`)
//! and of each message that it accepted (`Fates`), what it keeps of requests (`Clients`), what a place knows (`Places`), a
//! group's members (`Groups`), a caller's calls (`Seats`), and from these the step relation (`Steps`). `Runs` and
//! `Commands` say which lists are runs for callers and which perform commands, and `Answer` names the one act that answers a
//! command.
//!
//! The layers above rest on the definitions, and on what holds of each legal list: [`laws`], and [`sorting`], where ports
//! were, and that such a list is legal in the order by clock and place too. The crate has no code but the types that
//! the definitions name: [`Spot`], [`Progress`], [`Due`], [`Sent`], [`Location`] and [`TakenReply`].
//!
//! Begin with `specs/Views.antt` and `specs/Steps.antt`.
#![tactic(auto)]

mod due;
pub mod laws;
mod place;
mod progress;
pub mod sorting;
mod spot;

pub use due::Due;
pub use place::{Location, Sent, TakenReply};
pub use progress::Progress;
pub use spot::Spot;
