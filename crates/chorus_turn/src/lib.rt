//! Turns on places: one caller at a place at a time, an answer at once where another has it, and no history lost.
//!
//! A table of places holds one state each. A caller has a pass, and with it runs a job on a place's state for one
//! turn. The crates above rest on this: a turn is exclusive, and the state that a pass finds has a journal that
//! begins with all that the pass has seen there, with exactly its own entries of its number among them. No call
//! waits, and only `Turns::start` takes memory. That a call ever finds its place free is not promised.
//!
//! Begin with `knowledge.rt` (what a caller knows) and `job.rt` (what a state and a job owe), then `turns.rt`. The
//! rule that holds between any two steps is `specs/Rule.antt`; `steps.rt` has each kind of step once.
#![tactic(auto)]

mod close;
mod coming;
mod job;
mod knowledge;
mod pass;
mod room;
mod rule;
mod start;
mod steps;
mod turns;
mod view;

pub use close::{PassesOut, Spent};
pub use coming::NoSeat;
pub use job::{Job, Kept};
pub use knowledge::{Knowledge, Note, Placed, Remarked};
pub use pass::Pass;
pub use turns::{Busy, Turns};
