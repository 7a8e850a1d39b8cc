//! The program.
//!
//! [`program`] does what the words say, between a source and a sink, with a nucleus that was started for it. [`conclude`] does the same,
//! and gives beside how it ended what was found of a journal or of a scenario's claims; [`start_program`] does that on a nucleus of its own, which it starts
//! where the words use one. [`ended`] makes the exit status of how it ended, and the line that says what went wrong. [`process`] hands
//! them the words and the streams of the process: it is all that `main` calls.
//!
//! Begin with [`program`].

#![tactic(auto)]

mod conclusion;
mod ending;
mod inquiries;
mod one_thread;
mod own_nucleus;
mod printed_is_legal;
mod running;
mod standard;

pub use conclusion::{Conclusion, Verdict};
pub use ending::{ended, without_words};
pub use own_nucleus::start_program;
pub use printed_is_legal::what_is_printed_is_legal;
pub use running::{PROGRAM_SITES, conclude, program};
pub use standard::process;
