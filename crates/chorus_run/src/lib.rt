//! The top calls: what the program does between its input and its output.
//!
//! [`run`] reads a scenario from a source, performs it on the running threads of a nucleus, and writes the journal and the summary to a
//! sink; [`replay`] does so on one thread, and [`load`] performs commands that it draws. The program rests on this: what `run` prints is
//! the merged journal of the nucleus that it was handed, whatever its threads did and in which order; that merge is a run of the
//! one-holder world for the scenario's callers, in which each command stands once, in its script's order, with the entry that answers
//! it, or those in front of an await at which its script is stuck, for which no message will come; the records and packets that are handed
//! out stand for its ports; nothing is left to be done; and each other ending but want of memory has its cause. Of `replay` and `load` it
//! is said where they stand.
//!
//! [`handle_drawn`] sends drawn messages to eight ports of a nucleus, and lets a crew of four workers handle what waits: what is written
//! is a function of its two numbers, and where it is written, the nucleus that was handed in performed the sends, and its journals have
//! the takes that were counted.
//!
//! Begin with `running`, and with `drawn_crew`.

#![tactic(auto)]

mod closing;
mod drawn_crew;
mod finishing;
mod report_parts;
mod running;
mod standing;

pub use chorus_perform::{Gate, OpenGate, Stopped, perform};
pub use chorus_replay::{LOAD_LIMIT, LOAD_SITES, load, replay};
pub use chorus_report::Finished;
pub use closing::{close, close_unused, stop};
pub use drawn_crew::{CREW_PORTS, DRAWS_LIMIT, handle_drawn};
pub use running::run;
