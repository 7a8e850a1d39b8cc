//! A scenario on running threads: one thread for each script, on one nucleus.
//!
//! [`perform`] performs the setup by seat 0, the scripts side by side, and works off what is left. The layer above
//! rests on this: whatever the threads did and in which order, the pass of each script gave the script's commands, each
//! once and in their order, seat 0 those of the setup, and as many packets were worked off as were put; where it
//! stopped, each gave the first of its commands. What replies they got is the nucleus's, and that nothing is lost is
//! what closing it tells.
//!
//! Begin with `performing`. `setup`, `coming`, `running` and `rounds` are its steps; `commands` performs the commands
//! of a thread, `pumping` moves packets meanwhile and then, at the `pace` and the places, its `share`, that are those
//! of the thread; `lately` leaves places out at which nothing was found, and `stay` says how long a thread stays at one.
//! The threads that are done with their commands last go on to pump, follow packets from place to place, and help one
//! another.
//!
//! Where something waits in the scenario, `waiting` performs the commands of a thread, and `resting` tells when all threads rest. A
//! script that waits then ends behind the first of its commands.
//!
//! [`perform_command`], and [`settle`], the last step, may be called alone, by what performs commands in another way:
//! the first performs one command, the other pumps all places until nothing is left.

#![tactic(auto)]

mod at_work;
mod coming;
mod commands;
mod gate;
mod lately;
mod pace;
mod performing;
mod pumping;
mod resting;
mod rounds;
mod runner;
mod running;
mod setup;
mod share;
mod stay;
mod stopped;
mod waiting;

pub use commands::perform_command;
pub use gate::{Gate, OpenGate};
pub use performing::perform;
pub use rounds::settle;
pub use stopped::{Halted, Stopped};
