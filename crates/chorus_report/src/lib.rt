//! What stands on both sides of the play: the scenario that a source gives, and what is written of what was played.
//!
//! [`read_scenario`] reads a source to its end, [`read_without_awaits`] too, but refuses what waits, and [`finish`] ends a call by what
//! it played; its last step, [`print`], writes a text of any kind. Between them a scenario is played, on one thread or on many: that is
//! of the crates above. They rest on this: the scenario is the one that the grammar gives for the bytes that were read, each ending but
//! want of memory has its cause, and what is written is the text of the merge of the journals that are handed out.
//! `specs/Headline.antt` has what they promise of what they closed: it is a run of the one-holder world, `Plays`, of the scenario that
//! was read, `Runs`.
//!
//! Begin with `specs/Headline.antt`, and then `reading` and `writing`.

#![tactic(auto)]

mod finished;
mod laws;
mod played;
mod reading;
mod setup;
mod writing;

pub use finished::{Finished, gave_up};
pub use laws::what_does_not_wait_is_played_whole;
pub use played::Played;
pub use reading::{read_scenario, read_without_awaits};
pub use setup::setup_command;
pub use writing::{Text, finish, print, push_stuck_lines};
