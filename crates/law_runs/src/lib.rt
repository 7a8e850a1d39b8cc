//! Laws that join what `explore` and `check` tell to what runs on threads come to.
//!
//! Whichever threads gave the commands and worked packets off, on one, two or four places a site, what a run closes is what a whole history
//! of the scenario's race comes to on that layout ([`runs_are_histories`]). So its outcome lines are among those that an exploration
//! of all tells, and it meets each claim that holds. The crate has no code but the laws, which make no call.
//!
//! Begin with `specs/Runs.antt`.
#![tactic(auto)]

mod laws;

pub use laws::{runs_are_among_outcomes, runs_are_histories};
