//! What is judged of the journals that a replay or a run prints.
//!
//! `specs/Judged.antt` has the laws: each is judged a run ([`what_is_printed_is_judged_a_run`]), also with the scripts that a replay is
//! stuck at ([`what_is_stuck_may_be`]). The crate has no code but the laws, which make no call.

#![tactic(auto)]

mod laws;

pub use laws::{what_is_printed_is_judged_a_run, what_is_stuck_may_be};
