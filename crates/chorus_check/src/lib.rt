//! The claims of a scenario, checked over every schedule.
//!
//! [`check`] reads a scenario from a source, goes over its schedules, and writes to a sink what is
//! so of its claims: each holds, or fails by a schedule that is one of the shortest, or is open
//! where a limit was met. Where all schedules are too many, it follows some that are drawn: then a
//! claim fails by the first of them that does not meet it, or is open. A layer above rests on
//! `specs/Ends.antt`, with `specs/Texts.antt` for the text, and `Checked.antt` and `Drawn.antt` of
//! chorus_explore for what it means, and on the law [`holding_claims_are_met`]: where all hold,
//! every replay of the scenario meets them.
//!
//! Begin with `checking`; `texts` writes what was found.
#![tactic(auto)]

mod checked;
mod checking;
mod laws;
mod schedules;
mod texts;

pub use checked::Checked;
pub use checking::check;
pub use laws::holding_claims_are_met;
pub use schedules::Schedules;
