//! Scenario texts: what happens to a nucleus, written down. The text is this project's own.
//!
//! A scenario of version 1, 2 or 3 says which ports and groups there are, what each caller does, what is claimed of it, and in
//! which order it happens.
//! [`read`] gives what a text says, or its first line that fails a test, with the reason. The layers above rest on the definition
//! `read_scene` of `specs/Grammar.antt`, which is the tests from top to bottom, and on the three laws of `laws`: the lines are
//! tested in order, a scenario that was read keeps the limits of `specs/Limits.antt`, and what is printed of it says the same.
//!
//! Begin with `scenario`, what a text says. `reading` goes over the lines; `reader` takes one line, with its parts
//! `setup_lines`, `commands`, `claims` and `steps`; `setup` has the tables by which no earlier line is searched; `limits` has the numbers.
//! A line is taken apart by `chorus_lines`, a claim is tested by `chorus_claims`, and a scenario is printed by `chorus_print`.
#![tactic(auto)]

mod laws;
mod limits;
mod reader;
mod reading;
mod scenario;
mod setup;

pub use chorus_entry::Command;
pub use chorus_lines::{ReadFault, SceneFault, TOO_LONG};
pub use laws::{
    a_scenario_keeps_its_limits, lines_are_tested_in_order, what_is_printed_is_read_again,
};
pub use limits::{
    CLAIMS_LIMIT, COMMANDS_LIMIT, SCRIPTS_LIMIT, STEPS_LIMIT, TEXT_LIMIT, VERSION_ONE_BODY,
    VERSION_ONE_SITES,
};
pub use reading::read;
pub use scenario::{ClaimText, Scenario, Script, SetupLine, Step};
