//! Worked rows: each scenario once, with what comes of it, for every crate of tests that plays it. No test is here.
//!
//! `row` has what a row is; the others have the rows, by what they are about.
#![tactic(auto)]

mod calls;
mod deletions;
mod groups;
mod messages;
mod moves;
mod row;
mod turns;

pub use calls::{CALL_AND_REPLY_ON_ONE_SITE, RETRY_ACROSS_A_MOVE_IS_ACCEPTED_ONCE};
pub use deletions::{DELETE_AFTER_A_MOVE, DELETE_DISCARDS};
pub use groups::{
    BROADCAST_MEETS_FULL, FUNCTIONAL_AT_A_SITE, FUNCTIONAL_SEND_ROTATES,
    FUNCTIONAL_WHERE_THE_PORT_COMES_HOME, REPORT_REACHES_THE_HOME_PLACE,
};
pub use messages::{
    FULL_THEN_TAKEN_THEN_EMPTY, NO_PORT, ONE_MESSAGE_UNDER_WAY_PER_ROUTE,
    TWO_SITES_SEND_TO_ONE_PORT,
};
pub use moves::{
    EARLY_THEN_ARRIVE, MIGRATION_KEEPS_WAITING_MESSAGES, REHOME_ON_ONE_SITE, STALE_JUMPS_OVER_HOPS,
    STALE_PLACE_NAMES_THE_NEWER_ONE,
};
pub use row::WorkedRow;
pub use turns::{TWO_TURNS_AND_A_MOVE, TWO_TURNS_PER_SITE};
