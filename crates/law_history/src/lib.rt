//! Histories of running places, of definitions, and the laws that turn them into schedules of the network machine.
//!
//! Threads take turns at places, and nobody sees them all. What is known when they end are histories: of each place its turns in
//! order, of each caller its turns in order, and of each two places what was put and what was taken. The laws say that such
//! histories are those of a schedule, so that all that `law_network` says of each schedule holds of them.
//!
//! The layers above rest on [`journals_are_a_schedule`] and [`journals_merge_as_a_run`], and on the general laws behind it, which hold of any machine whose
//! clocks rise: [`histories_are_scheduled`], [`equal_counts_leave_nothing`] and [`stands_behind_all_seen`]. For what is left:
//! [`turns_put_for_other_places`], [`counts_tell_what_is_left`] and [`schedules_leave_places_and_links`]. The crate has no code but
//! the laws, which make no call, and the types that definitions name.
//!
//! Begin with `specs/Turns.antt`, `specs/Network.antt` and `specs/Histories.antt`, where places, callers, commands and packets
//! are left open; `specs/PlaceTurns.antt` and `specs/Journals.antt` are of the places of this project.
#![tactic(auto)]

mod histories;
mod journals;
mod places;
mod turns;

pub use histories::{equal_counts_leave_nothing, histories_are_scheduled, stands_behind_all_seen};
pub use journals::{
    journals_are_a_schedule, journals_merge_as_a_run, journals_rise, turns_append_entries,
};
pub use places::{
    counts_tell_what_is_left, schedules_leave_places_and_links, turns_put_for_other_places,
};
pub use turns::{Input, Sent};
