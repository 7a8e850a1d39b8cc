//! Every schedule of a small scenario: what may come of the race of its scripts and of the deliveries.
//!
//! [`explore`] reads a scenario from a source, goes over its schedules, and writes to a sink what may come: how each
//! command may be answered, which verdict each message may get, and what each port may hold at the end, each with a
//! schedule that shows it. [`explore_scenario`] gives that text. A layer above rests on `specs/Ends.antt` and
//! `specs/Explored.antt`, which say what is promised, and on `specs/Shown.antt`: what is shown is seen in a replay.
//! [`check_scenario`] asks claims of the ends of those schedules, or of each moment on their way, in place of telling what they come to;
//! `specs/Checked.antt` says what is promised of each claim, and that what holds is so of every replay ([`replays_meet_claims`]).
//! [`draw_scenario`] asks them of schedules that are drawn, where all are too many, as `specs/Drawn.antt` says.
//!
//! Begin with `exploration` and with `level_search`: level by level, with the histories put together that come
//! alike, as `specs/Searches.antt` says. `race_sites` performs the moves, and `sums` picks whom to compare; `alike_sites`
//! compares. What the moves came to `explore_report` tells, counts and writes down.
#![tactic(auto)]

mod alike_sites;
mod checking;
mod drawing;
mod drawn_outcomes;
mod exploration;
mod exploring;
mod laws;
mod level_search;
mod race_sites;
mod sums;

pub use checking::check_scenario;
pub use drawing::draw_scenario;
pub use exploration::{ExploreFault, HISTORIES_DRAWN, explore_scenario};
pub use exploring::explore;
pub use laws::{
    failures_are_replayed, replays_are_told, replays_are_whole, replays_meet_claims,
    shown_schedules_are_replayed, whole_schedules_leave_nothing,
};
