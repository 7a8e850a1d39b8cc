//! What a search over the schedules of a race found, and the text that tells it: the lines of what a schedule came to, and each
//! outcome once. The lines say how each command was answered, which verdict each message and copy got, which of them were told
//! `stale`, what each port holds, and where a script is stuck.
//!
//! The layer above rests on this: told from the journals of all places and from the ports that are held, the lines are those of the
//! facts of `law_explore`, without the numbers that only tell when. [`Findings`] has each outcome once, with how many histories come
//! to it and the first of them, and [`report`] writes exactly the bytes of `report_text`. That the single facts of that text are
//! those of the outcomes, none made up and none missing, is the law [`single_facts_tell_all_outcomes`]; that of each outcome the
//! lines that are in all of them and its others are told, and no other, is [`differences_tell_all_outcomes`]. [`judge_all`] keeps of
//! each claim the first history that does not meet it, and no outcome else.
//!
//! Begin with `specs/Facts.antt`, a line for each fact, and `specs/Outcomes.antt`, the lines as they are told from an end; then
//! [`Findings`], and `specs/Reports.antt`, the text.
#![tactic(auto)]

mod explored;
mod facts;
mod findings;
mod judgements;
mod laws;
mod lines;
mod outcomes;
mod text;

pub use explored::Explored;
pub use facts::{
    push_accepted, push_answered, push_calls, push_copied, push_held, push_holds, push_judged,
    push_members, push_moving, push_next, push_open, push_settled, push_stale, push_stuck,
};
pub use findings::{Finding, Findings};
pub use judgements::{Judgement, have_all_failed, judge_all, not_yet_judged, want_moments};
pub use laws::{differences_tell_all_outcomes, single_facts_tell_all_outcomes};
pub use outcomes::{is_stale_at, push_all_ports, push_messages, verdict_at};
pub use text::{push_count, push_steps, report};
