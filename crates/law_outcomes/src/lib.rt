//! Laws that join what `explore` and `check` tell to what a reader finds in a replay: its journal.
//!
//! [`closed_tells_outcome`] says that the lines of an outcome are those that a reader finds in the merged journal: the answers of a
//! script are the own entries of its seat, in their order. By it the outcome lines of every replay are among those that an
//! exploration of all tells ([`replays_are_among_outcomes`]), and what a check says holds is met by them
//! ([`checks_are_of_replays`]). The crate has no code but the laws, which make no call.
//!
//! Begin with `specs/Closed.antt`, which says what a reader finds; then `specs/Replays.antt`.
#![tactic(auto)]

mod laws;

pub use laws::{
    all_is_uncut, checks_are_of_replays, closed_tells_outcome, outcomes_tell_what_is_stuck,
    plays_are_histories, replays_are_among_outcomes, replays_are_histories, texts_tell_outcomes,
};
