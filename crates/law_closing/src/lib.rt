//! What is known when places, links and passes are closed, of definitions, and the laws that turn it into histories.
//!
//! A nucleus of threads keeps, for contracts alone, a remark beside each entry of its places, and of each pass what it made. The
//! laws say that what it hands out when it is closed are histories that fit each other, so that all that `law_history` says of
//! such histories holds of it; and that one turn more, and packets that move, keep what a place and a pass have to keep until then.
//!
//! The layer above rests on [`closed_has_schedule`], for any machine whose clocks rise, on [`closed_places_have_histories`], for the
//! places of this project, on [`closed_journals_are_those_seen`], on [`turns_keep_what_closing_needs`] and on
//! [`merges_follow_what_was_seen`]. The crate has no code but the laws, which make no call, and the type that definitions name.
//!
//! Begin with `specs/Remarks.antt`, then `specs/Closing.antt`.
#![tactic(auto)]

mod closing;
mod noted;

pub use closing::{
    closed_has_schedule, closed_journals_are_those_seen, closed_places_have_histories,
    merges_follow_what_was_seen, turns_keep_what_closing_needs,
};
pub use noted::Noted;
