//! Laws of what is replayed: a text of version 1 is replayed the same on 8 and on 16 sites of one place each, a schedule that is made of
//! the moves of a whole history, replayed, leaves what they come to, and claims are read over.
//!
//! By the first, [`version_one_stays`], who wrote a scenario of version 1 gets the same bytes from `replay` on either. Its proofs speak of
//! any layout and of more sites, but for the last file: an event does on more sites what it does on fewer, where all names are of sites that
//! both have. On the second, [`a_schedule_shows_its_outcome`], the layer above rests: what is told of a race, with a schedule that shows it,
//! is seen in the journal of the replay of the scenario with that schedule. The crate has no code but the laws (`laws`), which make no call.
//!
//! Begin with `specs/Version.antt`; of its proofs with `Places` (a turn), then `Nets` (the network), `Carrying` (tasks) and `Stays`. Then
//! `specs/Shown.antt`, with the proofs `Steps` and `Shown`.
#![tactic(auto)]

mod laws;

pub use laws::{a_schedule_shows_its_outcome, claims_are_read_over, version_one_stays};
