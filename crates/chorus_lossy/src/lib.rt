//! Bytes carried over a line that loses, repeats and reorders by draws.
//!
//! [`carry`] runs the two ends of `chorus_transport` in rounds, over a line whose losses, repeats and delays are drawn from a
//! number. What has to be believed is `specs/Rounds.antt`, which says what happens in a round. The layer above rests on this:
//! what is delivered is what was carried, and what is counted is that of the run. [`lossy`] carries what a source gives, and
//! writes what came of it (`specs/Output.antt`).
//!
//! Begin with [`carry`].

#![tactic(auto)]

mod carrying;
mod line;
mod printing;
mod rounds;

pub use carrying::{Carried, carry};
pub use line::{CHUNK_BYTES, WINDOW};
pub use printing::{INPUT_LIMIT, lossy};
