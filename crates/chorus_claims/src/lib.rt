//! What a user claims of a protocol, as text, and whether a list of fact lines meets it. The language is this project's own.
//!
//! The layers above rest on this: [`fault_of`] gives the reason for which a text is refused, [`read_claim`] what a text claims, and
//! [`meets`] whether lines of facts meet it. A claim is met where for each way in which all facts on its left are so one fact on its
//! right is so; what letters stand for is listed by `choices`, and that this list has all ways and no other is a law.
//!
//! Begin with `specs/Pieces.antt`, what a claim says of lines; then `specs/Shapes.antt`, the grammar, and `specs/Places.antt`, what
//! is asked of each word.
#![tactic(auto)]

mod claim;
mod fault;
mod form;
mod known;
mod laws;
mod letters;
mod matching;
mod place;
mod spelling;
mod words;

pub use claim::{Claim, read_claim};
pub use fault::fault_of;
pub use laws::{all_ways_are_chosen, choices_are_ways, rests_are_one};
pub use matching::meets;
