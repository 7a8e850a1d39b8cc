//! The place machine, of definitions: what a place does with a command or a packet.
//!
//! The layers above rest on the definitions of `specs/`: the state of a place and one entry more (`PlaceState`), a command's own
//! act (`Own`) and what follows from it (`Doing`), trying and deciding (`Trying`, `Deciding`), choosing members (`Choosing`), what a
//! packet brings (`Working`) and whether it may be worked off (`Lawful`), the reply (`Replies`), and what became of a message
//! (`Outcomes`). `PlaceMachine` joins them to a turn with a command or a packet. The code that does the same stands in
//! `chorus_place`, and what holds of places together in `law_network`. The crate has no code but the types that definitions name.
//!
//! Begin with `specs/PlaceState.antt`.
#![tactic(auto)]

mod outcome;
mod outgoing;
mod reply;

pub use outcome::Outcome;
pub use outgoing::Outgoing;
pub use reply::Reply;
