//! A place at the ends of its links: what it puts goes out, and what comes in is worked off, packet by packet.
//!
//! What the layer above rests on: each call of [`serve`] sends what waits as far as the links have room, in order, takes at most one
//! packet into the hand, and works off the packet in hand exactly as the place machine does, where it is lawful. So for each other
//! place what was put is what was sent followed by what waits, and what was received is what was worked off followed by what is in
//! hand.
//!
//! Begin with `desk`, a place with its ends and its hand, then `serving`; `specs/Desks.antt` has what a desk is seen as, and
//! `specs/Serving.antt` what a call does. The rules are this project's own.
#![tactic(auto)]

mod desk;
mod hand;
mod pushing;
mod served;
mod serving;
mod taking;
mod working;

pub use desk::{Desk, Parts};
pub use hand::{Content, Held};
pub use served::Pump;
pub use serving::serve;
