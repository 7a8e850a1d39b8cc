//! Packets: whether one may be worked off, and what comes of it.
//!
//! A packet is told to be lawful exactly where the place machine says so (`law_machine`), and one that is worked off does exactly what
//! the machine does. All that can fail is made ready before, which changes nothing but the room.
//!
//! Begin with `readiness`, which takes the room for a packet and chooses; then `opening` works it off, and cannot fail. What an Ask
//! takes of groups is in `with_groups`. `lawful` reads.

mod lawful;
mod opening;
mod readiness;

pub(crate) use lawful::is_lawful;
pub(crate) use opening::open;
pub(crate) use readiness::make_ready;
