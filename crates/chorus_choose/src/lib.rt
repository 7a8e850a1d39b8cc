//! Receiving on any enabled port, and a receive that waits.
//!
//! A [`Chooser`] has the enabled ports in the order in which they are looked at. [`Chooser::receive`] looks at each
//! once, by one take of the nucleus, and takes from the first that has a message for the caller.
//! [`Chooser::receive_in_turn`] besides puts the port that gave behind the others of its priority, so that none starves.
//! [`Chooser::wait_receive`] waits for a ring of a [`bell()`] where there was none, and looks again: one look for each wait. The
//! user rests on this: the entries that a receive appended are told by its answer alone.
//!
//! Begin with `specs/Looking.antt` and `specs/Changes.antt` (the order), then `specs/Rounds.antt` (what a receive appends) and
//! `specs/Bells.antt`.
#![tactic(auto)]

mod bell_ends;
mod bells;
mod chooser;
mod fault;
mod laws;
mod received;
mod receiving;
mod rule;
mod waiting;

pub use bell_ends::{Ringer, Waiter};
pub use bells::bell;
pub use chooser::{Chooser, ENABLED_LIMIT, Enabled};
pub use fault::{EnableFault, NotEnabled};
pub use laws::{Change, looking_order, no_port_starves};
pub use received::{Received, Waited};
