//! The groups of a place, and the members that a post to a group is turned into copies for.
//!
//! [`Groups`] keeps the groups that were made at a place. Each has its members in the order in which they joined, at most
//! 32, and a rotation place: the member that is chosen next where one is to be chosen. `with_room` and `make` take all
//! memory, but for the members that `chosen` and `choose` give out.
//!
//! The layer above rests on `chosen_in_turn`: over any list of choices of one member, with no join or leave between them,
//! the members of a group are chosen in turn, round the list. Each call's contract is in the words of `specs/Groups.antt`,
//! `specs/Faults.antt` and `specs/Choosing.antt`. Begin with `groups`.
#![tactic(auto)]

mod choice;
mod fault;
mod group;
mod groups;
mod law;
mod ports;

pub use choice::Choice;
pub use fault::{JoinFault, LeaveFault};
pub use groups::Groups;
pub use law::chosen_in_turn;
