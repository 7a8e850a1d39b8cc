//! All entries of a world so far, with what they say in tables beside them, so that each question is answered in about the
//! same time whatever went before.
//!
//! The layers above rest on this: each reader of a [`Ledger`] gives exactly the term of the definitions of `chorus_world`
//! that its contract names, read from all entries. `append` adds an entry that may come next, and an error leaves the ledger
//! as it was.
//!
//! Begin with `ledger`. `tables` has all tables: those of `checker_rows`, and those of `ports` and `groups`, whose rows own lists.
//! That they say what the entries say is one equation for each key of each table (`specs/Ties.antt`).
#![tactic(auto)]

mod groups;
mod ledger;
mod port_state;
mod ports;
mod tables;

pub use groups::choosing_place;
pub use ledger::Ledger;
pub use port_state::PortState;
pub use ports::{fate_in, follow_ports};
