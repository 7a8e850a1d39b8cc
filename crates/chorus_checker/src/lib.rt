//! A world of one holder per port that takes a list of entries, each exactly where it may come next.
//!
//! The layers above rest on this: [`World::apply`] takes an entry exactly where the step relation of `chorus_world` gives a
//! world after it, and is then that world; else it names the rule (`specs/Rules.antt`) and changes nothing. Each term of the
//! step relation is read from the tables of a `checker_ledger::Ledger`, so that an entry costs about the same whatever went
//! before.
//!
//! Begin with `world`. Its modules have the test of each act, by subject, and `world::due` how a message is due; `port` and `group` have
//! what is asked of one port and of one group.
#![tactic(auto)]

mod fault;
mod group;
pub mod port;
mod rule;
mod world;

pub use checker_ledger::{Ledger, PortState};
pub use fault::WorldFault;
pub use world::World;
