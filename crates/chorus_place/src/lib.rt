//! A place: its journal, its tables, and what a caller's command or a packet appends, changes and puts there.
//!
//! The layer above rests on this: [`Place::act`] and [`Place::work`] do exactly what the place machine does (`law_machine`), for
//! every command and every lawful packet on every layout, and give its reply; what they put waits behind what waited. A refusal
//! changes nothing, and says why.
//!
//! Begin with `place`, then `perform`, which chooses the turn of a command. `turns` has the turns, of packets too, over `tables`,
//! with the steps, an entry each. `journal_outcome` has what a journal alone tells of a message.
#![tactic(auto)]

mod fault;
mod journal_outcome;
mod perform;
mod place;
mod tables;
mod turns;

pub use fault::PlaceFault;
pub use law_machine::{Outcome, Reply};
pub use place::Place;
pub use tables::Tables;
