//! Replays and loads: what is performed on one thread, between an input and an output.
//!
//! [`replay`] reads a scenario from a source, replays it, and writes the journal and the summary to a sink; [`load`] performs commands
//! that it draws, and writes the summary alone. The program rests on this: what comes out is the text of the merge of the journals that
//! are handed out; they are those of the network after the scenario's or the load's tasks in their order; that merge is a run of the
//! one-holder world for the callers, in which each command stands once, in its caller's order, with the entry that answers it; the
//! records and packets that are handed out stand for its ports; and each other ending but want of memory has its cause. [`set_up`] and
//! [`enter`], its first two parts, are there for those who go on by moves of their own.
//!
//! Begin with `replaying`. `performing` and `following` perform a scenario, `loading` and `draws` a load; `closing`
//! closes the sites.

#![tactic(auto)]

mod awaiting;
mod closing;
mod draws;
mod following;
mod laws;
mod loading;
mod performing;
mod replaying;

pub use awaiting::would_take;
pub use draws::LOAD_SITES;
pub use laws::{
    a_load_has_one_outcome, a_replay_has_one_outcome, without_awaits_the_scenario_tells_the_order,
};
pub use loading::{LOAD_LIMIT, load};
pub use performing::{enter, set_up};
pub use replaying::replay;
