//! A crew that handles the messages of ports: jobs in a deque, and workers that steal them.
//!
//! [`crew_with`] enters a pass for each port and puts one job for each into a deque. Workers in threads steal the jobs;
//! who has a job takes and handles message after message until there is none, and hands the pass back. All passes are
//! then retired into the caller's. The user rests on this: each message that was taken was handled exactly once, in the
//! order of the port's takes, also where the crew stopped for a fault; and no pass is lost. [`crew`] is the same with
//! values that are added up.
//!
//! Begin with `specs/Handling.antt` (what a job's pass leaves), then `specs/Rule.antt` (what the deque keeps),
//! `doing` (the threads) and `crews`.
#![tactic(auto)]

mod counting;
mod crews;
mod deque_start;
mod doing;
mod fault;
mod folding;
mod gather;
mod handler;
mod job;
mod making_jobs;
mod one_job;
mod pairs;
mod retiring;
mod rule;
mod slots;
mod tools;
mod worker;

pub use counting::crew;
pub use crews::crew_with;
pub use fault::{CrewFault, Unfinished};
pub use folding::{EndedBy, Fold, Folded};
pub use handler::{Handled, Handler};
pub use pairs::{PAIRS_LIMIT, are_pairs};
