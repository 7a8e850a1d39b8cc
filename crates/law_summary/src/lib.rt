//! What the numbers of a summary are: the law that ties the summary of a journal to the world.
//!
//! `chorus_show` counts the entries of a journal and knows no world; `chorus_world` has the ports and what waits in them. The
//! law says that both speak of the same: whoever reads `queued` and `moving` under a legal journal reads how many messages wait
//! in the ports that the world holds, and in those that move; and so with each other number. The crate has no code but the law,
//! which makes no call.
//!
//! Begin with `specs/Counted.antt`, and `Numbers`.

#![tactic(auto)]

mod law;

pub use law::a_summary_counts_the_world;
