//! Sending again over a line that loses, repeats and reorders.
//!
//! A [`Sender`] numbers the chunks that are put, keeps those that were not acknowledged and gives a copy of one as often as
//! it is asked. A [`Receiver`] keeps what comes within its window, whatever the order, and gives it out in the order of the
//! numbers. The line between them is the caller's.
//!
//! The layer above rests on `line_delivers_prefix`: whatever the line does, what was delivered is a prefix of what was put.
//! That it gets through is `one_round_brings_all`: from any state, one round in which nothing is lost delivers and acknowledges
//! all; and `fair_lines_bring_the_input`, of a line that lets one round in n through. Each call's contract is in the words of
//! `specs/Sending.antt` and `specs/Receiving.antt`; `specs/Line.antt` has the line, `specs/Rounds.antt` its rounds.
//! Begin with `sender.rt`.
//!
//! Numbers begin at 0 and count chunks. All of this is the project's own.
#![tactic(auto)]

mod chunk;
mod line;
mod receiver;
mod rounds;
mod sender;
mod window_limit;
mod window_slots;

pub use chunk::Chunk;
pub use line::line_delivers_prefix;
pub use receiver::{Got, Receiver};
pub use rounds::{fair_lines_bring_the_input, one_round_brings_all};
pub use sender::{Acked, PutFault, Sender};
