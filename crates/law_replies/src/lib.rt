//! Laws of what callers are told: a command is answered by the one act that answers it, a reply is what happened, what is received was
//! posted, and an outcome is true.
//!
//! The machine's `reply` and `outcome` are definitions, to which the code is held exactly. The laws here say what they mean, in
//! the entries that stand in the journals: in each network, for the merge of each schedule, and at any moment of places that run
//! side by side. No code stands on them. The crate has no code but the laws, which make no call.
//!
//! Begin with `specs/Replies.antt`, where each reply has its row, and `specs/Outcomes.antt`; `proofs/Examples` has journals and
//! histories worked out, and what fails the laws.
#![tactic(auto)]

pub mod answers;
pub mod outcomes;
pub mod replies;
