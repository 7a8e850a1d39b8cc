//! The laws of what takes hand out through a running nucleus, and of what a crew counts.
//!
//! What a take handed out was posted. Where one pass made ports and sent to them, and others took, the merge of the closed journals is
//! what the first pass made and then what the others took. And at ports that were filled before it a crew handled the first messages
//! that were sent to each, as many as find room, each once: that joins the clauses of a crew with the laws of ports. The laws speak of
//! the definitions alone and make no call.
//!
//! Begin with `specs/Posted.antt` of `chorus_nucleus`, `specs/Crewed.antt` and `specs/Crews.antt`.
#![tactic(auto)]

pub mod crews;
pub mod takes;
