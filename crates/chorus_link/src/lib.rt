//! A link carries packets from one place to another: what its sending end puts comes out at its receiving end,
//! in order, and none of it is lost.
//!
//! A link is a bounded queue without a lock, of whatever packets its user has. [`link`] makes one and gives its two ends,
//! which may go to different threads. [`SendEnd::push`] puts a packet, [`RecvEnd::pop`] gets one, and [`settle`] takes both
//! ends together again and gives the [`Rest`], the packets that were put and not got. It stands in one process for the network
//! between the sites of the 1988 Chorus article; its rules are this project's own.
//!
//! What the layer above rests on: each push and pop tells the one packet that it moved, and at `settle` what was put is what
//! was got followed by the rest. A push hands its packet back only where the queue was full at a step of the call, a pop gives none
//! and a look ([`RecvEnd::finds_empty`]) says empty only where it was empty; each end counts these. Nothing is said of waiting or of
//! progress.
//!
//! Begin with `specs/Rule.antt`, the rule that every step keeps, and `specs/Ends.antt`, the words of the contracts. A state
//! that keeps ends says by their [`LinkName`]s which links they are of.
#![tactic(auto)]

mod ends;
mod lifecycle;
mod name;
mod rest;
mod rule;

pub use ends::{RecvEnd, SendEnd};
pub use lifecycle::{link, settle};
pub use name::{LinkName, names_tell_links};
pub use rest::Rest;
