//! The law that the arrows of a picture are the packets of the network.
//!
//! What is drawn finds its arrows in the entries alone (`law_picture`). The law ties them to the network machine: of each schedule the
//! arrows of its entries are the packets that were worked off, each once, from the entry that put it to the one that worked it off
//! ([`arrows_are_packets`]). The crate has no code but the law, which makes no call.
//!
//! Begin with `specs/Arrows.antt`.

#![tactic(auto)]

mod laws;

pub use laws::arrows_are_packets;
