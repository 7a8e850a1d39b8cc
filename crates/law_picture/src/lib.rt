//! What a picture of a journal shows beside its entries, by the entries alone: from which entry an arrow leads to another, and where
//! the bar of a port stands.
//!
//! `specs/Causes.antt` says which entry put the packet that an entry works off, `specs/Bars.antt` where a port is and how many
//! messages wait in it. The layers above draw by these. The laws tie both to the world ([`packets_have_arrows`],
//! [`bars_are_of_the_world`]). The crate has no code but the laws, which make no call, and the types that the definitions name.
//!
//! Begin with `specs/Causes.antt`.

#![tactic(auto)]

mod bar;
mod laws;
mod row;

pub use bar::Bar;
pub use laws::{bars_are_of_the_world, packets_have_arrows};
pub use row::{PacketKind, Row};
