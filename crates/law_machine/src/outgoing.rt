//! A packet on its way out.

use chorus_entry::Packet;

/// A packet, and the place that it goes to.
#[derive(Drop)]
pub struct Outgoing {
    /// The place, from 1.
    pub to: u16,
    /// What it gets.
    pub packet: Packet,
}
