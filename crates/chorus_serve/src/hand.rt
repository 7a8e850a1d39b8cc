//! What a place has in hand.

use chorus_entry::Packet;

/// A packet that was received and is not worked off.
#[derive(Drop)]
pub struct Held<P> {
    /// The number of the place that it came from.
    pub from: u16,
    /// The packet, opened or not.
    pub content: Content<P>,
}

/// A packet as it came, or opened.
#[derive(Drop)]
pub enum Content<P> {
    /// The parcel that a link gave.
    Sealed(P),
    /// The packet that it stands for.
    Opened(Packet),
}
