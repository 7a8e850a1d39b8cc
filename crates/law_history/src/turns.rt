//! What a turn takes and what it puts, for contracts alone: no value of these types is made.

/// What a turn takes: a caller's command, or a packet from another place.
pub enum Input<M, K> {
    /// A command of the caller whose turn it is.
    Command { command: M },
    /// A packet that came from the place of this number.
    Packet { from: u16, packet: K },
}

/// A packet that a turn puts.
pub struct Sent<K> {
    /// The number of the place that it goes to.
    pub to: u16,
    /// The packet.
    pub packet: K,
}
