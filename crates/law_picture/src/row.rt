//! Where an entry stands in a list, and what a packet between two entries is.

/// Where an entry stands in a list of entries.
#[derive(Clone, Copy)]
pub struct Row {
    /// How many entries stand before it.
    pub number: u32,
    /// Its place.
    pub place: u16,
    /// Its clock.
    pub clock: u64,
}

/// What a packet carries, as [`Cargo`](chorus_entry::Cargo) says.
#[derive(Clone, Copy, PartialEq, Eq)]
pub enum PacketKind {
    /// A message, to where its port is located.
    Try,
    /// What was decided on a message.
    Verdict,
    /// A port.
    Transfer,
    /// A post to a group.
    Ask,
    /// What became of a group's post or of one of its copies.
    Report,
}
