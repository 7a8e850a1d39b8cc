//! What a place did when it served its links.

/// What a place did when it served its links.
#[derive(Clone, Copy, Debug, PartialEq, Eq)]
pub enum Pump {
    /// It worked off a packet from this place, or has an unlawful one from there in hand.
    Served { from: u16 },
    /// It had nothing in hand, and found each link to it empty. So far its turns have put so many packets, and it has worked off
    /// so many, up to 2^64 - 1.
    Idle { put: u64, worked: u64 },
}
