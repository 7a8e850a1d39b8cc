//! What deliveries served.

/// What one delivery did.
#[derive(Clone, Copy, Debug, PartialEq, Eq)]
pub enum Delivered {
    /// It worked off the first packet that waited.
    Served,
    /// No packet waited.
    Nothing,
}

/// After a drain no packet is left.
#[derive(Clone, Copy, Debug, PartialEq, Eq)]
pub struct Quiet {
    /// The packets that the drain worked off.
    pub served: u64,
}
