//! Where a port is held.

use chorus_entry::PortRecord;

/// A port that is held at a place.
#[derive(Drop)]
pub struct Placed {
    /// The place's number, from 1.
    pub place: u16,
    /// The port.
    pub port: PortRecord,
}
