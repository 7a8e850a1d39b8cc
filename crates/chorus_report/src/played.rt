//! What was played left.

use chorus_net::Closed;

/// What was played left, when that on which it was played is closed.
#[derive(Drop)]
pub struct Played {
    /// The journals, the packets and the ports that are left.
    pub closed: Closed,
    /// The clock that was worn before all was done, if one was.
    pub worn: Option<u64>,
}
