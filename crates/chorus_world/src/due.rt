//! How a message is to be decided.

/// How a message is to be decided at a place, and with which hop.
#[derive(Clone, Copy)]
pub enum Due {
    /// It is not to be decided there now.
    NotDue,
    /// Its latest try is to this place, with this hop.
    ByTry { hop: u64 },
    /// It is to be tried from this place, and its port is located there, by this hop.
    AtHome { hop: u64 },
}
