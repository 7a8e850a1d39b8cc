//! A port in a picture.

use crate::row::Row;

/// What the entries on the line of a port say of its bar.
#[derive(Clone, Copy)]
pub struct Bar {
    /// Where the last of them stands.
    pub row: Row,
    /// How many messages wait in it.
    pub waits: u32,
    /// Whether it is held there, neither under way nor deleted.
    pub held: bool,
}
