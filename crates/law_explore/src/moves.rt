//! The moves of a race.

/// One move of a race.
#[derive(Clone, Copy, Debug, PartialEq, Eq)]
pub enum Move {
    /// The next command of the script that stands there, counted from 0; its seat is one more.
    Go { script: u16 },
    /// The delivery of the first packet that waits to go from the one place to the other.
    Carry { from: u16, to: u16 },
}
