//! A promise that an entry breaks.

/// The promise that an entry breaks.
#[derive(Clone, Copy, Debug, PartialEq, Eq)]
pub struct Breach {
    /// The rule: 0 for the place, the clock and the names of the entry, else the number of its act.
    pub rule: u8,
    /// Which condition of the rule is the first that fails, from 1.
    pub condition: u8,
}
