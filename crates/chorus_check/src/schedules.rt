//! Which schedules a check asks.

/// Of which schedules of a scenario its claims are asked.
#[derive(Clone, Copy, Debug, PartialEq, Eq)]
pub enum Schedules {
    /// Of all, as far as they are gone over by at most so many events.
    All { most: u32 },
    /// Of so many, which the generator draws from the first state on.
    Drawn { count: u32, first: u64 },
}
