//! How often a thread pumps.

/// How often a thread pumps a place that is not idle before it goes on.
pub(crate) const PUMPS_AT_A_PLACE: u32 = 64;

/// Behind how many commands a thread pumps at least once.
const MOST: u32 = 256;

/// Behind how many commands a thread pumps: behind each at first; half as often after each pump that finds nothing, and
/// twice as often after one that works off something.
#[derive(Clone, Copy)]
pub(crate) struct Pace {
    apart: u32,
    since: u32,
}

impl Pace {
    /// The pace at first: a pump behind each command.
    pub(crate) fn new() -> Pace {
        Pace { apart: 1, since: 0 }
    }

    /// Counts a command for the pace. Whether the thread pumps behind it.
    pub(crate) fn is_due(&mut self) -> bool {
        self.since = self.since.saturating_add(1);
        if self.since < self.apart {
            return false;
        }
        self.since = 0;
        true
    }

    /// Tells the pace whether the pump behind a command worked off something.
    pub(crate) fn note(&mut self, served: bool) {
        self.apart = if served {
            (self.apart / 2).max(1)
        } else {
            self.apart.saturating_mul(2).min(MOST)
        };
    }
}
