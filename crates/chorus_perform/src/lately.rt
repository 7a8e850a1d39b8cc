//! Where a thread found something to do lately.

/// Every so many sweeps a thread goes over all places of its range.
const WHOLE: u32 = 8;

/// At which places of its range a thread found something in its last two sweeps. A pump that finds nothing asks each
/// link to its place, and at most places of a layout nothing ever happens: so a sweep leaves out where nothing was
/// found, but for each eighth sweep, and for one behind a sweep that found nothing anywhere. A place is a bit, the last
/// one of 64 the bit 0.
#[derive(Clone, Copy)]
pub(crate) struct Lately {
    /// In this sweep.
    found: u64,
    /// In the sweep before.
    before: u64,
    /// Which places this sweep goes over.
    due: u64,
    /// How many sweeps there were, up to 2^32 - 1.
    sweeps: u32,
}

impl Lately {
    /// What was found before the first sweep, which goes over all places: nothing.
    pub(crate) fn new() -> Lately {
        Lately {
            found: 0,
            before: 0,
            due: u64::MAX,
            sweeps: 0,
        }
    }

    /// Whether this sweep pumps the place, which else is left out.
    pub(crate) fn is_due(&self, place: u16) -> bool {
        self.due & bit(place) != 0
    }

    /// Tells whether the place worked off a packet in this sweep.
    pub(crate) fn note(&mut self, place: u16, served: bool) {
        if served {
            self.found |= bit(place);
        }
    }

    /// Whether this sweep found something so far.
    pub(crate) fn found(&self) -> bool {
        self.found != 0
    }

    /// Ends a sweep. Whether the thread is to go on at once: something was found, or places were left out.
    pub(crate) fn end_sweep(&mut self) -> bool {
        let goes_on = self.found != 0 || self.due != u64::MAX;
        self.sweeps = self.sweeps.saturating_add(1);
        self.due = if self.found == 0 || self.sweeps % WHOLE == 0 {
            u64::MAX
        } else {
            self.found | self.before
        };
        self.before = self.found;
        self.found = 0;
        goes_on
    }
}

/// The bit that stands for a place, from 1 to 64, in a set of places where a thread found something.
pub(crate) fn bit(place: u16) -> u64 {
    1u64.wrapping_shl(u32::from(place))
}
