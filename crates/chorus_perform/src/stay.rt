//! How long a thread stays at a place.

use crate::lately::bit;

/// How often a thread pumps a place at most where much was found.
const LONG: u32 = 32;

/// How often it does where it looks whether there is much.
const FEW: u32 = 4;

/// Each so many visits of other places look so.
const LOOKS: u32 = 8;

/// From how many packets on a visit found much.
const MUCH: u32 = 2;

/// At which places a thread found much when it was there last. It stays where there is much, and goes on from elsewhere behind the
/// first packet, for what that led to was sent to where it came from. A place is a bit, the last one of 64 the bit 0.
#[derive(Clone, Copy)]
pub(crate) struct Stay {
    much: u64,
    /// How many visits of other places there were, modulo 2^32.
    visits: u32,
}

impl Stay {
    /// What was found before the first visit: nothing.
    pub(crate) fn new() -> Stay {
        Stay { much: 0, visits: 0 }
    }

    /// How often a visit that begins pumps the place at most.
    pub(crate) fn pumps_at(&mut self, place: u16) -> u32 {
        if self.much & bit(place) != 0 {
            return LONG;
        }
        self.visits = self.visits.wrapping_add(1);
        if self.visits % LOOKS == 0 { FEW } else { 1 }
    }

    /// Tells how many packets a visit worked off that pumped at most so often, and whether the place was idle at last. Gives whether
    /// the thread is to go on from there: not where it stayed till nothing was left.
    pub(crate) fn note(&mut self, place: u16, most: u32, served: u32, is_idle: bool) -> bool {
        if served >= MUCH {
            self.much |= bit(place);
        } else {
            self.much &= !bit(place);
        }
        most <= FEW || !is_idle
    }
}
