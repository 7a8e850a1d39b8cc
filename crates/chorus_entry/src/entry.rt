//! The entries of a journal.

ghost use Rattle.std.specs.Prelude.{◌≡◌, IfOk};

use crate::act::Act;
use std::alloc::AllocError;

/// One event of a journal: an act, when it happened by the place's clock, where, and in whose call.
///
/// Clocks follow Lamport (1978): an entry that another one led to has the greater clock. The events of all places are
/// ordered by clock and then by place.
#[derive(Drop)]
pub struct Entry {
    /// The clock of the event, above that of every earlier entry of its place.
    pub clock: u64,
    /// The place whose journal has it, from 1.
    pub place: u16,
    /// The caller in whose call it was appended.
    pub seat: u32,
    /// What happened.
    pub act: Act,
}

impl Entry {
    /// The same entry again, in memory of its own.
    pub fn copied(&self) -> Result<Entry, AllocError>
        ensures { IfOk result (λ entry. entry ≡ self.now) }
    {
        let act = self.act.copied()?;
        Ok(Entry {
            clock: self.clock,
            place: self.place,
            seat: self.seat,
            act,
        })
    }
}
