//! What a state and a job owe to the turns that are taken on them.
ghost use Rattle.std.specs.Prelude.{◌≡◌, ℕ, List};
ghost use Rattle.chorus_entry.specs.declared.entry.Entry.{Entry};
ghost use Rattle.chorus_turn.specs.declared.knowledge.Remarked.{Remarked};
ghost use Rattle.chorus_turn.specs.Journals.{IsJournal, GrowsBy, GoesOn};

/// A state with a journal. Entries with fitting remarks, one for each, are a journal of the state.
pub trait Kept {
    /// What no job changes, for contracts alone.
    type Mark;

    /// What contracts note beside an entry. No remark is stored.
    type Remark;

    // The list of entries.
    ghost entries: { Self → List Entry };

    ghost mark: { Self → Self.Mark };

    // The remarks in this list fit the list of entries.
    ghost fits: { Self → List (Remarked Self.Remark) → Type 0 };
}

/// What a pass does with the state of a place in one turn.
pub trait Job<S: Kept> {
    type Out;

    // The job may run on a state with this mark, as the pass with this number.
    ghost accepts: { Self → S.Mark → ℕ → Type 0 };

    // What one run did: of the job, the state and the seat before, and of the job, the state and the answer after.
    ghost ran: { Self → S → ℕ → Self → S → Self.Out → Type 0 };

    // What one run notes beside its new entries: of the job before and after.
    ghost notes: { Self → Self → List (Remarked S.Remark) → Type 0 };

    /// Runs the job once in a turn, as the pass with this number. The state has a journal, and what is added to it are entries of
    /// this seat.
    fn run(&mut self, state: &mut S, seat: u32) -> Self::Out
        requires accepts { accepts self.old (S.mark state.old) seat }
        requires fits { (log : List (Remarked S.Remark)) ×
            IsJournal S.entries S.fits state.old log }
        ensures done { ran self.old state.old seat self.new state.new result }
        ensures mark { S.mark state.new ≡ S.mark state.old }
        ensures entries { GrowsBy seat (S.entries state.old) (S.entries state.new) }
        ensures remarks { GoesOn S.entries S.fits (notes self.old self.new) state.old state.new };
}
