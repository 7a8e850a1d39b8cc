//! Each kind of step on the places, once: one atomic step on a word, or a job on the state in a slot.
//!
//! The word of a place is 0 where it is free, and else the number of the pass that holds it and 1. Word 0 counts the
//! numbers drawn. The slot of place p is p - 1, and its word is word 8 * p, so that no two of these words are on one line
//! of the cache, for which threads at different places would wait. The words between are 0, and no step is on them.
ghost use Rattle.std.specs.Prelude.{◌≡◌, ◌≢◌, ◌+◌, ◌-◌, ◌<◌, ◌≤◌, true, [], ◌∷◌, length, Some, None};
ghost use Rattle.chorus_turn.specs.Lists.{StartsWithBoth};
ghost use Rattle.chorus_turn.specs.Journals.{IsJournal, MayRun, HasRun};
ghost use Rattle.chorus_turn.specs.Knowing.{limit};
ghost use Rattle.chorus_turn.specs.Rule.{word_of, IsAtRest, TakesOver, Misses, HasToGive, GivesBack, drawn_view, left_view, admitted_view, joined_view, settled_view, closing_view};

use crate::job::{Job, Kept};
use crate::rule::{Admit, Count, Draw, Give, Leave, Noting, Origin, Retire, Take};
use crate::turns::{Held, Turns};
use std::snapshot::Snapshot;

/// How many words stand from one place's word to the next one's: 64 bytes, a line of the cache.
pub(crate) const APART: usize = 8;

const _: () = prove!(APART * size_of::<u64>() == 64);

/// Where the word of a place stands in the table of turns.
fn word_of(place: u16) -> usize
    ensures { result ≡ word_of place }
{
    APART * place as usize
}

/// Runs the job of a turn on the state that stands in the slot.
fn run_in<S: Kept, J: Job<S>>(slot: &mut Option<S>, number: u32, job: &mut J) -> J::Out
    requires { (x : S) × (slot.old ≡ Some x)
        × MayRun S.entries S.fits (J.accepts job.old (S.mark x) number) x }
    ensures { (x : S) → slot.old ≡ Some x → (y : S) × (slot.new ≡ Some y)
        × HasRun S.entries S.fits S.mark number (J.ran job.old x number job.new y result)
        (J.notes job.old job.new) x y }
{
    match slot {
        Some(state) => job.run(state, number),
        None => unreachable!(),
    }
}

impl<S: Kept> Turns<S> {
    ghost use Rattle.chorus_turn.specs.Passes.{handed, table_of, IsPlaceOf};
    ghost use Rattle.chorus_turn.specs.Calls.{IsMarked};

    /// The step that takes a place, the one try of a call. It gives the word that it found.
    pub(crate) fn take<X: Origin<S>>(
        &self,
        seat: &mut Held<S, S::Remark>,
        place: u16,
        own: u64,
    ) -> u64
        requires origin { X.origin ≡ handed self.now }
        requires table { seat.old.table_id ≡ table_of self.now }
        requires place { IsPlaceOf self.now place }
        requires seat { (seat.old.me.1 ≡ []) × IsAtRest seat.old.me.0 }
        requires number { own ≡ seat.old.me.0.knows.seat + 1 }
        ensures table { seat.new.table_id ≡ seat.old.table_id }
        ensures free { result ≡ 0 → TakesOver (IsJournal S.entries S.fits)
            (IsMarked S.mark (handed self.now)) place seat.old.me.0 seat.new.me }
        ensures held { result ≢ 0 → Misses (IsJournal S.entries S.fits)
            (IsMarked S.mark (handed self.now)) place seat.old.me.0 (result - 1) seat.new.me }
    {
        self.table
            .shared
            .compare_exchange::<Take<X>>(seat, word_of(place), 0, own)
    }

    /// The step that runs the job, as the pass with this number, on the state in the slot of a place that the pass holds. The state
    /// stays where it is.
    pub(crate) fn run<J: Job<S>>(
        &self,
        seat: &mut Held<S, S::Remark>,
        slot: usize,
        number: u32,
        job: &mut J,
    ) -> J::Out
        requires table { seat.old.table_id ≡ table_of self.now }
        requires full { (x : S) × (seat.old.me.1 ≡ (slot, Some x) ∷ [])
            × MayRun S.entries S.fits (J.accepts job.old (S.mark x) number) x }
        ensures table { seat.new.table_id ≡ seat.old.table_id }
        ensures ran { (x : S) → seat.old.me.1 ≡ (slot, Some x) ∷ [] → (y : S)
            × (seat.new.me ≡ (seat.old.me.0, (slot, Some y) ∷ []))
            × HasRun S.entries S.fits S.mark number (J.ran job.old x number job.new y result)
            (J.notes job.old job.new) x y }
    {
        run_in(seat.slot_mut(&self.table.shared, slot), number, job)
    }

    /// The step that gives a place back: it is free again, and its state has the journal that was found and then entries of this
    /// pass. The job, and what it was before it ran, are for the proof alone, which picks what the job notes.
    pub(crate) fn give<X: Noting<S::Remark>, J>(
        &self,
        seat: &mut Held<S, S::Remark>,
        place: u16,
        _before: &Snapshot<J>,
        _job: &J,
    )
        requires table { seat.old.table_id ≡ table_of self.now }
        requires place { IsPlaceOf self.now place }
        requires seat { (seat.old.me.0.live ≡ true) × (seat.old.me.0.holding ≡ place) }
        requires state { HasToGive (IsJournal S.entries S.fits) X.notes
            (IsMarked S.mark (handed self.now)) place seat.old.me }
        ensures table { seat.new.table_id ≡ seat.old.table_id }
        ensures given { GivesBack (IsJournal S.entries S.fits) X.notes place
            seat.old.me seat.new.me }
    {
        self.table.shared.store::<Give<X>>(seat, word_of(place), 0)
    }

    /// The step that draws the keeper's next number, which goes to a new seat.
    pub(crate) fn draw(&self, seat: &mut Held<S, S::Remark>, made: u32) -> Held<S, S::Remark>
        requires table { seat.old.table_id ≡ table_of self.now }
        requires seat { (seat.old.me.1 ≡ []) × IsAtRest seat.old.me.0 }
        requires keeper { seat.old.me.0.knows.keeper ≡ true }
        requires made { (seat.old.me.0.knows.made ≡ made) × (made < limit) }
        ensures table { seat.new.table_id ≡ seat.old.table_id }
        ensures same { result.table_id ≡ seat.old.table_id }
        ensures keeper { seat.new.me ≡ (left_view (drawn_view seat.old.me.0), []) }
        ensures new { result.me ≡ (admitted_view (drawn_view seat.old.me.0), []) }
    {
        self.table.shared.swap::<Draw>(seat, 0, made as u64 + 1);
        self.table.shared.split_seat::<Admit>(seat)
    }

    /// The step of a retirement: the other seat ends in this one.
    pub(crate) fn merge(&self, seat: &mut Held<S, S::Remark>, other: Held<S, S::Remark>)
        requires table { (seat.old.table_id ≡ table_of self.now)
            × (other.table_id ≡ table_of self.now) }
        requires seat { (seat.old.me.1 ≡ []) × IsAtRest seat.old.me.0 }
        requires other { (other.me.1 ≡ []) × IsAtRest other.me.0 }
        ensures table { seat.new.table_id ≡ seat.old.table_id }
        ensures joined { seat.new.me ≡ (settled_view (joined_view seat.old.me.0 other.me.0), []) }
        ensures few { length seat.new.me.0.knows.notes + 1 ≤ limit }
        ensures sees { StartsWithBoth seat.new.me.0.knows.seen seat.old.me.0.knows.seen
            other.me.0.knows.seen }
    {
        self.table.shared.join_seat::<Retire>(seat, other);
        self.table.shared.load::<Count>(seat, 0);
    }

    /// The step that gives a seat for what is left of the pass that closes the places.
    pub(crate) fn leave(&self, seat: &mut Held<S, S::Remark>) -> Held<S, S::Remark>
        requires { seat.old.table_id ≡ table_of self.now }
        ensures { (seat.new.table_id ≡ seat.old.table_id) × (seat.new.id ≡ seat.old.id)
            × (seat.new.me ≡ seat.old.me) × (result.table_id ≡ seat.old.table_id)
            × (result.me ≡ (closing_view seat.old.me.0, [])) }
    {
        self.table.shared.split_seat::<Leave>(seat)
    }
}
