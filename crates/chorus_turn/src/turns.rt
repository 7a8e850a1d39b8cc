//! The places, and a turn at one of them.
ghost use Rattle.std.specs.Prelude.{◌≡◌, ◌+◌, [], length, IfOk, IfErr};
ghost use Rattle.chorus_turn.specs.Rule.{word_of};

use crate::job::{Job, Kept};
use crate::pass::Pass;
use crate::room::Room;
use crate::rule::InTurn;
use crate::view::View;
use atomic_table::{Badge, Seat, Table};
use std::alloc::Global;
use std::marker::Brand;
use std::mem;
use std::snapshot::Snapshot;
use thiserror::Error;

pub(crate) type Held<S, R> = Seat<Option<S>, View<R>>;

/// A table of places, numbered from 1, each with a state. Threads may share it where the states may be sent.
#[derive(Drop)]
pub struct Turns<S: Kept> {
    pub(crate) table: Table<Option<S>, View<S::Remark>, Snapshot<Vec<S>>, InTurn, Global>,
    pub(crate) room: Room<S>,
    ghost sized: { table.shared.table_id.words ≡ word_of table.shared.table_id.slots + 1 },
    ghost roomy: { room.table.shared.key ≡ table.shared.table_id.slots },
    ghost handed: { length table.shared.key.value.items ≡ table.shared.table_id.slots },
}

/// Another pass had the place: the number of the one that held it at the call's one try.
#[derive(Clone, Copy, Debug, Error, PartialEq, Eq)]
#[error("the pass with number {by} has the place")]
pub struct Busy {
    /// The number of the other pass, below 1,048,576.
    pub by: u32,
}

impl<S: Kept> Turns<S> {
    ghost use Rattle.chorus_turn.specs.Rule.{IsAtRest};
    ghost use Rattle.chorus_turn.specs.Knowing.{IsSamePass};
    ghost use Rattle.chorus_turn.specs.Passes.{known, handed, places, table_of, IsPassOf, IsPlaceOf};
    ghost use Rattle.chorus_turn.specs.Calls.{AcceptsAt, Worked, FoundBusy};

    /// The number of places.
    pub fn places(&self) -> usize
        ensures { result ≡ places self.now }
    {
        self.table.slot_count()
    }

    /// One turn at a place of the table, on the seat of the pass alone.
    fn work<J: Job<S>>(
        &self,
        seat: &mut Held<S, S::Remark>,
        place: u16,
        number: u32,
        job: &mut J,
    ) -> Result<J::Out, Busy>
        requires table { seat.old.table_id ≡ table_of self.now }
        requires place { IsPlaceOf self.now place }
        requires seat { (seat.old.me.1 ≡ []) × IsAtRest seat.old.me.0
            × (seat.old.me.0.knows.seat ≡ number) }
        requires job { AcceptsAt S.mark (handed self.now) place (λ m. J.accepts job.old m number) }
        ensures table { seat.new.table_id ≡ seat.old.table_id }
        ensures seat { (seat.new.me.1 ≡ []) × IsAtRest seat.new.me.0 }
        ensures ok { IfOk result (λ out. Worked S.entries S.fits S.mark (handed self.now)
            (λ x y. J.ran job.old x number job.new y out) (J.notes job.old job.new)
            place seat.old.me.0.knows seat.new.me.0.knows) }
        ensures busy { IfErr result (λ b.
            FoundBusy place b.by seat.old.me.0.knows seat.new.me.0.knows × (job.new ≡ job.old)) }
    {
        let found = self.take::<Brand>(seat, place, number as u64 + 1);
        if found != 0 {
            return Err(Busy {
                by: (found - 1) as u32,
            });
        }
        let before = Snapshot::of(job);
        let out = self.run(seat, place as usize - 1, number, job);
        self.give::<Brand, J>(seat, place, &before, job);
        Ok(out)
    }

    /// Takes a turn: runs the job once on the state of the place, while no other pass has it.
    ///
    /// It tries the place once and waits for nobody. `Busy` comes exactly where that try found another pass there;
    /// then nothing has changed, but that the caller knows of the refusal. A keeper into which all other passes were
    /// retired is never refused. The rule is this project's own.
    pub fn with<J: Job<S>>(
        &self,
        pass: &mut Pass<S::Remark>,
        place: u16,
        job: &mut J,
    ) -> Result<J::Out, Busy>
        requires pass { IsPassOf self.now pass.old }
        requires place { IsPlaceOf self.now place }
        requires job { AcceptsAt S.mark (handed self.now) place
            (λ m. J.accepts job.old m (known pass.old).seat) }
        ensures pass { IsPassOf self.now pass.new }
        ensures standing { IsSamePass (known pass.old) (known pass.new) }
        ensures ok { IfOk result (λ out. Worked S.entries S.fits S.mark (handed self.now)
            (λ x y. J.ran job.old x (known pass.old).seat job.new y out) (J.notes job.old job.new)
            place (known pass.old) (known pass.new)) }
        ensures busy { IfErr result (λ b.
            FoundBusy place b.by (known pass.old) (known pass.new) × (job.new ≡ job.old)) }
    {
        let mut seat = mem::replace(&mut pass.badge, Badge::blank()).into_seat::<Option<S>>();
        let worked = self.work(&mut seat, place, pass.seat, job);
        pass.badge = seat.into_badge();
        worked
    }
}
