//! A place serves its links, in one turn.
ghost use Rattle.std.specs.Prelude.{◌≡◌};
ghost use Rattle.chorus_serve.specs.Desks.{seen};
ghost use Rattle.chorus_nucleus.specs.SiteTurns.Jobs.{seen_unless, worked_from};

use crate::site_turns::site::Site;
use chorus_calls::Caller;
use chorus_ends::Moves;
use chorus_place::{Place, PlaceFault};
use chorus_serve::{Pump, serve};
use chorus_turn::Job;
use std::snapshot::Snapshot;

/// Serves the links of the place, for a caller.
#[derive(Drop)]
pub struct Serves<'a, R> {
    /// The leave to wait.
    pub rt: &'a R,
    /// The caller.
    pub caller: Caller,
    /// From where the packet came that was worked off, if one was.
    pub took: Option<u16>,
    /// The place before the turn, for contracts alone; None before the job ran.
    pub before: Option<Snapshot<Place>>,
}

/// From where the packet came that was worked off in a turn that serves: one was, where none is in hand then.
fn worked_from(done: &Result<Pump, PlaceFault>, holding: bool) -> Option<u16>
    ensures { result ≡ worked_from done.now holding }
{
    match done {
        Ok(Pump::Served { from }) if !holding => Some(*from),
        _ => None,
    }
}

/// The caller has seen an entry with this clock, unless a packet was worked off: then its own is above that already.
fn see_unless(took: Option<u16>, caller: &mut Caller, clock: u64)
    ensures { caller.new ≡ seen_unless took clock caller.old }
{
    match took {
        None => caller.see(clock),
        Some(_) => {}
    }
}

impl<'a, R, E: Moves<R>> Job<Site<E>> for Serves<'a, R> {
    ghost use Rattle.chorus_nucleus.specs.SiteTurns.Turning.{NotesServe};
    ghost use Rattle.chorus_nucleus.specs.SiteTurns.Jobs.{ServedAt};

    type Out = Result<Pump, PlaceFault>;

    ghost accepts = { λ j m seat. j.caller.seat ≡ seat };

    ghost ran = { λ j x seat k y out. ServedAt k.took k.before out j.caller k.caller
        (seen E.links E.packet x.desk) (seen E.links E.packet y.desk) };

    ghost notes = { λ j k news. NotesServe k.took k.before j.caller k.caller news };

    /// Serves the links of the place, in the turn.
    fn run(&mut self, state: &mut Site<E>, _seat: u32) -> Result<Pump, PlaceFault> {
        let place = state.desk.place();
        let _number = place.number();
        self.before = Some(Snapshot::of(place));
        let done = serve(&mut state.desk, self.rt, &mut self.caller);
        self.took = worked_from(&done, state.desk.is_holding());
        let clock = state.desk.place().clock();
        see_unless(self.took, &mut self.caller, clock);
        done
    }
}
