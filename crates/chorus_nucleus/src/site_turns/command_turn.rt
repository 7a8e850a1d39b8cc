//! A caller's command, in one turn.
ghost use Rattle.std.specs.Prelude.{◌≡◌};
ghost use Rattle.chorus_serve.specs.Desks.{seen};
ghost use Rattle.chorus_nucleus.specs.SiteTurns.Jobs.{uncopied};

use crate::site_turns::draft::Draft;
use crate::site_turns::site::Site;
use chorus_calls::Caller;
use chorus_ends::Ends;
use chorus_place::{Place, PlaceFault, Reply};
use chorus_turn::Job;
use chorus_ui::CLOCK_LIMIT;
use law_bounds::are_within;
use std::alloc::{AllocError, Global};
use std::snapshot::Snapshot;

/// Performs the caller's command.
#[derive(Drop)]
pub struct Acts<'a> {
    /// The caller.
    pub caller: Caller,
    /// The command.
    pub draft: Draft<'a>,
    /// Where the memory for the command's copy comes from.
    pub alloc: Global,
    /// The place before the turn, for contracts alone, where the turn took one.
    pub took: Option<Snapshot<Place>>,
}

/// Why a command was not performed for whose copy there was no memory, where this is the greater of the place's and the caller's
/// clocks: a worn clock is told first.
fn uncopied(clock: u64, none: AllocError) -> PlaceFault
    ensures { result ≡ uncopied clock none }
{
    if CLOCK_LIMIT <= clock {
        PlaceFault::Worn { clock }
    } else {
        PlaceFault::Memory(none)
    }
}

impl<'a, E: Ends> Job<Site<E>> for Acts<'a> {
    ghost use Rattle.chorus_nucleus.specs.SiteTurns.Drafts.{meant};
    ghost use Rattle.chorus_nucleus.specs.SiteTurns.Turning.{NotesAct};
    ghost use Rattle.chorus_nucleus.specs.SiteTurns.Jobs.{AcceptsAct, Acted};

    type Out = Result<Reply, PlaceFault>;

    ghost accepts = { λ j m seat. AcceptsAct j.caller (meant j.draft) m seat };

    ghost ran = { λ j x seat k y out. Acted (meant j.draft) k.took out j.caller k.caller
        (seen E.links E.packet x.desk) };

    ghost notes = { λ j k news. NotesAct (meant j.draft) k.took j.caller k.caller news };

    /// Performs the command of the draft at the place, in the turn; where it is refused, the caller has seen the place.
    fn run(&mut self, state: &mut Site<E>, _seat: u32) -> Result<Reply, PlaceFault> {
        self.took = None;
        let command = match self.draft.command(self.alloc) {
            Ok(command) => command,
            Err(none) => {
                let clock = state.desk.place().clock();
                self.caller.see(clock);
                return Err(uncopied(self.caller.last(), none));
            }
        };
        are_within(&self.caller, &command);
        let before = Snapshot::of(state.desk.place());
        match state.desk.act(&mut self.caller, command) {
            Ok(reply) => {
                self.took = Some(before);
                Ok(reply)
            }
            Err(fault) => {
                self.caller.see(state.desk.place().clock());
                Err(fault)
            }
        }
    }
}
