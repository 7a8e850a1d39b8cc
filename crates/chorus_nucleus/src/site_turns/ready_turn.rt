//! A take of a port, in one turn, where a message waits in it.
ghost use Rattle.std.specs.Prelude.{◌≡◌};
ghost use Rattle.chorus_entry.specs.declared.command.Command.TheVariants as Command;
ghost use Rattle.chorus_ports.specs.Table.{find};
ghost use Rattle.chorus_ports.specs.Taking.{taken};
ghost use Rattle.law_awaits.specs.Awaits.{is_taken};
ghost use Rattle.law_machine.specs.Own.{take_act};
ghost use Rattle.chorus_serve.specs.Desks.{seen};
ghost use Rattle.chorus_nucleus.specs.SiteTurns.Drafts.{meant};
ghost use Rattle.chorus_nucleus.specs.SiteTurns.Readiness.{message_in};

use crate::site_turns::command_turn::Acts;
use crate::site_turns::site::Site;
use crate::taken_message::{ByTake, TakenMessage};
use chorus_ends::Ends;
use chorus_place::{PlaceFault, Reply};
use chorus_ports::Ports;
use chorus_turn::Job;
use chorus_ui::Ui;

/// Performs a take of the port where it is answered by a message, else looks at the place.
#[derive(Drop)]
pub struct TakesReady<'a> {
    /// The take.
    pub acts: Acts<'a>,
    /// The port.
    pub port: Ui,
}

/// Whether a take by the actor would be answered by a message, where these ports are held.
fn gives(ports: &Ports, port: Ui, actor: Ui) -> bool
    ensures { result ≡ is_taken (take_act port (taken actor (find port ports.now.records))) }
{
    match ports.get(port) {
        Some(record) => record.actor == actor && !record.pending.is_empty(),
        None => false,
    }
}

/// The message that a reply hands out.
fn message_in(reply: Reply) -> Option<TakenMessage>
    ensures { result ≡ message_in reply }
{
    match reply {
        Reply::Taken {
            pos,
            message,
            settled,
        } => Some(TakenMessage {
            position: pos,
            message,
            settled,
            by_take: ByTake,
        }),
        _ => None,
    }
}

impl<'a, E: Ends> Job<Site<E>> for TakesReady<'a> {
    ghost use Rattle.chorus_nucleus.specs.SiteTurns.Turning.{NotesAct};
    ghost use Rattle.chorus_nucleus.specs.SiteTurns.Jobs.{AcceptsAct};
    ghost use Rattle.chorus_nucleus.specs.SiteTurns.Readiness.{TookOrLooked};

    type Out = Result<Option<TakenMessage>, PlaceFault>;

    ghost accepts = { λ j m seat. (meant j.acts.draft ≡ Command.Take j.port)
        × AcceptsAct j.acts.caller (meant j.acts.draft) m seat };

    ghost ran = { λ j x seat k y out. TookOrLooked (meant j.acts.draft) k.acts.took out
        j.acts.caller k.acts.caller (seen E.links E.packet x.desk) };

    ghost notes = { λ j k news. NotesAct (meant j.acts.draft) k.acts.took j.acts.caller
        k.acts.caller news };

    /// Performs the take in the turn, where the caller's actor holds the port here and a message waits in it; else the caller has seen
    /// the place.
    fn run(&mut self, state: &mut Site<E>, seat: u32) -> Result<Option<TakenMessage>, PlaceFault> {
        let place = state.desk.place();
        let clock = place.clock();
        let actor = self.acts.caller.actor();
        if !gives(place.tables().ports(), self.port, actor) {
            self.acts.took = None;
            self.acts.caller.see(clock);
            return Ok(None);
        }
        let reply = self.acts.run(state, seat)?;
        Ok(message_in(reply))
    }
}
