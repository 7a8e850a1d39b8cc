//! What a packet takes, made ready before the first change.

ghost use Rattle.std.specs.Prelude.{◌≡◌, ◌<◌, ◌≤◌, true, IfOk, OnOk, IsSome};
ghost use Rattle.chorus_ui.specs.declared.kind.Kind.TheVariants as Kind;
ghost use Rattle.chorus_world.specs.Places.{taught};
ghost use Rattle.law_machine.specs.Lawful.{is_lawful};
ghost use Rattle.chorus_calls.specs.Callers.{Seated};
ghost use Rattle.chorus_place.specs.PlaceTables.Commands.{StaysOut};
ghost use Rattle.chorus_place.specs.PlaceTables.Room.{KeepsRoom};
ghost use Rattle.chorus_place.specs.PlaceTables.Tables.{state, turn};
ghost use Rattle.chorus_place.specs.PlaceTables.Steps.{MayTeach};
ghost use Rattle.chorus_place.specs.PlaceTables.Going.{first_for};
ghost use Rattle.chorus_place.specs.PlaceTurns.OfPackets.Readiness.{settled_by, IsVerdictReady, IsReady};

use crate::tables::Tables;
use crate::turns::with_groups::{Chosen, ready_ask};
use chorus_entry::{Answer, Cargo, Packet};
use place_unsettled::{Key, Wait};
use std::alloc::AllocError;

/// What is ready for a packet, beside the room.
#[derive(Drop)]
pub(crate) enum Ready {
    /// The room is all that it takes.
    Room,
    /// Of a Verdict: the message that is tried at another place then, None where none is.
    Verdict { again: Option<Wait> },
    /// Of an Ask: the choice of members.
    Ask(Chosen),
}

/// How many messages the answer of a verdict settles: one, or none where the message is tried again.
fn settled_by(answer: Answer) -> usize
    ensures value { result ≡ settled_by answer }
    ensures within { result ≤ 1 }
{
    match answer {
        Answer::Stale { .. } => 0,
        _ => 1,
    }
}

/// Makes all ready for a lawful packet: the room for what it appends, changes and puts, and what it chooses. All else stays,
/// whatever the answer.
pub(crate) fn make_ready(tables: &mut Tables, packet: &Packet) -> Result<Ready, AllocError>
    requires lawful { is_lawful packet.now.from packet.now (state tables.old) ≡ true }
    ensures turn { (c : Seated) → turn tables.new c ≡ turn tables.old c }
    ensures ready { IfOk result (λ ready.
        IsReady packet.now.from packet.now.cargo ready tables.new) }
    ensures out { StaysOut tables.old.out tables.new.out }
    ensures kept { KeepsRoom tables.old tables.new }
{
    match &packet.cargo {
        Cargo::Try { .. } => {
            tables.make_room(1, 1)?;
            Ok(Ready::Room)
        }
        Cargo::Verdict {
            port,
            route,
            answer,
            ..
        } => {
            let key = Key {
                port: *port,
                route: *route,
            };
            let again = ready_verdict(tables, &key, *answer)?;
            Ok(Ready::Verdict { again })
        }
        Cargo::Transfer { .. } => {
            make_arrival_room(tables)?;
            Ok(Ready::Room)
        }
        Cargo::Ask { message, dest } => {
            let chosen = ready_ask(tables, packet.from, message, dest)?;
            Ok(Ready::Ask(chosen))
        }
        Cargo::Report { .. } => {
            tables.make_room(1, 0)?;
            Ok(Ready::Room)
        }
    }
}

/// Makes all ready for the verdict of the first message of a port and route, and gives the message that is tried at another
/// place then. All else stays, whatever the answer.
fn ready_verdict(tables: &mut Tables, key: &Key, answer: Answer) -> Result<Option<Wait>, AllocError>
    requires kind { key.now.port.kind ≡ Kind.Port }
    requires teaches { MayTeach tables.old.layout key.now.port (taught answer) }
    requires first { IsSome (first_for key.now tables.old) }
    ensures turn { (c : Seated) → turn tables.new c ≡ turn tables.old c }
    ensures ready { IfOk result (λ again. IsVerdictReady key.now answer again tables.new) }
    ensures out { StaysOut tables.old.out tables.new.out }
    ensures kept { KeepsRoom tables.old tables.new }
{
    let waits = tables.waiting_for(key);
    let reports = tables.most_reports(key);
    tables.make_room(waits + 1, reports + 1)?;
    tables.copy_leaving(key, settled_by(answer), None, answer)
}

/// Takes room for a port that a packet brings: for an entry, and for the record of one port more. All else stays, whatever the
/// answer.
fn make_arrival_room(tables: &mut Tables) -> Result<(), AllocError>
    ensures turn { (c : Seated) → turn tables.new c ≡ turn tables.old c }
    ensures out { StaysOut tables.old.out tables.new.out }
    ensures spare { OnOk result (1 ≤ tables.new.journal.spare) }
    ensures slot { OnOk result (0 < tables.new.ports.spare) }
    ensures kept { KeepsRoom tables.old tables.new }
{
    tables.make_room(1, 0)?;
    tables.make_port_room()
}
