//! Packets that are worked off, each in a whole turn, once all is ready.

ghost use Rattle.std.specs.Prelude.{◌≡◌, ◌≤◌, ◌<◌, true};
ghost use Rattle.chorus_ui.specs.declared.limits.TheConstants.{CLOCK_LIMIT};
ghost use Rattle.law_machine.specs.Lawful.{is_lawful};
ghost use Rattle.law_machine.specs.PlaceMachine.{work};
ghost use Rattle.law_machine.specs.PlaceState.{greatest_clock};
ghost use Rattle.law_machine.specs.Working.{hears_verdict, opens};
ghost use Rattle.chorus_place.specs.PlaceTables.Room.{KeepsRoom};
ghost use Rattle.chorus_place.specs.PlaceTables.Tables.{state, turn};
ghost use Rattle.chorus_place.specs.PlaceTurns.OfPackets.Opening.{MayOpen};
ghost use Rattle.chorus_place.specs.PlaceTurns.OfPackets.Readiness.{IsReady, IsVerdictReady};
ghost use Rattle.chorus_place.specs.PlaceTables.Allowed.{MayTell};

use crate::tables::Tables;
use crate::turns::of_packets::readiness::Ready;
use crate::turns::with_groups::open_ask;
use chorus_calls::Caller;
use chorus_entry::{Answer, Cargo, MsgId, Packet};
use place_unsettled::{Key, Wait};

/// Works off a lawful packet for which all is ready, whose clock the caller's last is not below.
pub(crate) fn open(tables: &mut Tables, packet: Packet, ready: Ready, caller: &mut Caller)
    requires ready { IsReady packet.from packet.cargo ready tables.old }
    requires lawful { is_lawful packet.from packet (state tables.old) ≡ true }
    requires heard { packet.clock ≤ greatest_clock (turn tables.old caller.old) }
    requires clock { greatest_clock (turn tables.old caller.old) < CLOCK_LIMIT }
    ensures turn { turn tables.new caller.new ≡ work packet (turn tables.old caller.old) }
    ensures out { tables.new.out ≡ tables.old.out }
    ensures kept { KeepsRoom tables.old tables.new }
{
    let Packet { from, cargo, .. } = packet;
    open_cargo(tables, from, cargo, ready, caller);
}

/// Works off what a packet of the place `from` carries.
fn open_cargo(tables: &mut Tables, from: u16, cargo: Cargo, ready: Ready, caller: &mut Caller)
    requires may { MayOpen from cargo (turn tables.old caller.old) }
    requires ready { IsReady from cargo ready tables.old }
    requires clock { greatest_clock (turn tables.old caller.old) < CLOCK_LIMIT }
    ensures turn { turn tables.new caller.new ≡ opens from cargo (turn tables.old caller.old) }
    ensures out { tables.new.out ≡ tables.old.out }
    ensures kept { KeepsRoom tables.old tables.new }
{
    match cargo {
        Cargo::Try {
            message,
            port,
            route,
            only,
            hop,
        } => tables.answer_try(from, message, &Key { port, route }, only, hop, caller),
        Cargo::Verdict {
            id,
            port,
            route,
            answer,
        } => {
            let Ready::Verdict { again } = ready else {
                unreachable!()
            };
            open_verdict(tables, id, &Key { port, route }, answer, again, caller);
        }
        Cargo::Transfer { port } => tables.arrive(port, caller),
        Cargo::Ask { message, dest } => {
            let Ready::Ask(chosen) = ready else {
                unreachable!()
            };
            open_ask(tables, from, &message, &dest, chosen, caller);
        }
        Cargo::Report { id, answer } => tables.hear(id, answer, caller),
    }
}

/// Works off a verdict: tells the first message of its port and route what was decided, and lets what waits there go.
fn open_verdict(
    tables: &mut Tables,
    id: MsgId,
    key: &Key,
    answer: Answer,
    again: Option<Wait>,
    caller: &mut Caller,
)
    requires may { MayTell key.now answer (turn tables.old caller.old) }
    requires ready { IsVerdictReady key.now answer again tables.old }
    requires clock { greatest_clock (turn tables.old caller.old) < CLOCK_LIMIT }
    ensures turn { turn tables.new caller.new ≡
        hears_verdict id key.now answer (turn tables.old caller.old) }
    ensures out { tables.new.out ≡ tables.old.out }
    ensures kept { KeepsRoom tables.old tables.new }
{
    tables.tell(key, id, answer, caller);
    tables.go(key, again, caller);
}
