//! The packet in hand is worked off.

ghost use Rattle.std.specs.Prelude.{◌≡◌, ℕ, Some, None, IsErrOf, IfOk, OnErr};
ghost use Rattle.chorus_serve.specs.Desks.{seen};
ghost use Rattle.chorus_serve.specs.Working.{HandlesPacket, Holds, IsWornAt};
ghost use Rattle.chorus_place.specs.declared.fault.PlaceFault.TheVariants as PlaceFault;
ghost use Rattle.chorus_serve.specs.declared.hand.Content.TheVariants as Content;

use crate::desk::Desk;
use crate::hand::{Content, Held};
use crate::served::Pump;
use chorus_calls::Caller;
use chorus_ends::Ends;
use chorus_entry::Packet;
use chorus_place::PlaceFault;
use chorus_ui::CLOCK_LIMIT;

/// What is in hand with this packet, opened, where it was not worked off.
fn opened<P>(from: u16, packet: Packet) -> Held<P>
    ensures from { result.from ≡ from }
    ensures content { result.content ≡ Content.Opened packet }
{
    let content = Content::Opened(packet);
    Held { from, content }
}

/// Works off a packet from the place `from`, where it is lawful. Else it stays in hand, as at each refusal.
pub(crate) fn handle_packet<E: Ends>(
    desk: &mut Desk<E>,
    caller: &mut Caller,
    from: u16,
    packet: Packet,
) -> Result<Pump, PlaceFault>
    requires { desk.old.hand ≡ None }
    ensures ok { IfOk result (λ pump. HandlesPacket pump from packet
        (seen E.links E.packet desk.old) (seen E.links E.packet desk.new) caller.old caller.new) }
    ensures refused { OnErr result (Holds from packet (seen E.links E.packet desk.old)
        (seen E.links E.packet desk.new) caller.old caller.new) }
    ensures worn { (clock : ℕ) → IsErrOf result (PlaceFault.Worn clock) →
        IsWornAt clock packet (seen E.links E.packet desk.old) caller.old }
{
    let clock = desk.place.clock().max(caller.last().max(packet.clock));
    if clock >= CLOCK_LIMIT {
        desk.hand = Some(opened(from, packet));
        return Err(PlaceFault::Worn { clock });
    }
    if !desk.place.lawful(from, &packet) {
        desk.hand = Some(opened(from, packet));
        return Ok(Pump::Served { from });
    }
    match desk.place.work(caller, packet) {
        Ok(()) => {
            desk.worked = desk.worked.saturating_add(1);
            Ok(Pump::Served { from })
        }
        Err((packet, fault)) => {
            desk.hand = Some(opened(from, packet));
            Err(fault)
        }
    }
}
