//! A place serves its links.

ghost use Rattle.std.specs.Prelude.{◌≡◌, ℕ, None, IfOk, OnOk, OnErr, IsErrOf};
ghost use Rattle.chorus_place.specs.declared.fault.PlaceFault.TheVariants as PlaceFault;
ghost use Rattle.chorus_serve.specs.Desks.{in_hand, seen};
ghost use Rattle.chorus_serve.specs.Flows.{IsOther, EmptiesOrFull};
ghost use Rattle.chorus_serve.specs.Serving.{Answers, Rests, IsWornBy, SendsOut, TakesUp, FindsNone, LaysDown};

use crate::desk::Desk;
use crate::pushing::push_all;
use crate::served::Pump;
use crate::taking::{open, take_next};
use crate::working::handle_packet;
use chorus_calls::Caller;
use chorus_ends::{Ends, Moves};
use chorus_entry::Packet;
use chorus_place::PlaceFault;
use std::alloc::AllocError;

/// Sends what waits for other places, as far as the links that the place serves have room.
fn send_out<G, E: Moves<G>>(desk: &mut Desk<E>, ground: &G) -> Result<(), AllocError>
    ensures sends { SendsOut (seen E.links E.packet desk.old) (seen E.links E.packet desk.new) }
    ensures emptied { OnOk result ((p : ℕ) → IsOther desk.old.place.layout desk.old.place.number p →
        EmptiesOrFull p desk.old.place.out.lists (E.links desk.old.ends) (E.links desk.new.ends)) }
{
    push_all(&mut desk.place, &mut desk.ends, ground)
}

/// Takes a packet from the links that the place serves into the hand, where nothing is in hand.
fn take_up<G, E: Moves<G>>(desk: &mut Desk<E>, ground: &G)
    ensures took { TakesUp (seen E.links E.packet desk.old) (seen E.links E.packet desk.new) }
    ensures none { desk.new.hand ≡ None → FindsNone (seen E.links E.packet desk.old)
        (seen E.links E.packet desk.new) }
{
    if desk.hand.is_some() {
        return;
    }
    let layout = desk.place.layout();
    let number = desk.place.number();
    desk.hand = take_next(&mut desk.ends, ground, layout, number, desk.last);
    if let Some(held) = &desk.hand {
        desk.last = held.from;
    }
}

/// A step of a serve: takes the packet in hand out of it, opened. Want of memory, the one error, leaves it in hand.
fn lay_down<E: Ends>(desk: &mut Desk<E>) -> Result<Option<(u16, Packet)>, AllocError>
    ensures same { LaysDown (seen E.links E.packet desk.old) (seen E.links E.packet desk.new) }
    ensures packet { IfOk result (λ packet. packet ≡ in_hand E.packet desk.old.hand) }
    ensures none { OnOk result (desk.new.hand ≡ None) }
    ensures refused { OnErr result (desk.new.hand ≡ desk.old.hand) }
{
    let Some(held) = desk.hand.take() else {
        return Ok(None);
    };
    match open::<E>(held) {
        Ok(opened) => Ok(Some(opened)),
        Err((held, none)) => {
            desk.hand = Some(held);
            Err(none)
        }
    }
}

/// Serves the links of a place, but for what it sends at the end.
fn take_turn<G, E: Moves<G>>(
    desk: &mut Desk<E>,
    ground: &G,
    caller: &mut Caller,
) -> Result<Pump, PlaceFault>
    ensures ok { IfOk result (λ pump. Answers pump (seen E.links E.packet desk.old)
        (seen E.links E.packet desk.new) caller.old caller.new) }
    ensures emptied { OnOk result ((p : ℕ) → IsOther desk.old.place.layout desk.old.place.number p →
        EmptiesOrFull p desk.old.place.out.lists (E.links desk.old.ends) (E.links desk.new.ends)) }
    ensures refused { OnErr result (Rests (seen E.links E.packet desk.old)
        (seen E.links E.packet desk.new) caller.old caller.new) }
    ensures worn { (clock : ℕ) → IsErrOf result (PlaceFault.Worn clock) →
        IsWornBy clock (seen E.links E.packet desk.old)
        (seen E.links E.packet desk.new) caller.old }
{
    send_out(desk, ground)?;
    take_up(desk, ground);
    let Some((from, packet)) = lay_down(desk)? else {
        let put = desk.place.puts();
        let worked = desk.worked;
        return Ok(Pump::Idle { put, worked });
    };
    handle_packet(desk, caller, from, packet)
}

/// Sends what waits once more, as the last step of [`serve`]. Where there is no memory for a packet on its way, that waits on.
fn send_rest<G, E: Moves<G>>(desk: &mut Desk<E>, ground: &G)
    ensures { SendsOut (seen E.links E.packet desk.old) (seen E.links E.packet desk.new) }
{
    let _ = send_out(desk, ground);
}

/// Serves the links of a place.
///
/// It first sends what waits for other places, as far as the links have room. Then it takes the packet in hand; where none is
/// in hand it asks the links from the other places, from the one behind the place served last on and around, and takes the first
/// packet that one gives. It works that packet off as the place machine does, where it is lawful; an unlawful one stays in hand. What
/// then waits it sends once more, as far as there is room and memory, so what the packet led to goes out in the same call.
///
/// Worn comes only where the greatest of the clocks of the place, the caller and the packet in hand is at least 2^62, and tells it;
/// Served comes only where that clock is lower. Want of memory, for a packet on its way, its opening or its turn, may come first.
/// Each error leaves the journal, the tables and the caller as they were; packets may have been sent, and one taken into the hand.
pub fn serve<G, E: Moves<G>>(
    desk: &mut Desk<E>,
    ground: &G,
    caller: &mut Caller,
) -> Result<Pump, PlaceFault>
    ensures ok { IfOk result (λ pump. Answers pump (seen E.links E.packet desk.old)
        (seen E.links E.packet desk.new) caller.old caller.new) }
    ensures emptied { OnOk result ((p : ℕ) → IsOther desk.old.place.layout desk.old.place.number p →
        EmptiesOrFull p desk.old.place.out.lists (E.links desk.old.ends) (E.links desk.new.ends)) }
    ensures refused { OnErr result (Rests (seen E.links E.packet desk.old)
        (seen E.links E.packet desk.new) caller.old caller.new) }
    ensures worn { (clock : ℕ) → IsErrOf result (PlaceFault.Worn clock) →
        IsWornBy clock (seen E.links E.packet desk.old)
        (seen E.links E.packet desk.new) caller.old }
{
    let pump = take_turn(desk, ground, caller)?;
    send_rest(desk, ground);
    Ok(pump)
}
