//! What waits to go to other places is sent.

ghost use Rattle.std.specs.Prelude.{◌≡◌, ◌≢◌, ℕ, true, IfOk, OnOk};
ghost use Rattle.chorus_serve.specs.Flows.{IsOther, Pushes, KeepsAtFull, HasFewer, StopsAtFull};

use chorus_ends::{Moves, PushFault};
use chorus_place::Place;
use std::alloc::AllocError;

/// Sends the first packet that waits for the place `to`. Gives whether it did: else none waits, or a link was full.
fn push_one<G, E: Moves<G>>(
    place: &mut Place,
    ends: &mut E,
    ground: &G,
    to: u16,
) -> Result<bool, AllocError>
    requires { (E.links ends.old).reaches to ≡ true }
    ensures pushes { Pushes place.old place.new (E.links ends.old) (E.links ends.new) }
    ensures fewer { IfOk result (λ more. HasFewer more to place.old.out.lists place.new.out.lists) }
    ensures stopped { IfOk result (λ more. StopsAtFull more to place.new.out.lists
        (E.links ends.old) (E.links ends.new)) }
{
    let Some(packet) = place.out(to) else {
        return Ok(false);
    };
    match ends.push(ground, to, packet) {
        Ok(()) => Ok(true),
        Err((packet, fault)) => {
            place.put_back(to, packet);
            match fault {
                PushFault::Full => Ok(false),
                PushFault::Memory(none) => Err(none),
            }
        }
    }
}

/// Sends what waits for the place `to`, as far as the link has room.
fn push_to<G, E: Moves<G>>(
    place: &mut Place,
    ends: &mut E,
    ground: &G,
    to: u16,
) -> Result<(), AllocError>
    requires { (E.links ends.old).reaches to ≡ true }
    ensures pushes { Pushes place.old place.new (E.links ends.old) (E.links ends.new) }
    ensures emptied { OnOk result (KeepsAtFull to place.new.out.lists
        (E.links ends.old) (E.links ends.new)) }
{
    while push_one(place, ends, ground, to)? {}
    Ok(())
}

/// Sends what waits for the place `to`, as far as the link has room, where it is another place.
fn push_other<G, E: Moves<G>>(
    place: &mut Place,
    ends: &mut E,
    ground: &G,
    to: u16,
) -> Result<(), AllocError>
    requires { to ≢ place.old.number → (E.links ends.old).reaches to ≡ true }
    ensures pushes { Pushes place.old place.new (E.links ends.old) (E.links ends.new) }
    ensures emptied { OnOk result (to ≢ place.old.number → KeepsAtFull to place.new.out.lists
        (E.links ends.old) (E.links ends.new)) }
{
    if to == place.number() || !place.tables().out().has_packet_for(to) {
        return Ok(());
    }
    push_to(place, ends, ground, to)
}

/// Sends what waits for each other place, as far as the links have room. Where nothing waits any more it asks no place's list.
pub(crate) fn push_all<G, E: Moves<G>>(
    place: &mut Place,
    ends: &mut E,
    ground: &G,
) -> Result<(), AllocError>
    requires { (p : ℕ) → IsOther place.old.layout place.old.number p →
        (E.links ends.old).reaches p ≡ true }
    ensures pushes { Pushes place.old place.new (E.links ends.old) (E.links ends.new) }
    ensures emptied { OnOk result ((p : ℕ) → IsOther place.old.layout place.old.number p →
        KeepsAtFull p place.new.out.lists (E.links ends.old) (E.links ends.new)) }
{
    let places = place.layout().places();
    let mut to = 1;
    while to <= places && place.waiting() > 0 {
        push_other(place, ends, ground, to)?;
        to += 1;
    }
    Ok(())
}
