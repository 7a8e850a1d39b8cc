//! A packet is taken into the hand.

ghost use Rattle.std.specs.Prelude.{◌≡◌, ◌≢◌, ℕ, ◌≤◌, ◌<◌, true, IsTrue, Some, None, IfOk, IfErr, IfSome, IfNone};
ghost use Rattle.chorus_serve.specs.Desks.{in_hand};
ghost use Rattle.chorus_serve.specs.Flows.{IsOther, Takes, WasEmpty, ComesNext};

use crate::hand::{Content, Held};
use chorus_ends::{Ends, Moves};
use chorus_entry::Packet;
use chorus_ui::Layout;
use std::alloc::AllocError;

/// Takes the first packet that the link from the place `from` gives, where it is another place.
fn take_from<G, E: Moves<G>>(
    ends: &mut E,
    ground: &G,
    number: u16,
    from: u16,
) -> Option<Held<E::Parcel>>
    requires { from ≢ number → (E.links ends.old).reaches from ≡ true }
    ensures took { Takes (in_hand E.packet result) (E.links ends.old) (E.links ends.new) }
    ensures from { IfSome result (λ held. (held.from ≡ from) × (from ≢ number)) }
    ensures empty { IfNone result (from ≢ number →
        WasEmpty from (E.links ends.old) (E.links ends.new)) }
{
    if from == number {
        return None;
    }
    match ends.pop(ground, from) {
        Some(parcel) => {
            let content = Content::Sealed(parcel);
            Some(Held { from, content })
        }
        None => None,
    }
}

/// Whether the place `from` is passed over: it is this one, or a look at the link from it finds that empty.
fn is_passed_over<E: Ends>(ends: &mut E, number: u16, from: u16) -> bool
    requires { from ≢ number → (E.links ends.old).reaches from ≡ true }
    ensures took { Takes None (E.links ends.old) (E.links ends.new) }
    ensures empty { IsTrue result → from ≢ number →
        WasEmpty from (E.links ends.old) (E.links ends.new) }
{
    from == number || ends.finds_empty(from)
}

/// Asks the links from the places `first` to `end` in order, but for this one, and takes the first packet that one gives.
fn take_between<G, E: Moves<G>>(
    ends: &mut E,
    ground: &G,
    number: u16,
    first: u16,
    end: u16,
) -> Option<Held<E::Parcel>>
    requires end { end < u16.MAX }
    requires reaches { (p : ℕ) → first ≤ p → p ≤ end → p ≢ number →
        (E.links ends.old).reaches p ≡ true }
    ensures took { Takes (in_hand E.packet result) (E.links ends.old) (E.links ends.new) }
    ensures from { IfSome result (λ held.
        (first ≤ held.from) × (held.from ≤ end) × (held.from ≢ number)) }
    ensures before { IfSome result (λ held. (p : ℕ) → first ≤ p → p < held.from → p ≢ number →
        WasEmpty p (E.links ends.old) (E.links ends.new)) }
    ensures empty { IfNone result ((p : ℕ) → first ≤ p → p ≤ end → p ≢ number →
        WasEmpty p (E.links ends.old) (E.links ends.new)) }
{
    let mut from = first;
    while from <= end {
        // Most links are empty, so each is looked at before room is made for what it may give.
        if !is_passed_over(ends, number, from) {
            if let Some(held) = take_from(ends, ground, number, from) {
                return Some(held);
            }
        }
        from += 1;
    }
    None
}

/// Asks the links from the other places of the layout, from the one behind the place `last` on and around, and takes the first
/// packet that one gives.
pub(crate) fn take_next<G, E: Moves<G>>(
    ends: &mut E,
    ground: &G,
    layout: Layout,
    number: u16,
    last: u16,
) -> Option<Held<E::Parcel>>
    requires { (p : ℕ) → IsOther layout number p → (E.links ends.old).reaches p ≡ true }
    ensures took { Takes (in_hand E.packet result) (E.links ends.old) (E.links ends.new) }
    ensures next { ComesNext layout number last (in_hand E.packet result)
        (E.links ends.old) (E.links ends.new) }
    ensures empty { IfNone result ((p : ℕ) → IsOther layout number p →
        WasEmpty p (E.links ends.old) (E.links ends.new)) }
{
    let places = layout.places();
    let last = last.min(places);
    if let Some(held) = take_between(ends, ground, number, last + 1, places) {
        return Some(held);
    }
    take_between(ends, ground, number, 1, last)
}

/// Opens what was taken into the hand. Want of memory, the one error, hands it back.
pub(crate) fn open<E: Ends>(
    held: Held<E::Parcel>,
) -> Result<(u16, Packet), (Held<E::Parcel>, AllocError)>
    ensures ok { IfOk result (λ opened. in_hand E.packet (Some held) ≡ Some opened) }
    ensures back { IfErr result (λ refused. refused.0 ≡ held) }
{
    let Held { from, content } = held;
    match content {
        Content::Sealed(parcel) => match E::unpack(parcel) {
            Ok(packet) => Ok((from, packet)),
            Err((parcel, none)) => {
                let content = Content::Sealed(parcel);
                Err((Held { from, content }, none))
            }
        },
        Content::Opened(packet) => Ok((from, packet)),
    }
}
