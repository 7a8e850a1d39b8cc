//! Taking places apart.

ghost use Rattle.std.specs.Prelude.{◌≡◌, ◌+◌, ◌≤◌, ◌++◌, [], length, vec_len, vec_capacity, IfSome};
ghost use Rattle.place_outbox.specs.Waiting.{count};
ghost use Rattle.law_network.specs.Left.{placed_at};
ghost use Rattle.chorus_net.specs.Closing.{flat, total_waiting, total_held, HasPartsOf};

use crate::closed::{Closed, Origin};
use crate::mark::Mark;
use chorus_entry::{Entry, Packet};
use chorus_place::Place;
use chorus_ports::Ports;
use law_network::Placed;
use place_outbox::Outbox;

/// How many packets wait at the places of sites that are closed. None where they are too many to count.
pub(crate) fn count_packets(places: &[Place]) -> Option<usize>
    ensures { IfSome result (λ number. number ≡ total_waiting places.now) }
{
    let mut number: usize = 0;
    for place in places {
        number = number.checked_add(place.waiting() as usize)?;
    }
    Some(number)
}

/// How many ports the places of sites that are closed hold. None where they are too many to count.
pub(crate) fn count_ports(places: &[Place]) -> Option<usize>
    ensures { IfSome result (λ number. number ≡ total_held places.now) }
{
    let mut number: usize = 0;
    for place in places {
        number = number.checked_add(usize::from(place.held()))?;
    }
    Some(number)
}

/// Puts the packets of a closed place's outbox last in what is left of the sites, in the room that is there.
pub(crate) fn take_packets(rest: &mut Vec<Packet>, out: Outbox)
    requires { vec_len rest.old + count out.lists ≤ vec_capacity rest.old }
    ensures items { rest.new.items ≡ rest.old.items ++ flat out.lists }
    ensures capacity { vec_capacity rest.new ≡ vec_capacity rest.old }
{
    let mut out = out;
    while let Some(packet) = out.pop() {
        rest.push_reserved(packet);
    }
}

/// Puts the ports of a closed place last in what is left of the sites, in the room that is there.
pub(crate) fn take_ports(placed: &mut Vec<Placed>, place: u16, ports: Ports)
    requires { vec_len placed.old + length ports.records ≤ vec_capacity placed.old }
    ensures items { placed.new.items ≡ placed.old.items ++ placed_at place ports.records }
    ensures capacity { vec_capacity placed.new ≡ vec_capacity placed.old }
{
    let mut ports = ports;
    while let Some(port) = ports.pop() {
        placed.push_reserved(Placed { place, port });
    }
}

/// What is left of the places of sites with this mark that are closed, by place, in the room that is there.
pub(crate) fn take_apart(
    mark: Mark,
    places: Vec<Place>,
    journals: Vec<Vec<Entry>>,
    rest: Vec<Packet>,
    ports: Vec<Placed>,
) -> Closed
    requires no_journals { journals.items ≡ [] }
    requires no_packets { rest.items ≡ [] }
    requires no_ports { ports.items ≡ [] }
    requires room_for_journals { length places.items ≤ vec_capacity journals }
    requires room_for_packets { total_waiting places.items ≤ vec_capacity rest }
    requires room_for_ports { total_held places.items ≤ vec_capacity ports }
    ensures { HasPartsOf mark places.items result }
{
    let mut places = places;
    let mut journals = journals;
    let mut rest = rest;
    let mut ports = ports;
    places.reverse();
    while let Some(place) = places.pop() {
        let number = place.number();
        let (journal, out, held) = place.finish();
        journals.push_reserved(journal);
        take_packets(&mut rest, out);
        take_ports(&mut ports, number, held);
    }
    Closed {
        journals,
        rest,
        ports,
        origin: Origin::Sites(mark),
    }
}
