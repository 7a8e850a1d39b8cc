//! The packets that wait at a place to go to others.

ghost use Rattle.std.specs.Prelude.{◌≡◌, true, ◌+◌, map, length, slice_get, None};
ghost use Rattle.std.specs.Option.{option_copied, option_map};
ghost use Rattle.place_outbox.specs.Waiting.{list_to};
ghost use Rattle.chorus_explore.specs.AlikeSites.Packets.{plain, are_plain};

use crate::alike_sites::names::{is_same_name, is_same_number, is_same_route};
use crate::alike_sites::records::{is_same_message, is_same_record};
use chorus_entry::{Cargo, Packet};
use chorus_ui::Ui;
use place_outbox::Outbox;

/// Whether the packets carry the same, from one place.
fn is_same_packet(one: &Packet, other: &Packet) -> bool
    ensures { result ≡ true → plain one.now ≡ plain other.now }
{
    one.from == other.from && is_same_cargo(&one.cargo, &other.cargo)
}

/// Whether the port and the route of two packets are the same.
fn is_same_way(port: Ui, other: Ui, route: Option<Ui>, by: Option<Ui>) -> bool
    ensures { result ≡ true → (port ≡ other) × (route ≡ by) }
{
    is_same_name(port, other) && is_same_route(route, by)
}

/// Whether the same is carried by two packets.
fn is_same_cargo(one: &Cargo, other: &Cargo) -> bool
    ensures { result ≡ true → one.now ≡ other.now }
{
    match one {
        Cargo::Try {
            message,
            port,
            route,
            only,
            hop,
        } => match other {
            Cargo::Try {
                message: m,
                port: p,
                route: r,
                only: o,
                hop: h,
            } => {
                is_same_message(message, m)
                    && is_same_way(*port, *p, *route, *r)
                    && is_same_number(*only, *o)
                    && hop == h
            },
            _ => false,
        },
        Cargo::Verdict {
            id,
            port,
            route,
            answer,
        } => match other {
            Cargo::Verdict {
                id: i,
                port: p,
                route: r,
                answer: a,
            } => id == i && is_same_way(*port, *p, *route, *r) && answer == a,
            _ => false,
        },
        Cargo::Transfer { port } => match other {
            Cargo::Transfer { port: p } => is_same_record(port, p),
            _ => false,
        },
        Cargo::Ask { message, dest } => match other {
            Cargo::Ask {
                message: m,
                dest: d,
            } => is_same_message(message, m) && dest == d,
            _ => false,
        },
        Cargo::Report { id, answer } => match other {
            Cargo::Report { id: i, answer: a } => id == i && answer == a,
            _ => false,
        },
    }
}

/// Whether the packets carry the same, or none is there.
fn is_same_at(one: Option<&Packet>, other: Option<&Packet>) -> bool
    ensures { result ≡ true →
        option_map plain (option_copied one.entry)
        ≡ option_map plain (option_copied other.entry) }
{
    match one {
        Some(packet) => match other {
            Some(same) => is_same_packet(packet, same),
            None => false,
        },
        None => other.is_none(),
    }
}

/// Whether no packet for the place stands there.
fn is_none_at(out: &Outbox, to: u16, at: u64) -> bool
    ensures { result ≡ true → slice_get (list_to to out.now.lists) at ≡ None }
{
    out.get(to, at).is_none()
}

/// Whether the packets for the place carry the same, in one order.
fn are_same_to(one: &Outbox, other: &Outbox, to: u16) -> bool
    ensures { result ≡ true →
        are_plain (list_to to one.now.lists) ≡ are_plain (list_to to other.now.lists) }
{
    for at in 0..u64::MAX {
        if is_none_at(one, to, at) {
            let none = is_none_at(other, to, at);
            return none;
        }
        if !is_same_at(one.get(to, at), other.get(to, at)) {
            return false;
        }
    }
    false
}

/// Whether the packets carry the same, in one order for each place from 0 to `places`.
pub(crate) fn are_same_packets(one: &Outbox, other: &Outbox, places: u16) -> bool
    requires one { length one.now.lists ≡ places + 1 }
    requires other { length other.now.lists ≡ places + 1 }
    ensures { result ≡ true → map are_plain one.now.lists ≡ map are_plain other.now.lists }
{
    for to in 0..places {
        if !are_same_to(one, other, to) {
            return false;
        }
    }
    let last = are_same_to(one, other, places);
    last
}
