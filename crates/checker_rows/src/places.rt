//! What is known of each place: a row of the table of places.

ghost use Rattle.std.specs.Prelude.{◌≡◌, ◌<◌, ◌^◌};
ghost use Rattle.std.specs.HashMap.{spare};
ghost use Rattle.chorus_world.specs.Places.{ports_after};
ghost use Rattle.chorus_world.specs.Groups.{groups_after};
ghost use Rattle.checker_rows.specs.Places.{place_in, place_here, taking, HasFewMade, PlacesAfter};

use crate::keep::put;
use chorus_entry::{Act, Entry, MsgId};
use std::collections::HashMap;

/// Who took which message.
#[derive(Clone, Copy)]
pub struct Taking {
    /// The caller that took it.
    pub taker: u32,
    /// The message.
    pub id: MsgId,
}

/// What the entries of a place say of it.
#[derive(Clone, Copy)]
pub struct PlaceRow {
    /// The clock of its last entry, or 0.
    pub clock: u64,
    /// How many ports were made there.
    pub ports: u64,
    /// How many groups were made there.
    pub groups: u64,
    /// What its last entry took.
    pub taken: Option<Taking>,
}

/// The row of a place.
pub fn place_in(places: &HashMap<u16, PlaceRow>, place: u16) -> PlaceRow
    ensures { result ≡ place_in places.now place }
{
    match places.get(&place) {
        Some(row) => *row,
        None => PlaceRow {
            clock: 0,
            ports: 0,
            groups: 0,
            taken: None,
        },
    }
}

/// The message that the act takes, and by whom, for the row of its place.
fn taking_of(seat: u32, act: &Act) -> Option<Taking>
    ensures { result ≡ taking seat act.now }
{
    match act {
        Act::Take { id, .. } => Some(Taking {
            taker: seat,
            id: *id,
        }),
        _ => None,
    }
}

/// How many ports are made after the act, in the row of its place.
fn ports_after(act: &Act, made: u64) -> u64
    requires { made < 2 ^ 63 }
    ensures { result ≡ ports_after act.now made }
{
    match act {
        Act::Make { .. } => made + 1,
        _ => made,
    }
}

/// How many groups are made after the act, in the row of its place.
fn groups_after(act: &Act, made: u64) -> u64
    requires { made < 2 ^ 63 }
    ensures { result ≡ groups_after act.now made }
{
    match act {
        Act::GroupMake { .. } => made + 1,
        _ => made,
    }
}

/// The row of the entry's place after the entry.
fn place_here(entry: &Entry, row: PlaceRow) -> PlaceRow
    requires { HasFewMade row }
    ensures { result ≡ place_here entry.now row }
{
    PlaceRow {
        clock: entry.clock,
        ports: ports_after(&entry.act, row.ports),
        groups: groups_after(&entry.act, row.groups),
        taken: taking_of(entry.seat, &entry.act),
    }
}

/// The places after the entry.
pub fn follow_places(places: &mut HashMap<u16, PlaceRow>, entry: &Entry)
    requires room { 0 < spare places.old }
    requires few { HasFewMade (place_in places.old entry.now.place) }
    ensures { PlacesAfter entry.now (place_in places.old) (place_in places.new) }
{
    let row = place_in(places, entry.place);
    put(places, entry.place, place_here(entry, row));
}
