//! The actor that a caller is told to have been in.

ghost use Rattle.std.specs.Prelude.{◌≡◌, ◌≤◌, ◌<◌};
ghost use Rattle.chorus_ui.specs.Layout.{has_actor};
ghost use Rattle.judge_seats.specs.Seats.{actor_at, first_in, free_actor, home_actor, if_may, is_out_in, sits_by};

use crate::seats::{Sitting, is_out_in};
use checker_rows::keys::ClientOf;
use chorus_ui::{ACTORS_PER_SITE_LIMIT, Kind, Layout, Ui};
use std::collections::HashMap;

/// Whether the layout has an actor of this name.
fn has_actor(layout: Layout, actor: Ui) -> bool
    ensures { result ≡ has_actor layout actor }
{
    layout.has_site(actor.site()) && actor.number() <= ACTORS_PER_SITE_LIMIT
}

/// The actor, where it is one of the layout in which the caller may have been, by the table.
fn if_may(layout: Layout, outs: &HashMap<ClientOf, bool>, seat: u32, actor: Ui) -> Option<Ui>
    ensures { result ≡ if_may layout (is_out_in outs.now seat) actor }
{
    if actor.is_actor() && has_actor(layout, actor) && !is_out_in(outs, seat, actor) {
        Some(actor)
    } else {
        None
    }
}

/// The first actor whose home is the place.
fn home_actor(layout: Layout, place: u16) -> Ui
    ensures { result ≡ home_actor layout place }
{
    let before = place.saturating_sub(1);
    let number = u64::from(before % layout.turns()) + 1;
    Ui::new(before / layout.turns() + 1, Kind::Actor, number).unwrap()
}

/// The actor of a layout behind so many others.
fn actor_at(index: u16) -> Ui
    requires { index < 128 }
    ensures { result ≡ actor_at index }
{
    let number = u64::from(index) % ACTORS_PER_SITE_LIMIT + 1;
    Ui::new(index / 8 + 1, Kind::Actor, number).unwrap()
}

/// The first of so many actors in which the caller may have been, by the table.
fn first_in(layout: Layout, outs: &HashMap<ClientOf, bool>, seat: u32, count: u16) -> Option<Ui>
    requires { count ≤ 128 }
    ensures { result ≡ first_in layout (is_out_in outs.now seat) count }
{
    let mut found = None;
    for index in 0..count {
        found = found.or(if_may(layout, outs, seat, actor_at(index)));
    }
    found
}

/// The actor in which a caller that began at the place is told to have been, where no entry puts it into one.
fn free_actor(layout: Layout, outs: &HashMap<ClientOf, bool>, seat: u32, place: u16) -> Option<Ui>
    ensures { result ≡ free_actor layout (is_out_in outs.now seat) place }
{
    match if_may(layout, outs, seat, home_actor(layout, place)) {
        Some(actor) => Some(actor),
        None => first_in(layout, outs, seat, layout.sites() * 8),
    }
}

/// The actor in which a caller is told to have been, by what is known of it.
pub(crate) fn sits_by(
    layout: Layout,
    outs: &HashMap<ClientOf, bool>,
    seat: u32,
    row: Option<Sitting>,
) -> Option<Ui>
    ensures { result ≡ sits_by layout (is_out_in outs.now seat) row }
{
    let row = row?;
    match row.actor {
        Some(actor) => if_may(layout, outs, seat, actor),
        None => free_actor(layout, outs, seat, row.place),
    }
}
