//! The lines of ports that are under way.

ghost use Rattle.std.specs.Prelude.{◌≡◌, ◌+◌, ◌++◌, length, map, OnOk};
ghost use Rattle.std.specs.List.{All, flat_map};
ghost use Rattle.chorus_ui.specs.declared.layout.Layout.{Layout};
ghost use Rattle.chorus_ui.specs.Layout.{places as places_of};
ghost use Rattle.place_outbox.specs.Waiting.{list_to};
ghost use Rattle.chorus_place.specs.Calls.{Place};
ghost use Rattle.law_explore.specs.Moment.{moving_in};
ghost use Rattle.explore_report.specs.Facts.{outcome_lines};
ghost use Rattle.explore_moments.specs.Moments.{box_lines, list_lines};

use chorus_entry::Cargo;
use chorus_place::Place;
use explore_report::push_moving;
use place_outbox::Outbox;
use std::alloc::AllocError;

/// Appends the lines of the ports that are under way from these places, each of which has a list of packets for each of so many
/// places. The only error is want of memory; the lines may then be cut off.
pub fn push_under_way(places: &[Place], count: u16, text: &mut Vec<u8>) -> Result<(), AllocError>
    requires { All (λ (p : Place). length p.out.lists ≡ count + 1) places.now }
    ensures { OnOk result (text.new.items ≡ text.old.items ++ flat_map box_lines places.now) }
{
    for place in places {
        push_from(place.tables().out(), count, text)?;
    }
    Ok(())
}

/// Appends the lines of the ports that are under way by these packets, for places from 0 to this one.
fn push_from(out: &Outbox, last: u16, text: &mut Vec<u8>) -> Result<(), AllocError>
    requires { length out.now.lists ≡ last + 1 }
    ensures { OnOk result (text.new.items ≡ text.old.items ++ flat_map list_lines out.now.lists) }
{
    for to in 0..last {
        push_to(out, to, text)?;
    }
    push_to(out, last, text)
}

/// Appends the lines of the ports that are under way to the place.
fn push_to(out: &Outbox, to: u16, text: &mut Vec<u8>) -> Result<(), AllocError>
    ensures { OnOk result (text.new.items
        ≡ text.old.items ++ list_lines (list_to to out.now.lists)) }
{
    for at in 0..u64::MAX {
        let Some(packet) = out.get(to, at) else {
            return Ok(());
        };
        push_cargo(&packet.cargo, text)?;
    }
    // There is no memory for so many packets.
    Err(AllocError)
}

/// Appends the line of the port that is carried, where one is.
fn push_cargo(cargo: &Cargo, text: &mut Vec<u8>) -> Result<(), AllocError>
    ensures { OnOk result
        (text.new.items ≡ text.old.items ++ outcome_lines (moving_in cargo.now)) }
{
    match cargo {
        Cargo::Transfer { port } => push_moving(port.ui, port.actor, text),
        _ => Ok(()),
    }
}
