//! The lines of groups and their members.

ghost use Rattle.std.specs.Prelude.{◌≡◌, ◌++◌, OnOk};
ghost use Rattle.std.specs.List.{flat_map};
ghost use Rattle.chorus_place.specs.Calls.{state};
ghost use Rattle.chorus_world.specs.Groups.{members};
ghost use Rattle.law_explore.specs.Moment.{group_at};
ghost use Rattle.law_explore.specs.Outcome.{Members};
ghost use Rattle.explore_report.specs.Facts.{fact_line};
ghost use Rattle.explore_moments.specs.Moments.{group_lines, states};

use chorus_place::Place;
use chorus_ui::{Kind, Ui};
use explore_report::push_members;
use std::alloc::AllocError;

/// Appends the lines of the groups that the places made, with their members. The only error is want of memory; the lines may then
/// be cut off.
pub fn push_groups(places: &[Place], text: &mut Vec<u8>) -> Result<(), AllocError>
    ensures { OnOk result (text.new.items
        ≡ text.old.items ++ flat_map group_lines (states places.now)) }
{
    for place in places {
        push_at(place, text)?;
    }
    Ok(())
}

/// Appends the lines of the groups that the place made.
fn push_at(place: &Place, text: &mut Vec<u8>) -> Result<(), AllocError>
    ensures { OnOk result (text.new.items ≡ text.old.items ++ group_lines (state place.now)) }
{
    for index in 0..place.tables().groups().made() {
        push_group(place, index as u64 + 1, text)?;
    }
    Ok(())
}

/// Appends the line of the group of this number.
fn push_group(place: &Place, number: u64, text: &mut Vec<u8>) -> Result<(), AllocError>
    ensures { OnOk result (text.new.items ≡ text.old.items ++ fact_line
        (Members (group_at (state place.now) number)
        (members (group_at (state place.now) number) place.now.journal))) }
{
    let site = place.layout().site_of(place.number());
    let Some(group) = Ui::new(site, Kind::Group, number) else {
        // There is no memory for so many groups.
        return Err(AllocError);
    };
    push_members(group, place.tables().groups().members(group), text)
}
