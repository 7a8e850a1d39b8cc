//! Two places.

ghost use Rattle.std.specs.Prelude.{◌≡◌, ◌+◌, true, length, IfOk};
ghost use Rattle.chorus_ui.specs.Layout.{places};
ghost use Rattle.chorus_explore.specs.AlikeSites.Places.{SamePlace};

use crate::alike_sites::hints_and_waits::{are_same_hints, are_same_unheard, are_same_waits};
use crate::alike_sites::journals::are_told_alike;
use crate::alike_sites::packets::are_same_packets;
use crate::alike_sites::records::are_same_records;
use chorus_place::Place;
use std::alloc::AllocError;

/// Whether the places, of one number in one layout, are alike, where claims are asked or not, and so are the packets that wait
/// there.
pub(crate) fn is_same_place(one: &Place, other: &Place, asks: bool) -> Result<bool, AllocError>
    requires layout { other.now.layout ≡ one.now.layout }
    requires number { other.now.number ≡ one.now.number }
    requires lists { length one.now.out.lists ≡ places one.now.layout + 1 }
    requires others { length other.now.out.lists ≡ places one.now.layout + 1 }
    ensures { IfOk result (λ same. same ≡ true → SamePlace asks one.now other.now) }
{
    let mine = one.tables();
    let theirs = other.tables();
    if !are_same_records(mine.ports().records(), theirs.ports().records()) {
        return Ok(false);
    }
    if !are_same_hints(mine.hints(), theirs.hints()) {
        return Ok(false);
    }
    if !are_same_waits(mine.waits(), theirs.waits()) {
        return Ok(false);
    }
    if !are_same_unheard(mine.unheard(), theirs.unheard()) {
        return Ok(false);
    }
    if !are_same_packets(mine.out(), theirs.out(), one.layout().places()) {
        return Ok(false);
    }
    let told = are_told_alike(mine, theirs, asks)?;
    Ok(told)
}
