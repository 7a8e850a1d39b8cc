//! How the places of a nucleus are made, and how their boards end.
ghost use Rattle.std.specs.Prelude.{◌≡◌, ◌<◌, ◌-◌, ℕ, true, Some, length, slice_get, reverse, IfOk};
ghost use Rattle.chorus_ui.specs.Layout.{has_place, places, IsLayout};
ghost use Rattle.chorus_serve.specs.Flows.{IsOther};
ghost use Rattle.chorus_ruled_ends.specs.Ruled.{Ruled, links};
ghost use Rattle.chorus_ruled_ends.specs.Linked.{AreLinked};
ghost use Rattle.chorus_nucleus.specs.Starting.{AreFresh, HaveStarted, TakesLast};

use crate::site_turns::Site;
use chorus_board::{Board, BoardReader};
use chorus_ruled_ends::RuledEnds;
use chorus_serve::Desk;
use chorus_ui::Layout;
use std::alloc::{AllocError, Global};
use std::sync::Wait;

/// Ends the boards of these places of a nucleus, which are given up for want of memory.
pub(crate) fn end_boards<R: Wait>(rt: &R, mut sites: Vec<Site<RuledEnds>>) {
    while let Some(site) = sites.pop() {
        let Site { desk: _, board } = site;
        board.end(rt);
    }
    sites.destroy_empty();
}

/// The place of this number, one of the layout, at the last of these ends, and the readers of its board.
fn start_last<R: Wait>(
    alloc: Global,
    rt: &R,
    layout: Layout,
    number: u16,
    ends: &mut Vec<RuledEnds>,
) -> Result<(Site<RuledEnds>, Vec<BoardReader>), AllocError>
    requires place { has_place layout number ≡ true }
    requires some { 0 < length ends.old.items }
    requires reaches { (r : Ruled) → slice_get ends.old.items (length ends.old.items - 1) ≡ Some r →
        (p : ℕ) → IsOther layout number p → (links r).reaches p ≡ true }
    ensures { IfOk result (λ s. TakesLast layout number s.0 s.1 ends.old.items ends.new.items) }
{
    let Some(end) = ends.pop() else {
        unreachable!()
    };
    let desk = Desk::start(alloc, layout, number, end)?;
    let (board, readers) = Board::start(alloc, rt, layout, number)?;
    let _room = readers.capacity();
    Ok((Site { desk, board }, readers))
}

/// The places of a layout, the last one first, at these ends, and the readers of their boards in the same order.
fn start_each<R: Wait>(
    alloc: Global,
    rt: &R,
    layout: Layout,
    mut ends: Vec<RuledEnds>,
) -> Result<(Vec<Site<RuledEnds>>, Vec<Vec<BoardReader>>), AllocError>
    requires { AreLinked (places layout) ends.items }
    ensures { IfOk result
        (λ v. AreFresh layout (reverse v.0.items) (reverse v.1.items) ends.items) }
{
    let mut spare = Vec::with_capacity(alloc, ends.len())?;
    let mut sites = Vec::with_capacity(alloc, ends.len())?;
    let mut number = layout.places();
    while number > 0 {
        match start_last(alloc, rt, layout, number, &mut ends) {
            Ok((site, readers)) => {
                sites.push_reserved(site);
                spare.push_reserved(readers);
            }
            Err(none) => {
                end_boards(rt, sites);
                return Err(none);
            }
        }
        number -= 1;
    }
    Ok((sites, spare))
}

/// The places of a layout, in their order, with a link from each to each other one, and the readers of their boards, by places.
pub(crate) fn start_sites<R: Wait>(
    alloc: Global,
    rt: &R,
    layout: Layout,
) -> Result<(Vec<Site<RuledEnds>>, Vec<Vec<BoardReader>>), AllocError>
    requires { IsLayout layout }
    ensures { IfOk result (λ v. HaveStarted layout v.0.items v.1.items) }
{
    let ends = RuledEnds::all(alloc, layout)?;
    let (mut sites, mut spare) = start_each(alloc, rt, layout, ends)?;
    sites.reverse();
    spare.reverse();
    Ok((sites, spare))
}
