//! Taking the places apart.
ghost use Rattle.std.specs.Prelude.{◌≡◌, ◌≤◌, ◌++◌, length, IfOk, OnOk};
ghost use Rattle.law_network.specs.Left.{placed_at};
ghost use Rattle.chorus_nucleus.specs.Apart.{TakesDesk, TakesDesks, AreDesksLinked, IsParted};

use crate::leavings::{Remains, take_all};
use chorus_entry::{Entry, Packet};
use chorus_ports::Ports;
use chorus_ruled_ends::RuledEnds;
use chorus_serve::{Desk, Parts};
use law_network::Placed;
use std::alloc::{AllocError, Global};
use std::sync::Wait;

/// Journals and ports of the places that were taken apart.
#[derive(Drop)]
pub(crate) struct Heap {
    pub(crate) journals: Vec<Vec<Entry>>,
    pub(crate) ports: Vec<Placed>,
}

/// All that is left of places.
#[derive(Drop)]
pub(crate) struct Parted {
    /// The journal of each place, by place, in order.
    pub journals: Vec<Vec<Entry>>,
    /// The packets that were put and not worked off: for each place that they come from, rising, and each other place that they go
    /// to, rising, what that one has in hand of it, what their link gave back, and what waits to be sent, in this order.
    pub rest: Vec<Packet>,
    /// The ports that are held, by place, then in table order.
    pub ports: Vec<Placed>,
}

/// Takes the ports of a place of threads that is taken apart.
fn take_ports(placed: &mut Vec<Placed>, place: u16, ports: Ports) -> Result<(), AllocError>
    ensures { OnOk result (placed.new.items ≡ placed.old.items ++ placed_at place ports.records) }
{
    let mut ports = ports;
    while let Some(port) = ports.pop() {
        placed.push(Placed { place, port })?;
    }
    Ok(())
}

/// Takes a place apart.
fn take_desk(heap: &mut Heap, desk: Desk<RuledEnds>) -> Result<Remains, AllocError>
    ensures { IfOk result (λ t. TakesDesk desk t heap.old heap.new) }
{
    let number = desk.place().number();
    let Parts {
        journal,
        out,
        from,
        hand,
        parcel,
        ports,
        ends,
    } = desk.finish();
    heap.journals.push(journal)?;
    take_ports(&mut heap.ports, number, ports)?;
    Ok(Remains {
        ends,
        out,
        from,
        hand,
        parcel,
    })
}

/// Takes each place apart.
fn take_desks(
    alloc: Global,
    heap: &mut Heap,
    desks: Vec<Desk<RuledEnds>>,
) -> Result<Vec<Option<Remains>>, AllocError>
    ensures { IfOk result (λ all. TakesDesks desks.items all.items heap.old heap.new) }
{
    let mut desks = desks;
    let mut all = Vec::new(alloc);
    desks.reverse();
    while let Some(desk) = desks.pop() {
        let remains = take_desk(heap, desk)?;
        all.push(Some(remains))?;
    }
    Ok(all)
}

/// Takes the places apart, in their order, and ends the links between them: there is one from each to each other. Each frame that is
/// left is opened. The only error is want of memory, and then all is given up.
pub(crate) fn take_apart<R: Wait>(
    rt: &R,
    alloc: Global,
    desks: Vec<Desk<RuledEnds>>,
) -> Result<Parted, AllocError>
    requires few { length desks.items ≤ u16.MAX }
    requires linked { AreDesksLinked desks.items }
    ensures { IfOk result (λ h. IsParted desks.items h) }
{
    let mut heap = Heap {
        journals: Vec::new(alloc),
        ports: Vec::new(alloc),
    };
    let mut slots = take_desks(alloc, &mut heap, desks)?;
    let mut rest = Vec::new(alloc);
    take_all(rt, &mut rest, &mut slots)?;
    let Heap { journals, ports } = heap;
    Ok(Parted {
        journals,
        rest,
        ports,
    })
}
