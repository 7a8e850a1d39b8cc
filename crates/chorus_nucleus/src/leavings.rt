//! What is left of the places, and taking it link by link.
ghost use Rattle.std.specs.Prelude.{◌≡◌, ◌≢◌, ◌≤◌, ◌++◌, ◌∷◌, [], None, option_to_list, is_some, true, length, OnOk};
ghost use Rattle.chorus_link.specs.Ends.{packets_left};
ghost use Rattle.law_closing.specs.Closing.{IsPlace};
ghost use Rattle.chorus_nucleus.specs.Leavings.{content, the, slot, remains_of, AreThere, IsLinked, IsLinkedWith, AreLinkedAll, TakesHand, TakesWaiting, TakesPair, TakesOne, TakesRow, TakesFrom, TakesAll};

use chorus_ends::Ends;
use chorus_entry::Packet;
use chorus_frame::Frame;
use chorus_link::Rest;
use chorus_ruled_ends::{RuledEnds, end_link};
use place_outbox::Outbox;
use std::alloc::AllocError;
use std::sync::Wait;

/// What is left of a place, but for its journal and its ports.
#[derive(Drop)]
pub(crate) struct Remains {
    pub(crate) ends: RuledEnds,
    /// What waits to go to other places.
    pub(crate) out: Outbox,
    /// From where what is in hand came.
    pub(crate) from: Option<u16>,
    /// What is in hand, where it was opened.
    pub(crate) hand: Option<Packet>,
    /// What is in hand, where it was not.
    pub(crate) parcel: Option<Frame>,
}

/// Opens a frame that is left, and takes its packet.
fn take_frame(packets: &mut Vec<Packet>, frame: Frame) -> Result<(), AllocError>
    ensures { OnOk result (packets.new.items ≡ packets.old.items ++ frame ∷ []) }
{
    match RuledEnds::unpack(frame) {
        Ok(packet) => packets.push(packet)?,
        Err((frame, none)) => {
            drop(frame);
            return Err(none);
        }
    }
    Ok(())
}

/// Takes what a link gave to nobody.
fn take_link<R: Wait>(
    rt: &R,
    packets: &mut Vec<Packet>,
    left: Rest<Frame>,
) -> Result<(), AllocError>
    ensures { OnOk result (packets.new.items ≡ packets.old.items ++ packets_left left) }
{
    let mut left = left;
    while let Some(frame) = left.next(rt) {
        take_frame(packets, frame)?;
    }
    Ok(())
}

/// Takes the packet of the frame that a place has left in hand, if there is one.
fn take_parcel(packets: &mut Vec<Packet>, parcel: Option<Frame>) -> Result<(), AllocError>
    ensures { OnOk result (packets.new.items ≡ packets.old.items ++ option_to_list parcel) }
{
    match parcel {
        Some(frame) => take_frame(packets, frame),
        None => Ok(()),
    }
}

/// Takes the packet that a place has left in hand, if there is one.
fn take_packet(packets: &mut Vec<Packet>, packet: Option<Packet>) -> Result<(), AllocError>
    ensures { OnOk result (packets.new.items ≡ packets.old.items ++ option_to_list packet) }
{
    if let Some(packet) = packet {
        packets.push(packet)?;
    }
    Ok(())
}

/// Takes what a place has left in hand, a packet or its frame.
fn take_content(packets: &mut Vec<Packet>, there: &mut Remains) -> Result<(), AllocError>
    ensures packets { OnOk result (packets.new.items ≡ packets.old.items ++ content there.old) }
    ensures there { OnOk result (there.new ≡ record there.old { hand = None; parcel = None }) }
{
    take_packet(packets, there.hand.take())?;
    take_parcel(packets, there.parcel.take())
}

/// Takes what a place has left in hand, where it came from this other place.
fn take_hand(packets: &mut Vec<Packet>, there: &mut Remains, place: u16) -> Result<(), AllocError>
    ensures { OnOk result
        (TakesHand place packets.old.items packets.new.items there.old there.new) }
{
    let Some(from) = there.from else {
        return Ok(());
    };
    if from != place {
        return Ok(());
    }
    take_content(packets, there)
}

/// Takes what is left waiting in an outbox for the place.
fn take_waiting(packets: &mut Vec<Packet>, out: &mut Outbox, place: u16) -> Result<(), AllocError>
    ensures { OnOk result
        (TakesWaiting place packets.old.items packets.new.items out.old.lists out.new.lists) }
{
    while let Some(packet) = out.take(place) {
        packets.push(packet)?;
    }
    Ok(())
}

/// Takes what goes from one place to another: what is in hand there, what their link gives back, and what waits here.
fn take_pair<R: Wait>(
    rt: &R,
    packets: &mut Vec<Packet>,
    here: &mut Remains,
    from: u16,
    there: &mut Remains,
    to: u16,
) -> Result<(), AllocError>
    requires { IsLinked from here.old to there.old }
    ensures { OnOk result (TakesPair from to packets.old.items packets.new.items
        here.old here.new there.old there.new) }
{
    take_hand(packets, there, from)?;
    let left = end_link(&mut here.ends, to, &mut there.ends, from);
    take_link(rt, packets, left)?;
    take_waiting(packets, &mut here.out, to)
}

/// Takes what goes from one place to another, whose remains stand in the slot.
fn take_slot<R: Wait>(
    rt: &R,
    packets: &mut Vec<Packet>,
    here: &mut Remains,
    from: u16,
    slot: &mut Option<Remains>,
    to: u16,
) -> Result<(), AllocError>
    requires { IsLinked from here.old to (the slot.old) }
    ensures there { OnOk result (is_some slot.new ≡ is_some slot.old) }
    ensures pair { OnOk result (TakesPair from to packets.old.items packets.new.items
        here.old here.new (the slot.old) (the slot.new)) }
{
    match slot {
        Some(there) => take_pair(rt, packets, here, from, there, to),
        None => unreachable!(),
    }
}

/// Takes what goes from the place to the other of this number; nothing goes to itself.
fn take_one<R: Wait>(
    rt: &R,
    packets: &mut Vec<Packet>,
    here: &mut Remains,
    from: u16,
    slots: &mut Vec<Option<Remains>>,
    to: u16,
) -> Result<(), AllocError>
    requires to { IsPlace (length slots.old.items) to }
    requires linked { to ≢ from → IsLinked from here.old to (remains_of to slots.old.items) }
    ensures { OnOk result (TakesOne from to packets.old.items packets.new.items
        here.old here.new slots.old.items slots.new.items) }
{
    if to == from {
        return Ok(());
    }
    take_slot(rt, packets, here, from, &mut slots[usize::from(to) - 1], to)
}

/// Takes what goes from the place to each other one.
fn take_row<R: Wait>(
    rt: &R,
    packets: &mut Vec<Packet>,
    here: &mut Remains,
    from: u16,
    slots: &mut Vec<Option<Remains>>,
) -> Result<(), AllocError>
    requires few { length slots.old.items ≤ u16.MAX }
    requires linked { IsLinkedWith from here.old slots.old.items }
    ensures { OnOk result (TakesRow from (length slots.old.items) packets.old.items
        packets.new.items here.old here.new slots.old.items slots.new.items) }
{
    let mut to: u16 = 0;
    while usize::from(to) < slots.len() {
        to += 1;
        take_one(rt, packets, here, from, slots, to)?;
    }
    Ok(())
}

/// Takes what goes from the place of this number to each other one.
fn take_from<R: Wait>(
    rt: &R,
    packets: &mut Vec<Packet>,
    slots: &mut Vec<Option<Remains>>,
    from: u16,
) -> Result<(), AllocError>
    requires few { length slots.old.items ≤ u16.MAX }
    requires from { IsPlace (length slots.old.items) from }
    requires there { is_some (slot from slots.old.items) ≡ true }
    requires linked { IsLinkedWith from (remains_of from slots.old.items) slots.old.items }
    ensures { OnOk result
        (TakesFrom from packets.old.items packets.new.items slots.old.items slots.new.items) }
{
    let Some(mut here) = slots[usize::from(from) - 1].take() else {
        unreachable!()
    };
    take_row(rt, packets, &mut here, from, slots)?;
    slots[usize::from(from) - 1] = Some(here);
    Ok(())
}

/// Takes what goes from each place to each other one, by the first and then by the second.
pub(crate) fn take_all<R: Wait>(
    rt: &R,
    packets: &mut Vec<Packet>,
    slots: &mut Vec<Option<Remains>>,
) -> Result<(), AllocError>
    requires few { length slots.old.items ≤ u16.MAX }
    requires there { AreThere slots.old.items }
    requires linked { AreLinkedAll slots.old.items }
    ensures { OnOk result (TakesAll packets.old.items packets.new.items slots.old.items) }
{
    let mut from: u16 = 0;
    while usize::from(from) < slots.len() {
        from += 1;
        take_from(rt, packets, slots, from)?;
    }
    Ok(())
}
