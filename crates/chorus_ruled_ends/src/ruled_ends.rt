//! Ends over ruled links.

ghost use Rattle.std.specs.Prelude.{◌≡◌, ◌<◌, ◌≤◌, ◌++◌, [], ◌∷◌, true, None, is_some, slice_index_or, IsTrue, OnOk, OnErr, IfSome, IfNone};
ghost use Rattle.chorus_ruled_ends.specs.Ruled.{links, sent_by, received_by, fulls_by, empties_by, name_to, name_from};
ghost use Rattle.chorus_ruled_ends.specs.Sides.{CountsOut, SendsOut, SendsNothing, FoundFull, CountsInto, ReceivesInto, ReceivesNothing, FoundEmpty};

use chorus_ends::{Ends, Moves, PushFault};
use chorus_entry::Packet;
use chorus_frame::Frame;
use chorus_link::{RecvEnd, SendEnd};
use std::alloc::AllocError;
use std::marker::Model;
use std::sync::Wait;

/// The ends, at one place, of a link to and a link from each other place. A packet goes as its frame, so what it held can be let go
/// where it was sent.
#[derive(Drop)]
pub struct RuledEnds {
    /// By the number of the place that it leads to.
    pub(crate) out: Vec<Option<SendEnd<Frame>>>,
    /// By the number of the place that it comes from.
    pub(crate) into: Vec<Option<RecvEnd<Frame>>>,
}

impl Model for RuledEnds {
    ghost use Rattle.chorus_ruled_ends.specs.Ruled.{Ruled};

    ghost Value = { Ruled };

    ghost view = { λ e. record { out = e.out.items; into = e.into.items } };
}

/// Whether the slot of the place has an end of a ruled link.
fn is_linked<T>(slots: &Vec<Option<T>>, place: usize) -> bool
    ensures { result ≡ is_some (slice_index_or slots.now.items place None) }
{
    place < slots.len() && slots[place].is_some()
}

impl RuledEnds {
    /// Whether the place is reached: there is an end to it and one from it.
    pub fn reaches(&self, place: u16) -> bool
        ensures { result ≡ (links self.now).reaches place }
    {
        let place = usize::from(place);
        is_linked(&self.out, place) && is_linked(&self.into, place)
    }
}

/// Sends a frame by the end that is there.
fn send<R: Wait>(slot: &mut Option<SendEnd<Frame>>, ground: &R, frame: Frame) -> Result<(), Frame>
    requires { is_some slot.old ≡ true }
    ensures there { is_some slot.new ≡ true }
    ensures name { name_to slot.new ≡ name_to slot.old }
    ensures sent { OnOk result (sent_by slot.new ≡ sent_by slot.old ++ frame ∷ []) }
    ensures unmoved { OnErr result (sent_by slot.new ≡ sent_by slot.old) }
    ensures fulls { fulls_by slot.old ≤ fulls_by slot.new }
    ensures full { OnErr result (fulls_by slot.old < fulls_by slot.new) }
{
    match slot {
        Some(end) => end.push(ground, frame),
        None => unreachable!(),
    }
}

/// Sends a frame by the end to the place, which is there.
fn send_to<R: Wait>(
    out: &mut Vec<Option<SendEnd<Frame>>>,
    ground: &R,
    place: usize,
    frame: Frame,
) -> Result<(), Frame>
    requires { is_some (slice_index_or out.old.items place None) ≡ true }
    ensures counts { CountsOut out.old.items out.new.items }
    ensures sent { OnOk result (SendsOut place frame out.old.items out.new.items) }
    ensures unmoved { OnErr result (SendsNothing out.old.items out.new.items) }
    ensures full { OnErr result (FoundFull place out.old.items out.new.items) }
{
    send(&mut out[place], ground, frame)
}

/// Receives the next frame by the end that is there.
fn receive<R: Wait>(slot: &mut Option<RecvEnd<Frame>>, ground: &R) -> Option<Frame>
    requires { is_some slot.old ≡ true }
    ensures there { is_some slot.new ≡ true }
    ensures name { name_from slot.new ≡ name_from slot.old }
    ensures got { IfSome result (λ frame.
        received_by slot.new ≡ received_by slot.old ++ frame ∷ []) }
    ensures unmoved { IfNone result (received_by slot.new ≡ received_by slot.old) }
    ensures empties { empties_by slot.old ≤ empties_by slot.new }
    ensures empty { IfNone result (empties_by slot.old < empties_by slot.new) }
{
    match slot {
        Some(end) => end.pop(ground),
        None => unreachable!(),
    }
}

/// Receives the next frame by the end from the place, which is there.
fn receive_from<R: Wait>(
    into: &mut Vec<Option<RecvEnd<Frame>>>,
    ground: &R,
    place: usize,
) -> Option<Frame>
    requires { is_some (slice_index_or into.old.items place None) ≡ true }
    ensures counts { CountsInto into.old.items into.new.items }
    ensures received { IfSome result (λ frame.
        ReceivesInto place frame into.old.items into.new.items) }
    ensures unmoved { IfNone result (ReceivesNothing into.old.items into.new.items) }
    ensures empty { IfNone result (FoundEmpty place into.old.items into.new.items) }
{
    receive(&mut into[place], ground)
}

/// Looks whether the link of the end that is there is empty; where it is, its count rises.
fn is_found_empty(slot: &mut Option<RecvEnd<Frame>>) -> bool
    requires { is_some slot.old ≡ true }
    ensures there { is_some slot.new ≡ true }
    ensures name { name_from slot.new ≡ name_from slot.old }
    ensures unmoved { received_by slot.new ≡ received_by slot.old }
    ensures empties { empties_by slot.old ≤ empties_by slot.new }
    ensures empty { IsTrue result → empties_by slot.old < empties_by slot.new }
{
    match slot {
        Some(end) => end.finds_empty(),
        None => unreachable!(),
    }
}

/// Looks whether the link of the end from the place, which is there, is empty.
fn finds_empty_from(into: &mut Vec<Option<RecvEnd<Frame>>>, place: usize) -> bool
    requires { is_some (slice_index_or into.old.items place None) ≡ true }
    ensures counts { CountsInto into.old.items into.new.items }
    ensures unmoved { ReceivesNothing into.old.items into.new.items }
    ensures empty { IsTrue result → FoundEmpty place into.old.items into.new.items }
{
    is_found_empty(&mut into[place])
}

impl Ends for RuledEnds {
    type Parcel = Frame;

    ghost packet = { λ frame. frame };

    ghost links = { links };

    fn unpack(parcel: Frame) -> Result<Packet, (Frame, AllocError)> {
        match parcel.unpack() {
            Ok(packet) => Ok(packet),
            Err(none) => Err((parcel, none)),
        }
    }

    fn fulls(&self, to: u16) -> u64 {
        match self.out.get(usize::from(to)) {
            Some(Some(end)) => end.fulls(),
            _ => 0,
        }
    }

    fn empties(&self, from: u16) -> u64 {
        match self.into.get(usize::from(from)) {
            Some(Some(end)) => end.empties(),
            _ => 0,
        }
    }

    fn finds_empty(&mut self, from: u16) -> bool {
        finds_empty_from(&mut self.into, usize::from(from))
    }
}

impl<R: Wait> Moves<R> for RuledEnds {
    fn push(&mut self, ground: &R, to: u16, packet: Packet) -> Result<(), (Packet, PushFault)> {
        let alloc = *self.out.allocator();
        let frame = match Frame::of(alloc, &packet) {
            Ok(frame) => frame,
            Err(none) => return Err((packet, PushFault::Memory(none))),
        };
        match send_to(&mut self.out, ground, usize::from(to), frame) {
            Ok(()) => {
                // It goes as bytes.
                drop(packet);
                Ok(())
            }
            Err(frame) => {
                drop(frame);
                Err((packet, PushFault::Full))
            }
        }
    }

    fn pop(&mut self, ground: &R, from: u16) -> Option<Frame> {
        receive_from(&mut self.into, ground, usize::from(from))
    }
}
