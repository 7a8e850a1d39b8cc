//! Ends in memory.

ghost use Rattle.std.specs.Prelude.{◌≡◌, ◌≢◌, ℕ, ◌<◌, [], map, true, false, IsTrue, vec_len, Ok, IfOk, IfErr, OnOk, OnErr, IfSome, IfNone};
ghost use Rattle.chorus_entry.specs.Ranges.{has_ranges};
ghost use Rattle.chorus_ends.specs.Links.{Sends, MovesNothing};
ghost use Rattle.chorus_io.specs.Count.{raised};
ghost use Rattle.chorus_ends.specs.Memory.{links, from_place, to_place, IsFirstFrom, Gets, GoesTo, IsSame};
ghost use Rattle.chorus_ends.specs.declared.ends.PushFault.TheVariants as PushFault;

use crate::ends::{Ends, Moves, PushFault};
use chorus_entry::Packet;
use std::alloc::{AllocError, Global};
use std::marker::Model;
use std::snapshot::Snapshot;

/// Ends that hold in memory what comes from other places, and keep what is sent to them. They reach every place, and are never
/// full.
#[derive(Drop)]
pub struct MemEnds {
    /// The packets that are left to be received.
    left: Vec<Packet>,
    /// What was received, for contracts alone: it takes no bytes.
    received: Vec<Snapshot<Packet>>,
    /// What was sent, by the number of the place that it went to.
    sent: Vec<Vec<Packet>>,
    /// How often nothing was left to be received.
    empties: u64,
}

impl Model for MemEnds {
    ghost use Rattle.std.specs.Prelude.{◌≤◌, ◌+◌, map, vec_len};
    ghost use Rattle.std.specs.Vec.{vec_capacity};
    ghost use Rattle.chorus_entry.specs.declared.packet.Packet.{Packet};
    ghost use Rattle.chorus_ends.specs.Memory.{Kept};

    ghost Value = { Kept };

    ghost view = { λ e. record {
      left = e.left.items;
      received = map (λ s. s.value) e.received.items;
      sent = map (λ l. l.items) e.sent.items;
      empties = e.empties;
    } };

    ghost invariant = { λ e. vec_len e.received + vec_len e.left ≤ vec_capacity e.received };
}

impl MemEnds {
    /// Ends of which a `pop` gives these packets, those of each place in order.
    pub fn holding(alloc: Global, packets: Vec<Packet>) -> Result<MemEnds, AllocError>
        ensures { IfOk result (λ ends. ends ≡
            record { left = packets.items; received = []; sent = []; empties = 0 }) }
    {
        Ok(MemEnds {
            received: Vec::with_capacity(alloc, packets.len())?,
            left: packets,
            sent: Vec::new(alloc),
            empties: 0,
        })
    }

    /// What was sent to the place, in order.
    pub fn sent(&self, to: u16) -> &[Packet]
        ensures { result.now ≡ to_place to self.now.sent }
    {
        match self.sent.get(usize::from(to)) {
            Some(packets) => packets.as_slice(),
            None => &[],
        }
    }
}

/// The index of the first of the packets left in memory that comes from the place.
fn first_from(packets: &[Packet], from: u16) -> Option<usize>
    ensures some { IfSome result (λ at. IsFirstFrom from at packets.now) }
    ensures none { IfNone result (from_place from packets.now ≡ []) }
{
    let mut at = 0;
    while at < packets.len() {
        if packets[at].from == from {
            return Some(at);
        }
        at += 1;
    }
    None
}

/// Makes a list in memory of what is sent to the place, where there is none yet.
fn make_list(sent: &mut Vec<Vec<Packet>>, place: usize) -> Result<(), AllocError>
    ensures made { OnOk result (place < vec_len sent.new) }
    ensures same { IsSame (map (λ l. l.items) sent.old.items) (map (λ l. l.items) sent.new.items) }
{
    let alloc = *sent.allocator();
    while sent.len() <= place {
        sent.push(Vec::new(alloc))?;
    }
    Ok(())
}

/// Puts a packet behind those that were sent in memory to the place, which has a list.
fn put_behind(sent: &mut Vec<Vec<Packet>>, place: usize, packet: Packet) -> Result<(), Packet>
    requires { place < vec_len sent.old }
    ensures put { OnOk result (GoesTo place packet
        (map (λ l. l.items) sent.old.items) (map (λ l. l.items) sent.new.items)) }
    ensures back { IfErr result (λ refused. refused ≡ packet) }
    ensures same { OnErr result
        (IsSame (map (λ l. l.items) sent.old.items) (map (λ l. l.items) sent.new.items)) }
{
    match sent[place].push(packet) {
        Ok(()) => Ok(()),
        Err(refused) => Err(refused.value),
    }
}

impl Ends for MemEnds {
    type Parcel = Packet;

    ghost packet = { λ parcel. parcel };

    ghost links = { links };

    /// Opens a parcel in memory, which is never refused.
    fn unpack(parcel: Packet) -> Result<Packet, (Packet, AllocError)>
        ensures { result ≡ Ok parcel }
    {
        Ok(parcel)
    }

    fn fulls(&self, _to: u16) -> u64 {
        0
    }

    /// How often nothing was left to be received, from whatever place.
    fn empties(&self, _from: u16) -> u64 {
        self.empties
    }

    /// Looks whether nothing is left in memory to be received from the place. Yes comes only where nothing is left from it.
    fn finds_empty(&mut self, from: u16) -> bool
        ensures yes { IsTrue result → ((from_place from self.old.left ≡ [])
            × (self.new ≡ record self.old { empties = raised self.old.empties })) }
        ensures no { result ≡ false → self.new ≡ self.old }
    {
        let empty = first_from(&self.left, from).is_none();
        if empty {
            self.empties = self.empties.saturating_add(1);
        }
        empty
    }
}

impl Moves<()> for MemEnds {
    /// Sends the packet to the place, in memory. It is refused for want of memory alone.
    fn push(&mut self, _ground: &(), to: u16, packet: Packet) -> Result<(), (Packet, PushFault)>
        requires ranges { has_ranges packet ≡ true }
        ensures sent { OnOk result (Sends to packet (links self.old) (links self.new)) }
        ensures back { IfErr result (λ refused. refused.0 ≡ packet) }
        ensures unmoved { OnErr result (MovesNothing (links self.old) (links self.new)) }
        ensures not_full { IfErr result (λ refused. refused.1 ≢ PushFault.Full) }
        ensures left { self.new.left ≡ self.old.left }
        ensures empties { self.new.empties ≡ self.old.empties }
    {
        let place = usize::from(to);
        if let Err(none) = make_list(&mut self.sent, place) {
            return Err((packet, PushFault::Memory(none)));
        }
        match put_behind(&mut self.sent, place, packet) {
            Ok(()) => Ok(()),
            Err(back) => Err((back, PushFault::Memory(AllocError))),
        }
    }

    /// Receives the first packet that is left from the place. None comes exactly where nothing is left from it.
    fn pop(&mut self, _ground: &(), from: u16) -> Option<Packet>
        ensures some { IfSome result (λ packet. Gets from packet self.old self.new) }
        ensures none { IfNone result ((from_place from self.old.left ≡ [])
            × (self.new ≡ record self.old { empties = raised self.old.empties })) }
    {
        match first_from(&self.left, from) {
            Some(at) => {
                let packet = self.left.remove(at);
                self.received.push_reserved(Snapshot::of(&packet));
                Some(packet)
            }
            None => {
                self.empties = self.empties.saturating_add(1);
                None
            }
        }
    }
}
