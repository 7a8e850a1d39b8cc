//! The packets that wait to go to other places.

ghost use Rattle.std.specs.Prelude.{◌≡◌, ◌==◌, ◌+◌, ◌-◌, ◌^◌, ◌<◌, ◌≤◌, length, slice_get, IfOk, IfSome, OnOk};
ghost use Rattle.std.specs.Option.{option_copied};
ghost use Rattle.place_outbox.specs.Fronts.{is_filled};
ghost use Rattle.place_outbox.specs.Waiting.{nothing_to, list_to, with_last, with_first, without_first, count, next, after_next, first_place, MayPutBack};

use crate::pool::Pool;
use chorus_entry::Packet;
use std::alloc::{AllocError, Global};
use std::marker::Model;

/// The packets that wait to go to other places, of each place in the order put. Room for a packet is room for any place. A packet
/// that was taken out may be put back, in room of its own.
#[derive(Drop)]
pub struct Outbox {
    /// For each place the packet that was put back.
    fronts: Vec<Option<Packet>>,
    /// How many were.
    back: u64,
    /// The others.
    pool: Pool,
}

impl Model for Outbox {
    ghost use Rattle.place_outbox.specs.Waiting.{Waiting};
    ghost use Rattle.place_outbox.specs.Fronts.{with_fronts, are_free, IsOutbox};

    ghost Value = { Waiting };

    ghost view = { λ o. record {
      lists = with_fronts o.fronts.items o.pool.lists;
      spare = o.pool.spare;
      puts = o.pool.puts;
      free = are_free o.fronts.items;
    } };

    ghost invariant = { λ o. IsOutbox o.fronts.items o.pool o.back };
}

impl Outbox {
    /// Nothing waits for any place from 0 to `places`, and there is room for no packet.
    pub fn with_places(alloc: Global, places: u16) -> Result<Outbox, AllocError>
        ensures lists { IfOk result (λ outbox. outbox.lists ≡ nothing_to places) }
        ensures puts { IfOk result (λ outbox. outbox.puts ≡ 0) }
    {
        let mut fronts = Vec::with_capacity(alloc, usize::from(places) + 1)?;
        for _place in 0..usize::from(places) + 1 {
            fronts.push_reserved(None);
        }
        Ok(Outbox {
            fronts,
            back: 0,
            pool: Pool::with_places(alloc, places)?,
        })
    }

    /// How many packets wait.
    pub fn waiting(&self) -> u64
        ensures { result ≡ count self.now.lists }
    {
        self.pool.waiting() + self.back
    }

    /// Whether none waits.
    pub fn is_empty(&self) -> bool
        ensures { result ≡ (count self.now.lists == 0) }
    {
        self.waiting() == 0
    }

    /// How many packets were put so far.
    pub fn puts(&self) -> u64
        ensures { result ≡ self.now.puts }
    {
        self.pool.puts()
    }

    /// How many packets more need no memory.
    pub fn spare(&self) -> usize
        ensures { result ≡ self.now.spare }
    {
        self.pool.spare()
    }

    /// Takes room for this many packets more, whatever places they go to. Changes no list, whatever the answer.
    pub fn reserve(&mut self, more: usize) -> Result<(), AllocError>
        ensures lists { self.new.lists ≡ self.old.lists }
        ensures puts { self.new.puts ≡ self.old.puts }
        ensures free { self.new.free ≡ self.old.free }
        ensures kept { self.old.spare ≤ self.new.spare }
        ensures spare { OnOk result (more ≤ self.new.spare) }
    {
        self.pool.reserve(more)
    }

    /// Puts a packet behind those that wait for the place, in the room that is there. Takes no memory.
    pub fn put(&mut self, place: u16, packet: Packet)
        requires place { place < length self.old.lists }
        requires room { 0 < self.old.spare }
        requires puts { self.old.puts < 2 ^ 64 - 1 }
        ensures lists { self.new.lists ≡ with_last place packet self.old.lists }
        ensures spare { self.new.spare + 1 ≡ self.old.spare }
        ensures puts { self.new.puts ≡ self.old.puts + 1 }
        ensures free { self.new.free ≡ self.old.free }
    {
        self.pool.put(place, packet);
    }

    /// Takes the first packet for the place out; None exactly where none waits for it, and then no packet moves. Takes no
    /// memory.
    pub fn take(&mut self, place: u16) -> Option<Packet>
        ensures value { result ≡ slice_get (list_to place self.old.lists) 0 }
        ensures lists { self.new.lists ≡ without_first place self.old.lists }
        ensures spare { self.old.spare ≤ self.new.spare }
        ensures puts { self.new.puts ≡ self.old.puts }
        ensures back { IfSome result (λ packet. MayPutBack place self.new) }
    {
        if !self.has_packet_for(place) {
            return None;
        }
        self.take_at(usize::from(place))
    }

    /// Whether a packet waits for the place. It moves no packet, and where none was put back looks at none.
    pub fn has_packet_for(&self, place: u16) -> bool
        ensures { result ≡ is_filled (list_to place self.now.lists) }
    {
        let place = usize::from(place);
        if place >= self.fronts.len() {
            return false;
        }
        self.is_filled(place)
    }

    /// The packet at this position among those for the place, from 0; None exactly where fewer wait for it. Takes no memory, and
    /// steps over the packets before it.
    pub fn get(&self, place: u16, at: u64) -> Option<&Packet>
        ensures { option_copied result ≡ slice_get (list_to place self.now.lists) at }
    {
        let place = usize::from(place);
        if place >= self.fronts.len() {
            return None;
        }
        match &self.fronts[place] {
            Some(packet) if at == 0 => Some(packet),
            Some(_) => self.pool.get(place, at - 1),
            None => self.pool.get(place, at),
        }
    }

    /// Puts a packet that was taken out in front of those that wait for the place. Takes no memory.
    pub fn put_back(&mut self, place: u16, packet: Packet)
        requires { MayPutBack place self.old }
        ensures lists { self.new.lists ≡ with_first place packet self.old.lists }
        ensures spare { self.new.spare ≡ self.old.spare }
        ensures puts { self.new.puts ≡ self.old.puts }
    {
        self.fronts[usize::from(place)] = Some(packet);
        self.back += 1;
    }

    /// Takes a packet out: the first one for the first place that has any. None exactly where none waits, and then no packet
    /// moves. Takes no memory.
    pub fn pop(&mut self) -> Option<Packet>
        ensures value { result ≡ next self.old.lists }
        ensures lists { self.new.lists ≡ after_next self.old.lists }
        ensures spare { self.old.spare ≤ self.new.spare }
        ensures puts { self.new.puts ≡ self.old.puts }
    {
        let place = self.first_place();
        self.take_at(place)
    }

    /// The first place for which a packet waits; their number where none waits.
    fn first_place(&self) -> usize
        ensures { result ≡ first_place self.now.lists }
    {
        for place in 0..self.fronts.len() {
            if self.is_filled(place) {
                return place;
            }
        }
        self.fronts.len()
    }

    /// Whether a packet waits for the place.
    fn is_filled(&self, place: usize) -> bool
        requires { place < length self.now.lists }
        ensures { result ≡ is_filled (list_to place self.now.lists) }
    {
        if self.back == 0 {
            return self.pool.is_filled(place);
        }
        self.fronts[place].is_some() || self.pool.is_filled(place)
    }

    /// Takes the first packet for the place with this number out.
    fn take_at(&mut self, place: usize) -> Option<Packet>
        ensures value { result ≡ slice_get (list_to place self.old.lists) 0 }
        ensures lists { self.new.lists ≡ without_first place self.old.lists }
        ensures spare { self.old.spare ≤ self.new.spare }
        ensures puts { self.new.puts ≡ self.old.puts }
        ensures back { IfSome result (λ packet. MayPutBack place self.new) }
    {
        if place >= self.fronts.len() {
            return None;
        }
        if let Some(packet) = self.fronts[place].take() {
            self.back -= 1;
            return Some(packet);
        }
        self.pool.take(place)
    }
}
