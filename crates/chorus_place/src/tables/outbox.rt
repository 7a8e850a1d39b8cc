//! The end of a turn: what it put waits for its places.

ghost use Rattle.std.specs.Prelude.{◌≡◌, ◌+◌, ◌^◌, ◌<◌, ◌≤◌, [], length, slice_get, All, IfSome};
ghost use Rattle.std.specs.VecDeque.{deque_capacity};
ghost use Rattle.place_outbox.specs.Waiting.{list_to, with_first, without_first, MayPutBack};
ghost use Rattle.chorus_place.specs.PlaceTables.Sending.{IsFor, with_all};
ghost use Rattle.chorus_place.specs.PlaceTables.Tables.{state};

use crate::tables::Tables;
use chorus_entry::Packet;
use law_machine::Outgoing;
use place_outbox::Outbox;
use std::collections::VecDeque;

impl Tables {
    /// Moves the packets that the turn has put into the outbox, in order, in the room that is there: the turn ends. Takes no
    /// memory.
    pub(crate) fn send_out(&mut self)
        ensures lists { self.new.out.lists ≡ with_all self.old.puts self.old.out.lists }
        ensures none { self.new.puts ≡ [] }
        ensures state { state self.new ≡ state self.old }
        ensures journal { self.new.journal ≡ self.old.journal }
        ensures spare { self.old.out.spare ≤ self.new.out.spare + length self.old.puts }
        ensures count { self.new.out.puts ≡ self.old.out.puts + length self.old.puts }
        ensures room { self.old.room ≤ self.new.room }
    {
        // No more packets were put than the clock shows, so their number has 64 bits.
        let _ = self.journal.clock();
        move_all(&mut self.puts, &mut self.out);
    }

    /// Takes out the first packet that waits to go to the place; None exactly where none waits, and then nothing changes.
    pub(crate) fn take_out(&mut self, to: u16) -> Option<Packet>
        ensures value { result ≡ slice_get (list_to to self.old.out.lists) 0 }
        ensures lists { self.new.out.lists ≡ without_first to self.old.out.lists }
        ensures puts { self.new.puts ≡ self.old.puts }
        ensures count { self.new.out.puts ≡ self.old.out.puts }
        ensures state { state self.new ≡ state self.old }
        ensures spare { self.new.journal.spare ≡ self.old.journal.spare }
        ensures room { self.old.room ≤ self.new.room }
        ensures back { IfSome result (λ packet. MayPutBack to self.new.out) }
    {
        self.out.take(to)
    }

    /// Puts a packet that was taken out in front of those that wait to go to the place. Takes no memory.
    pub(crate) fn put_back(&mut self, to: u16, packet: Packet)
        requires { MayPutBack to self.old.out }
        ensures lists { self.new.out.lists ≡ with_first to packet self.old.out.lists }
        ensures puts { self.new.puts ≡ self.old.puts }
        ensures count { self.new.out.puts ≡ self.old.out.puts }
        ensures state { state self.new ≡ state self.old }
        ensures spare { self.new.journal.spare ≡ self.old.journal.spare }
        ensures room { self.new.room ≡ self.old.room }
    {
        self.out.put_back(to, packet);
    }
}

/// Moves the packets that a turn put into the outbox, in order, in the room that is there. Takes no memory.
fn move_all(puts: &mut VecDeque<Outgoing>, out: &mut Outbox)
    requires places { All (IsFor out.old) puts.old.items }
    requires room { length puts.old.items ≤ out.old.spare }
    requires count { out.old.puts + length puts.old.items < 2 ^ 64 }
    ensures lists { out.new.lists ≡ with_all puts.old.items out.old.lists }
    ensures none { puts.new.items ≡ [] }
    ensures spare { out.old.spare ≤ out.new.spare + length puts.old.items }
    ensures count { out.new.puts ≡ out.old.puts + length puts.old.items }
    ensures capacity { deque_capacity puts.new ≡ deque_capacity puts.old }
{
    while let Some(outgoing) = puts.pop_front() {
        let Outgoing { to, packet } = outgoing;
        out.put(to, packet);
    }
}
