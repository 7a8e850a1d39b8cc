//! The parts of a step: an entry, and a packet that it causes.

ghost use Rattle.std.specs.Prelude.{◌≡◌, ◌+◌, ◌-◌, ◌^◌, ◌<◌, ◌≤◌, ◌++◌, ◌∷◌, [], map, max, length};
ghost use Rattle.std.specs.VecDeque.{deque_capacity};
ghost use Rattle.chorus_world.specs.Places.{last_clock};
ghost use Rattle.chorus_calls.specs.Callers.{after_tick};
ghost use Rattle.place_journal.specs.Counting.{MayFollow};
ghost use Rattle.chorus_place.specs.PlaceTables.Turns.{next_clock, next_entry, after_entry};
ghost use Rattle.law_machine.specs.PlaceState.{packed_at};
ghost use Rattle.law_machine.specs.Trying.{report};

use chorus_calls::Caller;
use chorus_entry::{Act, Answer, Cargo, Entry, MsgId, Packet};
use law_machine::Outgoing;
use place_journal::Journal;
use std::collections::VecDeque;

/// The caller's next entry at this place: its clock is above that of the place and of the caller.
pub(crate) fn next_entry(journal: &Journal, place: u16, caller: &Caller, act: Act) -> Entry
    requires { max (last_clock journal.now.past) caller.now.last + 1 < 2 ^ 64 }
    ensures { result ≡ next_entry place act caller.now journal.now }
{
    let clock = journal.clock().max(caller.last()) + 1;
    let seat = caller.seat();
    Entry {
        clock,
        place,
        seat,
        act,
    }
}

/// Appends the caller's next entry at this place, by an act that makes no group. Its clock becomes the caller's.
pub(crate) fn say(journal: &mut Journal, place: u16, caller: &mut Caller, act: Act)
    requires follows { MayFollow journal.old.layout journal.old.groups act }
    requires room { 1 ≤ journal.old.spare }
    requires clock { max (last_clock journal.old.past) caller.old.last + 1 < 2 ^ 64 }
    ensures journal { journal.new ≡ after_entry place act caller.old journal.old }
    ensures caller { caller.new ≡ after_tick caller.old (next_clock journal.old caller.old) }
{
    let entry = next_entry(journal, place, caller, act);
    caller.tick(entry.clock);
    journal.append(entry);
}

/// Puts a packet that an entry causes, which carries this clock, in the room that is there.
pub(crate) fn put(puts: &mut VecDeque<Outgoing>, to: u16, clock: u64, from: u16, cargo: Cargo)
    requires { 1 ≤ deque_capacity puts.old - length puts.old.items }
    ensures items { puts.new.items ≡ puts.old.items ++ packed_at clock from (to, cargo) ∷ [] }
    ensures len { length puts.new.items ≡ length puts.old.items + 1 }
    ensures room { deque_capacity puts.new ≡ deque_capacity puts.old }
{
    let packet = Packet { clock, from, cargo };
    puts.push_back_reserved(Outgoing { to, packet });
}

/// Puts a report of what became of a message that was posted at the place `home`, where that is another place.
pub(crate) fn put_report(
    puts: &mut VecDeque<Outgoing>,
    clock: u64,
    place: u16,
    home: u16,
    id: MsgId,
    answer: Answer,
)
    requires { length (report place home id answer) ≤
        deque_capacity puts.old - length puts.old.items }
    ensures items { puts.new.items ≡
        puts.old.items ++ map (packed_at clock place) (report place home id answer) }
    ensures len { length puts.new.items ≡
        length puts.old.items + length (report place home id answer) }
    ensures room { deque_capacity puts.new ≡ deque_capacity puts.old }
{
    if home != place && answer.is_final() {
        put(puts, home, clock, place, Cargo::Report { id, answer });
    }
}
