//! A place of a layout.

ghost use Rattle.std.specs.Prelude.{◌≡◌, ℕ, ◌<◌, ◌≤◌, ◌↔◌, true, length, reverse, slice_get, IfOk, IfErr, IfSome, OnOk, OnErr, IsOk, IsTrue, IsErrOf};
ghost use Rattle.chorus_ui.specs.declared.kind.Kind.TheVariants as Kind;
ghost use Rattle.chorus_ui.specs.declared.limits.TheConstants.{CLOCK_LIMIT};
ghost use Rattle.chorus_ui.specs.Layout.{has_site, has_place, places, IsLayout};
ghost use Rattle.chorus_entry.specs.Command.{is_post};
ghost use Rattle.chorus_entry.specs.Ranges.{has_ranges};
ghost use Rattle.chorus_world.specs.Places.{last_clock};
ghost use Rattle.place_outbox.specs.Waiting.{nothing_to, list_to, without_first, with_first, count, MayPutBack};
ghost use Rattle.law_machine.specs.PlaceState.{started, newest, greatest_clock};
ghost use Rattle.law_machine.specs.PlaceMachine.{begun, begun_by};
ghost use Rattle.law_machine.specs.Lawful.{is_lawful};
ghost use Rattle.law_machine.specs.Outcomes.{outcome};
ghost use Rattle.law_bounds.specs.Bounds.{AreWaitingWithin};
ghost use Rattle.chorus_place.specs.Calls.{state, place_of, is_call, Called, IsWornAt, IsWornBack, MayCall, Stays, TakesNone, WorkedOff};

use crate::fault::PlaceFault;
use crate::journal_outcome::outcome_in;
use crate::perform::perform;
use crate::tables::Tables;
use crate::turns::{is_lawful, make_ready, open};
use chorus_calls::Caller;
use chorus_entry::{Command, Entry, MsgId, Packet};
use chorus_ports::Ports;
use chorus_ui::{CLOCK_LIMIT, Layout, Ui};
use law_bounds::are_within;
use law_machine::{Outcome, Reply};
use place_outbox::Outbox;
use std::alloc::{AllocError, Global};
use std::marker::Model;

/// A place of a layout. It is one pointer, so that it costs little to hand on.
#[derive(Drop)]
pub struct Place {
    tables: Box<Tables>,
}

impl Model for Place {
    ghost use Rattle.chorus_place.specs.Calls as calls;

    ghost Value = { calls.Place };

    ghost view = { λ p. calls.place_of p.tables.value };

    ghost invariant = { λ p. calls.IsAtRest p.tables.value };
}

impl Place {
    /// The place of this number, one of the layout, on which nothing happened yet. There is room for no entry or packet: what comes
    /// takes memory until `reserve`. The only error is want of memory.
    pub fn start(alloc: Global, layout: Layout, number: u16) -> Result<Place, AllocError>
        requires { has_place layout number ≡ true }
        ensures state { IfOk result (λ place. state place ≡ started layout number) }
        ensures out { IfOk result (λ place. place.out.lists ≡ nothing_to (places layout)) }
        ensures puts { IfOk result (λ place. place.out.puts ≡ 0) }
        ensures room { IfOk result (λ place. place.spare ≡ 0) }
        ensures layout { IfOk result (λ place. IsLayout layout) }
    {
        let tables = Tables::start(alloc, layout, number)?;
        let tables = Box::new(alloc, tables)?;
        Ok(Place { tables })
    }

    /// The layout of the place.
    pub fn layout(&self) -> Layout
        ensures { result ≡ self.now.layout }
    {
        self.tables.layout()
    }

    /// The number of the place, one of the layout.
    pub fn number(&self) -> u16
        ensures value { result ≡ self.now.number }
        ensures in_layout { has_place self.now.layout self.now.number ≡ true }
    {
        self.tables.number()
    }

    /// The journal of the place: all its entries, in order.
    pub fn journal(&self) -> &[Entry]
        ensures { reverse result.now ≡ self.now.journal }
    {
        self.tables.entries()
    }

    /// The tables of the place, to be read.
    pub fn tables(&self) -> &Tables
        ensures { place_of result.now ≡ self.now }
    {
        &self.tables
    }

    /// The clock of the place's last entry, or 0.
    pub fn clock(&self) -> u64
        ensures { result ≡ last_clock self.now.journal }
    {
        self.tables.clock()
    }

    /// How many ports the place holds.
    pub fn held(&self) -> u16
        ensures { result ≡ length self.now.ports }
    {
        self.tables.held()
    }

    /// How many packets wait to go to other places.
    pub fn waiting(&self) -> u64
        ensures { result ≡ count self.now.out.lists }
    {
        self.tables.waiting()
    }

    /// How many packets the place's turns have put so far. Between two readings the count grows by the packets that the
    /// turns in between put.
    pub fn puts(&self) -> u64
        ensures { result ≡ self.now.out.puts }
    {
        self.tables.puts_before()
    }

    /// The newest location of a port that the place knows: the place where the port is, and its hop.
    pub fn newest(&self, port: Ui) -> (u16, u64)
        requires kind { port.kind ≡ Kind.Port }
        requires site { has_site self.now.layout port.site ≡ true }
        ensures place { result.0 ≡ (newest (state self.now) port).to }
        ensures hop { result.1 ≡ (newest (state self.now) port).hop }
        ensures in_layout { has_place self.now.layout result.0 ≡ true }
    {
        self.tables.newest(port)
    }

    /// What became of the message. It reads the journal once, and takes no memory.
    pub fn outcome(&self, id: MsgId) -> Outcome
        ensures { result ≡ outcome id self.now.journal }
    {
        outcome_in(self.tables.entries(), id)
    }

    /// How many entries and packets need no memory.
    pub fn spare(&self) -> u64
        ensures { result ≡ self.now.spare }
    {
        self.tables.spare() as u64
    }

    /// Makes room for at least so many entries and packets. Nothing else changes, whatever the answer.
    pub fn reserve(&mut self, more: u32) -> Result<(), AllocError>
        ensures same { Stays self.old self.new }
        ensures ok { OnOk result (more ≤ self.new.spare) }
    {
        self.tables.make_room(more as usize, more as usize)
    }

    /// Performs a caller's command: it appends the entries of the turn, changes what they say, and gives the reply. The packets that
    /// they cause wait to go.
    ///
    /// It is refused as worn exactly where the greater of the place's and the caller's last clocks is at least 2^62, and else only
    /// for want of memory. A refusal changes nothing, and drops the command. Before a command that posts the caller has posted fewer
    /// than 2^32 - 1 messages, and before a call its client has given fewer than 2^32 - 1 numbers.
    pub fn act(&mut self, caller: &mut Caller, command: Command) -> Result<Reply, PlaceFault>
        requires may { MayCall (state self.old) caller.old command }
        requires posts { is_post command ≡ true → caller.old.posts < u32.MAX }
        requires given { is_call command ≡ true → caller.old.client.given < u32.MAX }
        ensures called { IfOk result (λ r.
            Called self.old self.new caller.old caller.new command r) }
        ensures worn { (clock : ℕ) → IsErrOf result (PlaceFault.Worn clock) ↔
            IsWornAt clock (begun (state self.old) caller.old) }
        ensures refused { OnErr result (Stays self.old self.new × (caller.new ≡ caller.old)) }
        ensures takes_no_memory { TakesNone command (state self.old) caller.old →
            2 ≤ self.old.spare → greatest_clock (begun (state self.old) caller.old) < CLOCK_LIMIT →
            IsOk result }
    {
        let clock = self.tables.clock().max(caller.last());
        if clock >= CLOCK_LIMIT {
            return Err(PlaceFault::Worn { clock });
        }
        are_within(caller, &command);
        let tables = &mut *self.tables;
        let reply = perform(tables, command, caller)?;
        tables.send_out();
        Ok(reply)
    }

    /// Whether the packet, which came from the place `from`, may be worked off here.
    pub fn lawful(&self, from: u16, packet: &Packet) -> bool
        ensures { result ≡ is_lawful from packet.now (state self.now) }
    {
        is_lawful(&self.tables, from, packet)
    }

    /// Works off a lawful packet, for a caller whose clock is then at least the packet's. The packets that it causes wait to go.
    ///
    /// It is refused as worn exactly where the greatest of the place's, the caller's and the packet's clocks is at least 2^62, and
    /// else only for want of memory. A refusal hands the packet back and changes nothing.
    pub fn work(&mut self, caller: &mut Caller, packet: Packet) -> Result<(), (Packet, PlaceFault)>
        requires { is_lawful packet.from packet (state self.old) ≡ true }
        ensures worked { OnOk result (WorkedOff self.old self.new caller.old caller.new packet) }
        ensures worn { (back : Packet) (clock : ℕ) → IsErrOf result (back, PlaceFault.Worn clock) ↔
            IsWornBack clock back packet (begun_by (state self.old) caller.old packet) }
        ensures back { IfErr result (λ refused. refused.0 ≡ packet) }
        ensures refused { OnErr result (Stays self.old self.new × (caller.new ≡ caller.old)) }
    {
        let heard = caller.last().max(packet.clock);
        let clock = self.tables.clock().max(heard);
        if clock >= CLOCK_LIMIT {
            return Err((packet, PlaceFault::Worn { clock }));
        }
        let tables = &mut *self.tables;
        let ready = match make_ready(tables, &packet) {
            Ok(ready) => ready,
            Err(none) => return Err((packet, PlaceFault::Memory(none))),
        };
        caller.tick(heard);
        open(tables, packet, ready, caller);
        tables.send_out();
        Ok(())
    }

    /// Takes out the first packet that waits to go to the place; None exactly where none waits, and then no packet moves. The packet
    /// is within its ranges, so it has a frame.
    #[tactic(auto, using(crate::proofs::Bounded::out_at_rest, crate::proofs::Bounded::taken_within))]
    pub fn out(&mut self, to: u16) -> Option<Packet>
        ensures value { result ≡ slice_get (list_to to self.old.out.lists) 0 }
        ensures state { state self.new ≡ state self.old }
        ensures waits { self.new.out.lists ≡ without_first to self.old.out.lists }
        ensures puts { self.new.out.puts ≡ self.old.out.puts }
        ensures spare { self.old.spare ≤ self.new.spare }
        ensures ranges { IfSome result (λ packet. IsTrue (has_ranges packet)) }
        ensures taken { IfSome result (λ packet. MayPutBack to self.new.out) }
    {
        self.tables.take_out(to)
    }

    /// Puts a packet that was taken out last back, in front of those that wait to go to the place. It is within its ranges, as each
    /// packet that is taken out.
    pub fn put_back(&mut self, to: u16, packet: Packet)
        requires back { MayPutBack to self.old.out }
        requires ranges { IsTrue (has_ranges packet) }
        ensures state { state self.new ≡ state self.old }
        ensures waits { self.new.out.lists ≡ with_first to packet self.old.out.lists }
        ensures puts { self.new.out.puts ≡ self.old.out.puts }
        ensures spare { self.old.spare ≤ self.new.spare }
    {
        self.tables.put_back(to, packet);
    }

    /// Takes the place apart: its journal, in order, the packets that wait to go, each within its ranges, and the ports that it
    /// holds.
    pub fn finish(self) -> (Vec<Entry>, Outbox, Ports)
        ensures journal { reverse result.0.items ≡ self.journal }
        ensures out { result.1.lists ≡ self.out.lists }
        ensures ranges { AreWaitingWithin result.1.lists }
        ensures ports { result.2.records ≡ self.ports }
    {
        Box::into_inner(self.tables).finish()
    }
}
