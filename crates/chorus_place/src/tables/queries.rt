//! The tables of a place, read.

ghost use Rattle.std.specs.Prelude.{◌≡◌, ◌^◌, ◌<◌, ◌≤◌, min, true, length, reverse, is_some, IsSome, IfOk, IfSome};
ghost use Rattle.chorus_ui.specs.declared.ui.Ui.{Ui};
ghost use Rattle.chorus_ui.specs.declared.kind.Kind.TheVariants as Kind;
ghost use Rattle.chorus_ui.specs.declared.limits.TheConstants.{PENDING_LIMIT};
ghost use Rattle.chorus_ui.specs.Layout.{has_site, has_place};
ghost use Rattle.chorus_world.specs.Places.{last_clock, is_deleted, is_made_here, ports_made};
ghost use Rattle.chorus_world.specs.Views.{is_group};
ghost use Rattle.chorus_world.specs.Groups.{groups_made};
ghost use Rattle.chorus_world.specs.Groups as world;
ghost use Rattle.chorus_groups.specs.Groups.{group_of, members, rotation};
ghost use Rattle.chorus_ports.specs.Table.{find};
ghost use Rattle.place_outbox.specs.Waiting.{count};
ghost use Rattle.law_machine.specs.Own.{held_by};
ghost use Rattle.law_machine.specs.PlaceState.{newest};
ghost use Rattle.chorus_place.specs.PlaceTables.Going.{waits_for};
ghost use Rattle.chorus_place.specs.PlaceTables.Ports.{ids_of};
ghost use Rattle.chorus_place.specs.PlaceTables.Tables.{state};
ghost use Rattle.chorus_place.specs.PlaceTables.AtOnce.{IsFree};

use crate::tables::Tables;
use crate::tables::pending::ids_of;
use chorus_entry::{Entry, Ids};
use chorus_groups::Groups;
use chorus_hints::Hints;
use chorus_ports::Ports;
use chorus_ui::{Layout, Ui};
use place_outbox::Outbox;
use place_unsettled::{Key, Unheard, Waits};
use std::alloc::{AllocError, Global};

impl Tables {
    /// The layout of the place.
    pub(crate) fn layout(&self) -> Layout
        ensures { result ≡ self.now.layout }
    {
        self.layout
    }

    /// Where the memory of the tables comes from.
    pub fn allocator(&self) -> Global {
        *self.puts.allocator()
    }

    /// The records of the ports that are held here.
    pub fn ports(&self) -> &Ports
        ensures { result.now ≡ self.now.ports }
    {
        &self.ports
    }

    /// Where ports are, as far as the place knows.
    pub fn hints(&self) -> &Hints
        ensures { result.now ≡ self.now.known }
    {
        &self.hints
    }

    /// The outbox, to be read: the packets that wait to go to other places.
    pub fn out(&self) -> &Outbox
        ensures { result.now ≡ self.now.out }
    {
        &self.out
    }

    /// The messages that wait, by port and route.
    pub fn waits(&self) -> &Waits
        ensures { result.now ≡ self.now.waits }
    {
        &self.waits
    }

    /// The posts that may still be heard of.
    pub fn unheard(&self) -> &Unheard
        ensures { result.now ≡ self.now.unheard }
    {
        &self.unheard
    }

    /// Whether the port was made here.
    pub(crate) fn is_made(&self, port: Ui) -> bool
        ensures { result ≡ is_made_here port self.now.journal.past }
    {
        self.journal.is_made(port)
    }

    /// Whether the port was deleted here.
    pub fn is_deleted(&self, port: Ui) -> bool
        ensures { result ≡ is_deleted port self.now.journal.past }
    {
        self.journal.is_deleted(port)
    }

    /// How many ports were made here.
    pub fn ports_made(&self) -> u64
        ensures { result ≡ ports_made self.now.journal.past }
    {
        self.journal.ports_made()
    }

    /// How many groups were made here.
    pub(crate) fn groups_made(&self) -> u64
        ensures { result ≡ groups_made self.now.journal.past }
    {
        self.journal.groups_made()
    }

    /// The groups that were made here, with their members and rotation places.
    pub fn groups(&self) -> &Groups
        ensures groups { result.now ≡ self.now.journal.groups }
        ensures members { (g : Ui) →
            members g result.now ≡ world.members g self.now.journal.past }
        ensures rotation { (g : Ui) →
            rotation g result.now ≡ world.rotation g self.now.journal.past }
        ensures made { length result.now.groups ≡ groups_made self.now.journal.past }
        ensures named { (g : Ui) →
            is_some (group_of g result.now.groups) ≡ is_group g self.now.journal.past }
    {
        self.journal.groups()
    }

    /// How many messages wait for a port and route.
    pub(crate) fn waiting_for(&self, key: &Key) -> usize
        ensures len { result ≡ length (waits_for key.now self.now) }
        ensures small { result < 2 ^ 63 }
    {
        self.waits.len(key)
    }

    /// The newest location of a port that the place knows: the place where the port is, and its hop.
    pub(crate) fn newest(&self, port: Ui) -> (u16, u64)
        requires kind { port.kind ≡ Kind.Port }
        requires site { has_site self.now.layout port.site ≡ true }
        ensures place { result.0 ≡ (newest (state self.now) port).to }
        ensures hop { result.1 ≡ (newest (state self.now) port).hop }
        ensures in_layout { has_place self.now.layout result.0 ≡ true }
    {
        self.hints.newest(port)
    }

    /// The hop of the port, where a direct message to it is decided here at once: none waits for the port, and it is located here.
    /// Else None.
    pub(crate) fn hop_at_once(&self, port: Ui) -> Option<u64>
        requires { port.kind ≡ Kind.Port }
        ensures { IfSome result (λ hop. IsFree port hop (state self.now)) }
    {
        let key = Key { port, route: None };
        if !self.waits.is_free(&key) {
            return None;
        }
        if !self.layout.has_site(port.site()) {
            return None;
        }
        let (to, hop) = self.hints.newest(port);
        if to != self.number {
            return None;
        }
        Some(hop)
    }

    /// The number of the place, one of the layout.
    pub(crate) fn number(&self) -> u16
        ensures value { result ≡ self.now.number }
        ensures in_layout { has_place self.now.layout self.now.number ≡ true }
    {
        self.number
    }

    /// All entries of the place, in order.
    pub fn entries(&self) -> &[Entry]
        ensures { reverse result.now ≡ self.now.journal.past }
    {
        self.journal.entries()
    }

    /// The clock of the place's last entry, or 0.
    pub(crate) fn clock(&self) -> u64
        ensures { result ≡ last_clock self.now.journal.past }
    {
        self.journal.clock()
    }

    /// Reads how many entries and packets need no memory.
    pub(crate) fn spare(&self) -> usize
        ensures { result ≡ min self.now.journal.spare self.now.room }
    {
        let put = self.puts.len();
        let packets = (self.puts.capacity() - put).min(self.out.spare() - put);
        self.journal.spare().min(packets)
    }

    /// Reads how many packets wait to go to other places.
    pub(crate) fn waiting(&self) -> u64
        ensures { result ≡ count self.now.out.lists }
    {
        self.out.waiting()
    }

    /// Reads how many packets the turns put that have ended.
    pub(crate) fn puts_before(&self) -> u64
        ensures { result ≡ self.now.out.puts }
    {
        self.out.puts()
    }

    /// How many ports are held here.
    pub(crate) fn held(&self) -> u16
        ensures { result ≡ length (state self.now).ports }
    {
        self.ports.len()
    }

    /// Whether the actor holds the port here.
    pub(crate) fn is_held_by(&self, port: Ui, actor: Ui) -> bool
        ensures { result ≡ is_some (held_by actor (find port self.now.ports.records)) }
    {
        match self.ports.get(port) {
            Some(record) => record.actor == actor,
            None => false,
        }
    }

    /// The ids of the messages that wait in a port that is held here.
    pub(crate) fn ids_in(&self, port: Ui) -> Result<Ids, AllocError>
        requires held { IsSome (find port self.now.ports.records) }
        ensures ids { IfOk result (λ ids. IfSome (find port self.now.ports.records)
            (λ r. ids ≡ ids_of r.pending)) }
        ensures few { IfOk result (λ ids. length ids ≤ PENDING_LIMIT) }
    {
        let record = self.ports.get(port).unwrap();
        ids_of(*self.puts.allocator(), &record.pending)
    }
}
