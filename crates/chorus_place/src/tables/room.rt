//! Room that is taken before a turn changes anything.

ghost use Rattle.std.specs.Prelude.{◌≡◌, ◌<◌, ◌≤◌, IsOk, OnOk};
ghost use Rattle.place_unsettled.specs.declared.wait.Key.{Key};
ghost use Rattle.place_unsettled.specs.Queues.{queue, room};
ghost use Rattle.chorus_calls.specs.Callers.{Seated};
ghost use Rattle.chorus_place.specs.PlaceTables.Groups.{HaveLines};
ghost use Rattle.chorus_place.specs.PlaceTables.Tables.{turn};
ghost use Rattle.chorus_place.specs.PlaceTables.Room.{KeepsRoom, Roomier};

use crate::tables::Tables;
use crate::tables::copies::make_lines;
use chorus_ui::Ui;
use place_unsettled::Key;
use std::alloc::AllocError;

impl Tables {
    /// Takes room for so many entries and packets more. All else stays, whatever the answer. Takes no memory where that room is
    /// there.
    pub(crate) fn make_room(&mut self, entries: usize, packets: usize) -> Result<(), AllocError>
        ensures same { Roomier self.old self.new }
        ensures kept { KeepsRoom self.old self.new }
        ensures turn { (c : Seated) → turn self.new c ≡ turn self.old c }
        ensures spare { OnOk result (entries ≤ self.new.journal.spare) }
        ensures room { OnOk result (packets ≤ self.new.room) }
        ensures takes_no_memory { entries ≤ self.old.journal.spare → packets ≤ self.old.room →
            IsOk result }
    {
        self.make_entry_room(entries)?;
        self.make_packet_room(packets)
    }

    /// Takes room for so many entries more.
    fn make_entry_room(&mut self, entries: usize) -> Result<(), AllocError>
        ensures same { Roomier self.old self.new }
        ensures kept { KeepsRoom self.old self.new }
        ensures turn { (c : Seated) → turn self.new c ≡ turn self.old c }
        ensures spare { OnOk result (entries ≤ self.new.journal.spare) }
        ensures room { self.new.room ≡ self.old.room }
        ensures takes_no_memory { entries ≤ self.old.journal.spare → IsOk result }
    {
        if self.journal.spare() >= entries {
            return Ok(());
        }
        self.journal.reserve(entries)
    }

    /// Takes room for so many packets more.
    fn make_packet_room(&mut self, packets: usize) -> Result<(), AllocError>
        ensures same { Roomier self.old self.new }
        ensures kept { KeepsRoom self.old self.new }
        ensures turn { (c : Seated) → turn self.new c ≡ turn self.old c }
        ensures spare { self.new.journal.spare ≡ self.old.journal.spare }
        ensures room { OnOk result (packets ≤ self.new.room) }
        ensures takes_no_memory { packets ≤ self.old.room → IsOk result }
    {
        self.puts.reserve(packets)?;
        let all = self.puts.len() + packets;
        if self.out.spare() >= all {
            return Ok(());
        }
        self.out.reserve(all)
    }

    /// Takes room for the record of one port more. All else stays, whatever the answer.
    pub(crate) fn make_port_room(&mut self) -> Result<(), AllocError>
        ensures turn { (c : Seated) → turn self.new c ≡ turn self.old c }
        ensures same { self.new ≡ record self.old { ports = self.new.ports } }
        ensures records { self.new.ports.records ≡ self.old.ports.records }
        ensures slot { OnOk result (0 < self.new.ports.spare) }
        ensures kept { KeepsRoom self.old self.new }
    {
        self.ports.reserve()
    }

    /// Makes room for a message that will wait for this port and route.
    pub(crate) fn make_line(&mut self, key: &Key) -> Result<(), AllocError>
        ensures turn { (c : Seated) → turn self.new c ≡ turn self.old c }
        ensures line { OnOk result (0 < room self.new.waits key.now) }
        ensures same { self.new ≡ record self.old { waits = self.new.waits } }
        ensures queues { (k : Key) → queue self.new.waits k ≡ queue self.old.waits k }
        ensures kept { KeepsRoom self.old self.new }
    {
        self.waits.reserve(key)
    }

    /// Takes room for one message more for each of these members. All else stays, whatever the answer.
    pub(crate) fn make_copy_lines(&mut self, group: Ui, members: &[Ui]) -> Result<(), AllocError>
        ensures turn { (c : Seated) → turn self.new c ≡ turn self.old c }
        ensures same { self.new ≡ record self.old { waits = self.new.waits } }
        ensures queues { (k : Key) → queue self.new.waits k ≡ queue self.old.waits k }
        ensures lines { OnOk result (HaveLines group self.new.waits members.now) }
        ensures kept { KeepsRoom self.old self.new }
    {
        make_lines(&mut self.waits, group, members)
    }
}
