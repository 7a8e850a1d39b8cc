//! All entries so far, with what they say in tables beside them.

ghost use Rattle.std.specs.Prelude.{◌≡◌, OnOk, OnErr, true, reverse};
ghost use Rattle.chorus_world.specs.Steps.{opening, may, is_legal};
ghost use Rattle.checker_ledger.specs.Worlds.{with_entry};

mod groups;
mod messages;
mod places;
mod seats;
mod sending;

use crate::tables::Tables;
use chorus_entry::Entry;
use chorus_ui::Layout;
use std::alloc::{AllocError, Global};
use std::marker::Model;

/// All entries so far, which are legal, and what they say, each in constant time. Contracts see a world: the layout and
/// the entries, the newest first.
#[derive(Drop)]
pub struct Ledger {
    layout: Layout,
    entries: Vec<Entry>,
    tables: Tables,
}

impl Model for Ledger {
    ghost use Rattle.std.specs.Prelude.{reverse};
    ghost use Rattle.chorus_world.specs.Steps.{State};
    ghost use Rattle.checker_ledger.specs.Ties.{IsLedger};

    ghost Value = { State };

    ghost view = { λ w. record { layout = w.layout; past = reverse w.entries.items } };

    ghost invariant = { λ w. IsLedger w.layout w.entries.items w.tables };
}

impl Ledger {
    /// The ledger of no entries. Takes no memory.
    pub fn opening(alloc: Global, layout: Layout) -> Ledger
        ensures { result ≡ opening layout }
    {
        Ledger {
            layout,
            entries: Vec::new(alloc),
            tables: Tables::new(alloc),
        }
    }

    /// The layout of the ledger.
    pub fn layout(&self) -> Layout
        ensures value { result ≡ self.now.layout }
        ensures legal { is_legal self.now.layout self.now.past ≡ true }
    {
        self.layout
    }

    /// All entries so far, the oldest first.
    pub fn entries(&self) -> &[Entry]
        ensures value { result.now ≡ reverse self.now.past }
        ensures legal { is_legal self.now.layout self.now.past ≡ true }
    {
        self.entries.as_slice()
    }

    /// Takes the entry, which may come next. An error leaves the ledger as it was.
    pub fn append(&mut self, entry: Entry) -> Result<(), AllocError>
        requires { may self.old.layout self.old.past entry ≡ true }
        ensures ok { OnOk result (self.new ≡ with_entry self.old entry) }
        ensures err { OnErr result (self.new ≡ self.old) }
    {
        let alloc = *self.entries.allocator();
        self.entries.reserve(1)?;
        self.tables.make_room()?;
        self.tables.grow_lists(alloc, &entry)?;
        let index = self.entries.len();
        self.tables.grow_rows(alloc, self.layout, &entry, index);
        self.tables.shorten(&entry);
        self.entries.push_reserved(entry);
        Ok(())
    }
}
