//! The world of one holder per port: all entries so far, and which entry may come next.

ghost use Rattle.std.specs.Prelude.{◌≡◌, Some, OnOk, OnErr, IfOk, IfErr, true, reverse};
ghost use Rattle.std.specs.Option.{option_copied};
ghost use Rattle.chorus_world.specs.Messages.{verdict};
ghost use Rattle.chorus_world.specs.Ports.{fate};
ghost use Rattle.chorus_checker.specs.Refusals.{IsRefusal};
ghost use Rattle.chorus_world.specs.Steps.{opening, is_legal, next};
ghost use Rattle.chorus_world.specs.Views.{on};
ghost use Rattle.chorus_checker.specs.Worlds.{is_next, is_on_time};

mod acts;
mod choosing;
mod deciding;
mod due;
mod groups;
mod ports;
mod seats;
mod sending;

use crate::fault::WorldFault;
use crate::rule::act_number;
use checker_ledger::{Ledger, PortState};
use chorus_entry::{Act, Answer, Entry, MsgId};
use chorus_ui::{Layout, Ui};
use std::alloc::{AllocError, Global};
use std::marker::Model;

/// The world of one holder per port: the layout, and all entries so far. Contracts see the entries, the newest first.
#[derive(Drop)]
pub struct World {
    ledger: Ledger,
}

impl Model for World {
    ghost use Rattle.chorus_world.specs.Steps.{State};

    ghost Value = { State };

    ghost view = { λ w. w.ledger };
}

impl World {
    /// The empty world: no ports, no messages, no groups.
    pub fn opening(alloc: Global, layout: Layout) -> Result<World, AllocError>
        ensures { IfOk result (λ w. w ≡ opening layout) }
    {
        Ok(World {
            ledger: Ledger::opening(alloc, layout),
        })
    }

    /// What became of the port. None exactly where it is not made. Takes no memory.
    pub fn port(&self, ui: Ui) -> Option<&PortState>
        ensures value { option_copied result ≡ fate (on ui self.now.past) }
        ensures legal { is_legal self.now.layout self.now.past ≡ true }
    {
        self.ledger.port(ui)
    }

    /// All entries so far, the oldest first. Takes no memory.
    pub fn entries(&self) -> &[Entry]
        ensures value { result.now ≡ reverse self.now.past }
        ensures legal { is_legal self.now.layout self.now.past ≡ true }
    {
        self.ledger.entries()
    }

    /// The answer of the verdict of the message. None exactly where there is no verdict of it. Takes no memory.
    pub fn verdict(&self, id: MsgId) -> Option<Answer>
        ensures value { result ≡ verdict id self.now.past }
        ensures legal { is_legal self.now.layout self.now.past ≡ true }
    {
        self.ledger.verdict(id)
    }

    /// The ledger of all entries so far, which tells what they have made of each message, port, place and caller.
    pub fn ledger(&self) -> &Ledger
        ensures { result.now ≡ self.now }
    {
        &self.ledger
    }

    /// The layout of the world.
    fn layout(&self) -> Layout
        ensures { result ≡ self.now.layout }
    {
        self.ledger.layout()
    }

    /// Whether the entry's place is one of the layout, and its clock above the last clock there.
    fn is_timely(&self, entry: &Entry) -> bool
        ensures { result ≡ is_on_time self.now entry.now }
    {
        self.layout().has_place(entry.place) && self.ledger.last_clock(entry.place) < entry.clock
    }

    /// Whether the entry may come next in the world by its act, the kinds of its names and a reply that was just taken.
    fn act_follows(&self, entry: &Entry) -> bool
        ensures { result ≡ is_next self.now entry.now }
    {
        let closes = matches!(entry.act, Act::Done { .. } | Act::Late { .. });
        let owed = self.ledger.just_taken(entry.place).is_some();
        entry.act.has_kinds() && (closes || !owed) && self.act_may(entry)
    }

    /// Takes the entry as the next one, and keeps it. Refused as not legal exactly where the step relation gives no world
    /// after it; a refusal changes nothing, and the entry is dropped.
    pub fn apply(&mut self, entry: Entry) -> Result<(), WorldFault>
        ensures ok { OnOk result (next self.old entry ≡ Some self.new) }
        ensures refused { IfErr result (IsRefusal self.old entry) }
        ensures unchanged { OnErr result (self.new ≡ self.old) }
    {
        if !self.is_timely(&entry) {
            return Err(WorldFault::NotLegal { rule: 0 });
        }
        if !self.act_follows(&entry) {
            return Err(WorldFault::NotLegal {
                rule: act_number(&entry.act),
            });
        }
        self.ledger.append(entry).map_err(WorldFault::Memory)
    }
}
