//! The entries of a system that keeps the promises so far, with what they say in tables beside them.

ghost use Rattle.std.specs.Prelude.{◌≡◌, IfErr, OnOk, OnErr, None, Some, reverse, true};
ghost use Rattle.std.specs.Option.{option_copied};
ghost use Rattle.chorus_world.specs.Groups.{is_chosen};
ghost use Rattle.chorus_world.specs.Messages.{progress, verdict};
ghost use Rattle.chorus_world.specs.Places.{last_clock};
ghost use Rattle.chorus_world.specs.Posts.{post_of, posted_in};
ghost use Rattle.chorus_world.specs.Steps.{opening};
ghost use Rattle.chorus_world.specs.Views.{about, at, by};
ghost use Rattle.checker_ledger.specs.Worlds.{with_entry};
ghost use Rattle.checker_rows.specs.Messages.{in_brief};
ghost use Rattle.judge_promises.specs.Breaches.{breach_by, keeps_promises};
ghost use Rattle.judge_promises.specs.Logs.{IsRefused};
ghost use Rattle.judge_promises.specs.Terms.{goes_to, is_in_order, is_new_request, is_old_request, last_number, port_of, read};

use crate::blaming::blame_with;
use crate::breaking::breach_by;
use crate::tables::{
    Tables, is_above, is_chosen_in, is_new, is_old, last_clock, last_number, route_in, sending_in,
    tag_in,
};
use checker_ledger::{PortState, fate_in};
use checker_rows::messages::{post_in, progress_in, verdict_in};
use checker_rows::posting::Posting;
use chorus_entry::{Answer, Entry, MsgId};
use chorus_ui::{Layout, Ui};
use chorus_world::Progress;
use judge_rules::Blame;
use std::alloc::{AllocError, Global};
use std::marker::Model;
use thiserror::Error;

/// Why a log does not take an entry. It is then as it was.
#[derive(Debug, Drop, Error)]
pub enum LogFault {
    /// The entry breaks a promise: this is said of it.
    #[error("the entry breaks a promise")]
    Broken { blame: Blame },
    /// There was no memory.
    #[error(transparent)]
    Memory(AllocError),
}

/// The entries of a system, which keep the promises so far. Contracts see the layout and the entries, the newest first.
#[derive(Drop)]
pub struct Log {
    layout: Layout,
    entries: Vec<Entry>,
    tables: Tables,
}

impl Model for Log {
    ghost use Rattle.std.specs.Prelude.{reverse};
    ghost use Rattle.chorus_world.specs.Steps.{State};
    ghost use Rattle.judge_promises.specs.Tables.{IsLog};

    ghost Value = { State };

    ghost view = { λ w. record { layout = w.layout; past = reverse w.entries.items } };

    ghost invariant = { λ w. IsLog w.layout w.entries.items w.tables };
}

impl Log {
    /// The log of no entries. Takes no memory.
    pub fn opening(alloc: Global, layout: Layout) -> Log
        ensures { result ≡ opening layout }
    {
        Log {
            layout,
            entries: Vec::new(alloc),
            tables: Tables::new(alloc),
        }
    }

    /// All entries so far, also those that are passed over, the oldest first.
    pub fn entries(&self) -> &[Entry]
        ensures value { result.now ≡ reverse self.now.past }
        ensures kept { keeps_promises self.now.layout self.now.past ≡ true }
    {
        self.entries.as_slice()
    }

    /// The layout of the log.
    pub(crate) fn layout(&self) -> Layout
        ensures { result ≡ self.now.layout }
    {
        self.layout
    }

    /// What became of the port in the log. None exactly where it is not made.
    pub(crate) fn port(&self, port: Ui) -> Option<&PortState>
        ensures { option_copied result ≡ port_of (read self.now.past) port }
    {
        fate_in(&self.tables.ports, port)
    }

    /// How far the message is on its way in the log.
    pub(crate) fn progress(&self, id: MsgId) -> Progress
        ensures { result ≡ progress (about id (read self.now.past)) }
    {
        progress_in(&self.tables.messages, id)
    }

    /// The answer of the message's verdict in the log.
    pub(crate) fn verdict(&self, id: MsgId) -> Option<Answer>
        ensures { result ≡ verdict id (read self.now.past) }
    {
        verdict_in(&self.tables.messages, id)
    }

    /// Whether the post has its choice of members in the log, or has none.
    pub(crate) fn is_chosen(&self, id: MsgId) -> bool
        ensures { result ≡ is_chosen id (read self.now.past) }
    {
        is_chosen_in(&self.tables.messages, id)
    }

    /// Whether the message was sent to the port in the log.
    pub(crate) fn goes_to(&self, id: MsgId, port: Ui) -> bool
        ensures { result ≡ goes_to id port (read self.now.past) }
    {
        match sending_in(&self.tables.messages, id) {
            Some(sending) => sending.port == port,
            None => false,
        }
    }

    /// The post under this very id in the log, without its body.
    pub(crate) fn posted(&self, id: MsgId) -> Option<Posting>
        ensures { result ≡ in_brief (posted_in id (by id.seat (read self.now.past))) }
    {
        post_in(&self.tables.messages, id)
    }

    /// The post in the log that the message is, or is a copy of, without its body.
    pub(crate) fn post_of(&self, id: MsgId) -> Option<Posting>
        ensures { result ≡ in_brief (post_of id (read self.now.past)) }
    {
        self.tables.post_of(id)
    }

    /// The number of the caller's last post in the log, or 0.
    pub(crate) fn last_number(&self, seat: u32) -> u32
        ensures { result ≡ last_number seat (read self.now.past) }
    {
        last_number(&self.tables.numbers, seat)
    }

    /// The clock of the place's last entry that is read in the log, or 0.
    pub(crate) fn last_clock(&self, place: u16) -> u64
        ensures { result ≡ last_clock (at place (read self.now.past)) }
    {
        last_clock(&self.tables.clocks, place)
    }

    /// Whether the message's number is above that of the last one that the port accepted of its caller by its route.
    pub(crate) fn is_in_order(&self, id: MsgId, port: Ui) -> bool
        ensures { result ≡ is_in_order id port (read self.now.past) }
    {
        let route = route_in(&self.post_of(id));
        is_above(&self.tables.routes, port, id, route)
    }

    /// Whether the message is no request that the port accepted.
    pub(crate) fn is_new_request(&self, id: MsgId, port: Ui) -> bool
        ensures { result ≡ is_new_request id port (read self.now.past) }
    {
        let tag = tag_in(&self.post_of(id));
        is_new(&self.tables.asked, port, id.seat, &tag)
    }

    /// Whether the message is a request and the port accepted it, or a later one of its caller.
    pub(crate) fn is_old_request(&self, id: MsgId, port: Ui) -> bool
        ensures { result ≡ is_old_request id port (read self.now.past) }
    {
        let tag = tag_in(&self.post_of(id));
        is_old(&self.tables.most, port, id.seat, &tag)
    }

    /// Takes the entry as the next one of the log. It is refused exactly where it breaks a promise; a refusal changes
    /// nothing, and the entry is dropped.
    pub fn apply(&mut self, entry: Entry) -> Result<(), LogFault>
        ensures kept { OnOk result (breach_by self.old.layout self.old.past entry ≡ None) }
        ensures ok { OnOk result (self.new ≡ with_entry self.old entry) }
        ensures refused { IfErr result (IsRefused self.old entry) }
        ensures unchanged { OnErr result (self.new ≡ self.old) }
    {
        match breach_by(self, &entry) {
            Some(breach) => Err(LogFault::Broken {
                blame: blame_with(self, &entry, breach),
            }),
            None => self.append(entry).map_err(LogFault::Memory),
        }
    }

    /// Takes the entry into the log, which breaks no promise. An error leaves the log as it was.
    fn append(&mut self, entry: Entry) -> Result<(), AllocError>
        requires { breach_by self.old.layout self.old.past entry ≡ None }
        ensures ok { OnOk result (self.new ≡ with_entry self.old entry) }
        ensures err { OnErr result (self.new ≡ self.old) }
    {
        let alloc = *self.entries.allocator();
        self.entries.reserve(1)?;
        self.tables.make_room()?;
        self.tables.read(alloc, &entry)?;
        self.entries.push_reserved(entry);
        Ok(())
    }
}
