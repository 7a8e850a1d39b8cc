//! What is kept of the entries that are drawn: where the last one about each message stands, and the bar of each port.

ghost use Rattle.std.specs.Prelude.{◌≡◌, ◌<◌, [], IfOk, OnOk};
ghost use Rattle.std.specs.HashMap.{get};
ghost use Rattle.chorus_entry.specs.Act.{held_port_of, message_of};
ghost use Rattle.chorus_entry.specs.MsgId.{same_id};
ghost use Rattle.law_picture.specs.Causes.{from_elsewhere, port_arrived};
ghost use Rattle.law_picture.specs.Bars.{keeps, row_in, waits_after, waits_in};
ghost use Rattle.picture_rows.specs.declared.limits.TheConstants.{ENTRIES_LIMIT};
ghost use Rattle.picture_rows.specs.Tables.{AreTables, BarsAfter, Grows, HaveFew, IsBefore, RowsAfter, about_row, bar_before, bar_of, last_row};

use checker_rows::keys::PortKey;
use chorus_entry::{Act, Entry, MsgId};
use chorus_ui::Ui;
use law_picture::{Bar, Row};
use std::alloc::{AllocError, Global};
use std::collections::HashMap;

/// What is kept of the entries that are drawn.
#[derive(Drop)]
pub struct Tables {
    /// How many entries there are.
    pub number: u32,
    /// The clock of the last one.
    pub clock: Option<u64>,
    /// Where the last entry about a message stands.
    pub messages: HashMap<MsgId, Row>,
    /// The bar of each port on whose line an entry stands.
    pub bars: HashMap<PortKey, Bar>,
}

/// What the tables said of an entry before it was added.
#[derive(Clone, Copy)]
pub(crate) struct Before {
    /// How many entries there were.
    pub(crate) number: u32,
    /// The clock of the last one.
    pub(crate) clock: Option<u64>,
    /// Where the entry stands that put the packet which this one works off.
    pub(crate) cause: Option<Row>,
    /// The bar of the port on whose line it stands.
    pub(crate) bar: Option<Bar>,
}

impl Tables {
    /// The tables before any entry was drawn.
    pub fn new(alloc: Global) -> Tables
        ensures { AreTables result [] }
    {
        Tables {
            number: 0,
            clock: None,
            messages: HashMap::new(alloc),
            bars: HashMap::new(alloc),
        }
    }

    /// The bar of the port, as the tables of the drawn entries keep it.
    pub fn bar(&self, port: Ui) -> Option<Bar>
        ensures { result ≡ bar_of self.now.bars port }
    {
        bar_of(&self.bars, port)
    }

    /// Where the last drawn entry stands on the line of the port that arrives, or else about the message, which is
    /// known.
    fn last(&self, port: Option<Ui>, about: Option<Row>) -> Option<Row>
        ensures { result ≡ last_row (bar_of self.now.bars) port about }
    {
        match port {
            Some(port) => row_in(self.bar(port)),
            None => about,
        }
    }

    /// Adds the drawn entry to the tables, and gives what they said of it before. After an error they are of no use.
    pub(crate) fn add(&mut self, entry: &Entry) -> Result<Before, AllocError>
        requires few { self.old.number < ENTRIES_LIMIT }
        requires waits { HaveFew (bar_of self.old.bars) }
        ensures grows { OnOk result (Grows entry.now self.old self.new) }
        ensures before { IfOk result (IsBefore self.old entry.now) }
    {
        let row = Row {
            number: self.number,
            place: entry.place,
            clock: entry.clock,
        };
        let about = follow_messages(&mut self.messages, row, entry)?;
        let last = self.last(port_arrived(&entry.act), about);
        let before = Before {
            number: self.number,
            clock: self.clock,
            cause: from_elsewhere(entry, last),
            bar: follow_bars(&mut self.bars, row, entry)?,
        };
        self.number += 1;
        self.clock = Some(entry.clock);
        Ok(before)
    }
}

/// Where the last drawn entry about each message stands, after the entry, which stands at the row. Gives where the last
/// one about its message stood.
fn follow_messages(
    messages: &mut HashMap<MsgId, Row>,
    row: Row,
    entry: &Entry,
) -> Result<Option<Row>, AllocError>
    ensures after { OnOk result
        (RowsAfter entry.now row (get same_id messages.old) (get same_id messages.new)) }
    ensures before { IfOk result
        (λ about. about ≡ about_row (get same_id messages.old) (message_of entry.now.act)) }
{
    match entry.act.message() {
        Some(id) => Ok(messages.insert(id, row)?),
        None => Ok(None),
    }
}

/// The bars after the entry, which stands at the row. Gives what the bar of the port on whose line it stands was.
fn follow_bars(
    bars: &mut HashMap<PortKey, Bar>,
    row: Row,
    entry: &Entry,
) -> Result<Option<Bar>, AllocError>
    requires { HaveFew (bar_of bars.old) }
    ensures after { OnOk result (BarsAfter entry.now row (bar_of bars.old) (bar_of bars.new)) }
    ensures before { IfOk result
        (λ before. before ≡ bar_before (bar_of bars.old) (held_port_of entry.now.act)) }
{
    let Some(port) = entry.act.held_port() else {
        return Ok(None);
    };
    let before = bar_of(bars, port);
    let bar = Bar {
        row,
        waits: waits_after(&entry.act, waits_in(before)),
        held: keeps(&entry.act),
    };
    bars.insert(PortKey { port }, bar)?;
    Ok(before)
}

/// The bar of the port, among those that the tables keep.
fn bar_of(bars: &HashMap<PortKey, Bar>, port: Ui) -> Option<Bar>
    ensures { result ≡ bar_of bars.now port }
{
    bars.get(&PortKey { port }).copied()
}

/// How many messages wait by a bar that the tables keep.
fn waits_in(bar: Option<Bar>) -> u32
    ensures { result ≡ waits_in bar }
{
    match bar {
        Some(bar) => bar.waits,
        None => 0,
    }
}

/// Where the last entry of a bar stands, as the tables keep it.
fn row_in(bar: Option<Bar>) -> Option<Row>
    ensures { result ≡ row_in bar }
{
    Some(bar?.row)
}

/// The row of what caused a drawn entry: this one, where it is one of another place than the entry's.
fn from_elsewhere(entry: &Entry, row: Option<Row>) -> Option<Row>
    ensures { result ≡ from_elsewhere entry.now row }
{
    match row {
        Some(row) if row.place == entry.place => None,
        other => other,
    }
}

/// The port that an act brings from another place, by whose bar the tables find the cause.
fn port_arrived(act: &Act) -> Option<Ui>
    ensures { result ≡ port_arrived act.now }
{
    match act {
        Act::Arrive { port, .. } => Some(*port),
        _ => None,
    }
}

/// How many messages wait in a port, by its bar, after an act on its line, where so many waited before it.
fn waits_after(act: &Act, waits: u32) -> u32
    requires { waits < ENTRIES_LIMIT }
    ensures { result ≡ waits_after act.now waits }
{
    match act {
        Act::Make { .. } => 0,
        Act::Accept { .. } => waits + 1,
        Act::Take { .. } => waits.saturating_sub(1),
        _ => waits,
    }
}

/// Whether a port is held after an act on its line, as its bar says.
fn keeps(act: &Act) -> bool
    ensures { result ≡ keeps act.now }
{
    !matches!(act, Act::Depart { .. } | Act::Delete { .. })
}
