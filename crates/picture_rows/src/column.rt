//! The columns of a picture.

ghost use Rattle.std.specs.Prelude.{◌≡◌, ◌≤◌, ◌<◌, ◌+◌, ◌*◌, ◌^◌, ◌++◌, [], length, IfOk, OnOk};
ghost use Rattle.std.specs.Option.{option_copied};
ghost use Rattle.picture_rows.specs.declared.limits.TheConstants.{ENTRIES_LIMIT};
ghost use Rattle.picture_rows.specs.Columns.{column_at, columns, columns_from, column_from, has_entry, lane_of, port_brought, right_after, right_edge, right_of, with_port, with_ports_at, x_of};

use chorus_entry::{Act, Entry, index_of, is_member};
use chorus_ui::{Layout, Ui};
use std::alloc::{AllocError, Global};
use std::marker::Model;

/// The column of a place: where its line is, and the ports that came to be held there, with a lane for each.
#[derive(Drop)]
pub struct Column {
    place: u16,
    x: u32,
    ports: Vec<Ui>,
}

impl Model for Column {
    ghost use Rattle.std.specs.Prelude.{◌≤◌, length};
    ghost use Rattle.picture_rows.specs.declared.limits.TheConstants.{ENTRIES_LIMIT};
    ghost use Rattle.picture_rows.specs.Columns.{ColumnShape};

    ghost Value = { ColumnShape };

    ghost view = { λ c. record { place = c.place; x = c.x; ports = c.ports.items } };

    ghost invariant = { λ c. length c.ports.items ≤ ENTRIES_LIMIT };
}

impl Column {
    /// The picture's column of the place, from the left edge on.
    fn from(alloc: Global, left: u32, place: u16, entries: &[Entry]) -> Result<Column, AllocError>
        requires near { left < 2 ^ 30 }
        requires few { length entries.now ≤ ENTRIES_LIMIT }
        ensures value { IfOk result (λ c. c ≡ column_from left place entries.now) }
        ensures bound { IfOk result (λ c. right_of c ≤ left + 140088) }
    {
        let ports = ports_at(alloc, place, entries)?;
        Ok(Column {
            place,
            x: left + 64,
            ports,
        })
    }

    /// The place of the column.
    pub fn place(&self) -> u16
        ensures { result ≡ self.now.place }
    {
        self.place
    }

    /// Where the column's line is, from the left.
    pub fn x(&self) -> u64
        ensures value { result ≡ self.now.x }
        ensures bound { result < 2 ^ 32 }
    {
        u64::from(self.x)
    }

    /// The ports that came to be held at the column's place, in order.
    pub fn ports(&self) -> &[Ui]
        ensures value { result.now ≡ self.now.ports }
        ensures few { length result.now ≤ ENTRIES_LIMIT }
    {
        self.ports.as_slice()
    }

    /// Where the column ends, from the left.
    pub(crate) fn right(&self) -> u64
        ensures value { result ≡ right_of self.now }
        ensures bound { result < 2 ^ 33 }
    {
        self.x() + 24 + 14 * (self.ports.len() as u64)
    }

    /// Where the lane of a port begins in the column; of a port that has none, where one behind all others would.
    pub fn lane(&self, port: Ui) -> u64
        ensures value { result ≡ lane_of port self.now }
        ensures bound { result < 2 ^ 33 }
    {
        self.x() + 22 + 14 * (index_of(self.ports(), port) as u64)
    }
}

/// The columns of the entries: one for each place that has an entry, by place.
pub fn columns(alloc: Global, layout: Layout, entries: &[Entry]) -> Result<Vec<Column>, AllocError>
    requires { length entries.now ≤ ENTRIES_LIMIT }
    ensures { IfOk result (λ cs. cs.items ≡ columns layout entries.now) }
{
    let mut all = Vec::new(alloc);
    push_columns(alloc, layout.places(), 1, 64, entries, &mut all)?;
    Ok(all)
}

/// Appends the columns of so many places from this one on, from the left edge on. A column is at most 140,088 wide,
/// 64 + 24 + 14 for each of [`ENTRIES_LIMIT`](crate::ENTRIES_LIMIT) lanes.
fn push_columns(
    alloc: Global,
    places: u16,
    first: u16,
    left: u32,
    entries: &[Entry],
    all: &mut Vec<Column>,
) -> Result<(), AllocError>
    requires few { first + places ≤ 65 }
    requires near { left + 140088 * places ≤ 140088 * 65 }
    requires entries { length entries.now ≤ ENTRIES_LIMIT }
    ensures { OnOk result
        (all.new.items ≡ all.old.items ++ columns_from places first left entries.now) }
{
    if places == 0 {
        return Ok(());
    }
    if !has_entry(first, entries) {
        return push_columns(alloc, places - 1, first + 1, left, entries, all);
    }
    let column = Column::from(alloc, left, first, entries)?;
    let right = column.right() as u32;
    all.push(column)?;
    push_columns(alloc, places - 1, first + 1, right, entries, all)?;
    Ok(())
}

/// Whether one of the entries is at the place, so that it has a column.
fn has_entry(place: u16, entries: &[Entry]) -> bool
    ensures { result ≡ has_entry place entries.now }
{
    entries.iter().any(|entry| entry.place == place)
}

/// The ports of a place's column: those that the entries bring there, each once, in order.
fn ports_at(alloc: Global, place: u16, entries: &[Entry]) -> Result<Vec<Ui>, AllocError>
    ensures value { IfOk result (λ ports. ports.items ≡ with_ports_at place [] entries.now) }
    ensures few { IfOk result (λ ports. length ports.items ≤ length entries.now) }
{
    let mut ports = Vec::new(alloc);
    for entry in entries {
        if entry.place == place {
            add_port(&entry.act, &mut ports)?;
        }
    }
    Ok(ports)
}

/// Appends the port that the act brings to the ports of a column, if it is not there.
fn add_port(act: &Act, ports: &mut Vec<Ui>) -> Result<(), AllocError>
    ensures value { OnOk result
        (ports.new.items ≡ with_port (port_brought act.now) ports.old.items) }
    ensures one { OnOk result (length ports.new.items ≤ length ports.old.items + 1) }
{
    if let Some(port) = port_brought(act)
        && !is_member(ports, port)
    {
        ports.push(port)?;
    }
    Ok(())
}

/// The port that comes to be held by the act, so that the column has a lane for it.
fn port_brought(act: &Act) -> Option<Ui>
    ensures { result ≡ port_brought act.now }
{
    match act {
        Act::Make { port, .. } | Act::Arrive { port, .. } => Some(*port),
        _ => None,
    }
}

/// The right edge of a picture's columns: where the last one ends.
pub fn right_edge(columns: &[Column]) -> u64
    ensures value { result ≡ right_edge columns.now }
    ensures bound { result < 2 ^ 33 }
{
    right_after(64, columns)
}

/// Where the last of the columns ends, or `left` where there is no column.
fn right_after(left: u64, columns: &[Column]) -> u64
    requires { left < 2 ^ 33 }
    ensures value { result ≡ right_after left columns.now }
    ensures bound { result < 2 ^ 33 }
{
    match columns {
        [] => left,
        [column, more @ ..] => right_after(column.right(), more),
    }
}

/// The column of the place, among a picture's columns.
pub(crate) fn column_at(columns: &[Column], place: u16) -> Option<&Column>
    ensures { option_copied result ≡ column_at place columns.now }
{
    match columns {
        [] => None,
        [column, ..] if column.place == place => Some(column),
        [_, more @ ..] => column_at(more, place),
    }
}

/// Where the line of the place is, by its column among a picture's columns.
pub(crate) fn x_at(columns: &[Column], place: u16) -> u64
    ensures value { result ≡ x_of (column_at place columns.now) }
    ensures bound { result < 2 ^ 32 }
{
    match column_at(columns, place) {
        Some(column) => column.x(),
        None => 0,
    }
}
