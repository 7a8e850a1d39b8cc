//! The entries of a judged journal, gone over once.

ghost use Rattle.std.specs.Prelude.{◌≡◌, [], ◌∷◌, ◌++◌, ◌||◌, Some, is_some, List, OnOk, IfOk, cond, is_none, reverse};
ghost use Rattle.judge_seats.specs.Seats.{is_out_in, seat_with, sits_by};
ghost use Rattle.judge_seats.specs.Tables.{IsSeating, Takes, seats_by};

use crate::actors::sits_by;
use crate::berths::{Berth, follow_berths, missed_in, needed_in};
use crate::seats::{Sitting, follow_outs, goes_with, put_sitting, sitting_here, sitting_in};
use checker_rows::keys::{ClientOf, PortKey};
use chorus_entry::Entry;
use chorus_ui::{Layout, Ui};
use std::alloc::{AllocError, Global};
use std::collections::HashMap;

/// A caller, and the actor that it is told to have been in.
#[derive(Clone, Copy)]
pub struct SeatIn {
    /// The caller's seat.
    pub seat: u32,
    /// The actor.
    pub actor: Ui,
}

/// Who sat where.
#[derive(Drop)]
pub enum Seating {
    /// These actors make the entries a run, if they are legal: of each caller one, in the order of their first entries.
    Run { seats: Vec<SeatIn> },
    /// The entry at this line of a printed journal is the first that no actors allow.
    Out { line: u64 },
}

/// What is known of callers, behind entries that may stand.
#[derive(Drop)]
struct Tables {
    berths: HashMap<PortKey, Berth>,
    sittings: HashMap<u32, Sitting>,
    outs: HashMap<ClientOf, bool>,
    order: Vec<u32>,
}

/// Who sat where in these entries, the oldest first.
pub fn seat_callers(alloc: Global, layout: Layout, entries: &[Entry]) -> Result<Seating, AllocError>
    ensures { IfOk result (IsSeating layout (reverse entries.now)) }
{
    let mut tables = Tables {
        berths: HashMap::new(alloc),
        sittings: HashMap::new(alloc),
        outs: HashMap::new(alloc),
        order: Vec::new(alloc),
    };
    for (i, entry) in entries.iter().enumerate() {
        if !take(&mut tables, layout, entry)? {
            return Ok(Seating::Out { line: i as u64 + 2 });
        }
    }
    Ok(Seating::Run {
        seats: seats_in(alloc, layout, &tables)?,
    })
}

/// Takes the entry into the tables, and tells whether it may stand behind those before it.
fn take(tables: &mut Tables, layout: Layout, entry: &Entry) -> Result<bool, AllocError>
    ensures { IfOk result (Takes layout entry.now tables.old tables.new) }
{
    let needed = needed_in(&tables.berths, entry);
    let missed = missed_in(&tables.berths, entry);
    let row = sitting_in(&tables.sittings, entry.seat);
    follow_berths(&mut tables.berths, entry)?;
    follow_outs(&mut tables.outs, entry.seat, missed)?;
    follow_order(&mut tables.order, entry.seat, &row)?;
    let here = sitting_here(&needed, entry, &row);
    put_sitting(&mut tables.sittings, entry.seat, &here)?;
    let known = !asks_more(&row, &needed, &missed);
    let seated = is_seated(layout, &tables.outs, entry.seat, &here, known);
    Ok(goes_with(&needed, entry, &row) & seated)
}

/// Whether an entry may change whether its caller has an actor, by what was known of the caller and what the entry asks.
fn asks_more(row: &Option<Sitting>, needed: &Option<Ui>, missed: &Option<Ui>) -> bool
    ensures { result ≡ (is_none row.now || is_some needed.now || is_some missed.now) }
{
    row.is_none() || needed.is_some() || missed.is_some()
}

/// Whether there is an actor for the caller, which is looked for unless that is known.
fn is_seated(
    layout: Layout,
    outs: &HashMap<ClientOf, bool>,
    seat: u32,
    here: &Sitting,
    known: bool,
) -> bool
    ensures { result ≡ (known
        || is_some (sits_by layout (is_out_in outs.now seat) (Some here.now))) }
{
    known || sits_by(layout, outs, seat, Some(*here)).is_some()
}

/// Puts a caller of which nothing is known last in the order.
fn follow_order(order: &mut Vec<u32>, seat: u32, row: &Option<Sitting>) -> Result<(), AllocError>
    ensures { OnOk result (order.new.items
        ≡ cond (is_none row.now) (order.old.items ++ seat ∷ []) order.old.items) }
{
    if row.is_none() {
        order.push(seat)?;
    }
    Ok(())
}

/// Each caller with its actor, in the order of their first entries.
fn seats_in(alloc: Global, layout: Layout, tables: &Tables) -> Result<Vec<SeatIn>, AllocError>
    ensures { IfOk result (λ seats. seats.items ≡ seats_by layout tables.now) }
{
    let mut seats = Vec::new(alloc);
    for seat in &tables.order {
        let row = sitting_in(&tables.sittings, *seat);
        push_seat(*seat, sits_by(layout, &tables.outs, *seat, row), &mut seats)?;
    }
    Ok(seats)
}

/// Appends the caller with its actor, where it has one.
fn push_seat(seat: u32, actor: Option<Ui>, seats: &mut Vec<SeatIn>) -> Result<(), AllocError>
    ensures { OnOk result (seats.new.items ≡ seats.old.items ++ seat_with seat actor) }
{
    if let Some(actor) = actor {
        seats.push(SeatIn { seat, actor })?;
    }
    Ok(())
}
