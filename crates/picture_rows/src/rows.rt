//! The rows of a picture, layer by layer.

ghost use Rattle.std.specs.Prelude.{◌≡◌, ◌≤◌, ◌++◌, [], List, ℕ, length, reverse, IfOk, OnOk};
ghost use Rattle.chorus_show.specs.Bounds.{AreWithin};
ghost use Rattle.chorus_show.specs.Journal.{journal_lines};
ghost use Rattle.picture_rows.specs.declared.limits.TheConstants.{ENTRIES_LIMIT};
ghost use Rattle.picture_rows.specs.Edge.{IsEdge, tick_at, tick_of};
ghost use Rattle.picture_rows.specs.Lines.{IsLine};
ghost use Rattle.picture_rows.specs.Tables.{AreTables, ground_behind, marks_behind};
ghost use Rattle.picture_rows.specs.Shapes.{arrow_text, each_row, ground_text, is_new_clock, marks_text};

use crate::bars::{push_bar_ended, push_count};
use crate::bodies::Bodies;
use crate::column::Column;
use crate::edge::Edge;
use crate::limits::ENTRIES_LIMIT;
use crate::lines::{Line, next_line};
use crate::row_heights::row_y;
use crate::setup::is_setup;
use crate::shapes::{push_arrow, push_entry};
use crate::tables::{Before, Tables};
use chorus_entry::Entry;
use picture_texts::push_numbered;
use std::alloc::AllocError;

/// Appends what stands for each entry: to the ground its thin line and the bar that it ends, to the
/// arrows its arrow, and to the marks its mark with its texts. Fills the tables, which are to be empty.
/// The text begins with the lines of the entries, from which they have their titles; gives how many
/// bytes these lines are. After an error a part may stand there.
pub fn push_rows(
    columns: &[Column],
    entries: &[Entry],
    text: &[u8],
    tables: &mut Tables,
    ground: &mut Vec<u8>,
    arrows: &mut Vec<u8>,
    marks: &mut Vec<u8>,
) -> Result<usize, AllocError>
    requires few { length entries.now ≤ ENTRIES_LIMIT }
    requires within { AreWithin entries.now }
    requires lines { (more : List ℕ) × (text.now ≡ journal_lines entries.now ++ more) }
    requires empty { AreTables tables.old [] }
    ensures ground { OnOk result (ground.new.items ≡ ground.old.items
        ++ each_row (ground_text columns.now) [] entries.now) }
    ensures arrows { OnOk result (arrows.new.items ≡ arrows.old.items
        ++ each_row (arrow_text columns.now) [] entries.now) }
    ensures marks { OnOk result (marks.new.items ≡ marks.old.items
        ++ each_row (marks_text columns.now) [] entries.now) }
    ensures tables { OnOk result (AreTables tables.new (reverse entries.now)) }
    ensures lines { IfOk result (λ n. n ≡ length (journal_lines entries.now)) }
{
    let alloc = *ground.allocator();
    let edge = Edge::of(alloc, columns)?;
    let mut bodies = Bodies::new(alloc);
    let mut left = text;
    for entry in entries {
        let (line, behind) = next_line(left);
        let before = tables.add(entry)?;
        bodies.add(alloc, entry)?;
        push_ground(columns, &edge, &before, entry, ground)?;
        push_arrow(columns, before.number, entry, before.cause, arrows)?;
        let note = bodies.note(&entry.act);
        push_marks(columns, &edge, &before, entry, &line, note, marks)?;
        left = behind;
    }
    Ok(text.len().saturating_sub(left.len()))
}

/// Appends what lies below the arrows for the entry, by what the tables said before it.
fn push_ground(
    columns: &[Column],
    edge: &Edge,
    before: &Before,
    entry: &Entry,
    out: &mut Vec<u8>,
) -> Result<(), AllocError>
    requires { IsEdge edge.now }
    ensures { OnOk result (out.new.items ≡ out.old.items
        ++ ground_behind edge.now.right columns.now before.now entry.now) }
{
    let y = row_y(before.number);
    let is_new = is_new_clock(before.clock, entry.clock) && !is_setup(entry);
    push_tick_of(edge, y, is_new, out)?;
    push_bar_ended(columns, y, entry.act.held_port(), before.bar, out)
}

/// Appends what stands above the arrows for the entry, by what the tables said before it, by its line
/// and with this note.
fn push_marks(
    columns: &[Column],
    edge: &Edge,
    before: &Before,
    entry: &Entry,
    line: &Line<'_>,
    note: &[u8],
    out: &mut Vec<u8>,
) -> Result<(), AllocError>
    requires edge { IsEdge edge.now }
    requires line { IsLine entry.now line.now }
    ensures { OnOk result (out.new.items ≡ out.old.items
        ++ marks_behind edge.now.right columns.now before.now entry.now note.now) }
{
    let row = before.number;
    push_entry(columns, edge, row, entry, before.cause, line, note, out)?;
    push_count(
        columns,
        row_y(row),
        entry,
        entry.act.held_port(),
        before.bar,
        out,
    )
}

/// Whether the clock is not that of the entry before, so that a thin line stands above its row.
fn is_new_clock(before: Option<u64>, clock: u64) -> bool
    ensures { result ≡ is_new_clock before clock }
{
    match before {
        Some(last) => last != clock,
        None => false,
    }
}

/// Appends the thin line above a row, where it has a new clock.
fn push_tick_of(edge: &Edge, y: u64, is_new: bool, out: &mut Vec<u8>) -> Result<(), AllocError>
    requires edge { IsEdge edge.now }
    requires y { 9 ≤ y }
    ensures { OnOk result (out.new.items ≡ out.old.items ++ tick_of edge.now.right y is_new) }
{
    if is_new {
        return push_tick(edge, y, out);
    }
    Ok(())
}

/// Appends the thin line above the row whose middle is at y.
#[tactic(auto, unfolding(crate::specs::Edge::tick_at))]
fn push_tick(edge: &Edge, y: u64, out: &mut Vec<u8>) -> Result<(), AllocError>
    requires edge { IsEdge edge.now }
    requires y { 9 ≤ y }
    ensures { OnOk result (out.new.items ≡ out.old.items ++ tick_at edge.now.right y) }
{
    push_numbered(b"<path class='tick' d='M8 ", y - 9, out)?;
    out.extend_from_slice(&edge.tick_end)?;
    Ok(())
}
