//! A journal that a source gives, drawn into a sink.

ghost use Rattle.std.specs.Prelude.{◌≡◌, ◌≢◌, ◌≤◌, ◌++◌, [], ℕ, List, length, IfOk, OnOk};
ghost use Rattle.chorus_io.specs.Count.{Rose};
ghost use Rattle.chorus_audit.specs.declared.limits.TheConstants.{AUDIT_LIMIT};
ghost use Rattle.picture_rows.specs.declared.limits.TheConstants.{ENTRIES_LIMIT};
ghost use Rattle.chorus_picture.specs.Output.{Draws, ReadsBy};
ghost use Rattle.chorus_picture.specs.Found.{behind_entries};
ghost use Rattle.chorus_picture.specs.Picture.{HasLines, behind_rows, ground, picture_text};
ghost use Rattle.picture_rows.specs.Shapes.{arrow_text, each_row, marks_text};
ghost use Rattle.chorus_show.specs.Bounds.{AreWithin};
ghost use Rattle.chorus_show.specs.Journal.{journal_lines};

use crate::below_rows::{behind_lines, push_foot, push_found};
use crate::sheet::{push_bars_left, push_front, push_heads};
use chorus_audit::{AUDIT_LIMIT, Audit, read_text};
use chorus_entry::Entry;
use chorus_input::read_input;
use chorus_io::{ReadAll, Sink, Source, write_all};
use chorus_show::Status;
use chorus_ui::Layout;
use picture_rows::{Column, ENTRIES_LIMIT, Tables, columns, end_y, push_rows, setup_rows};
use std::alloc::{AllocError, Global};

/// Reads the source to its end, and writes the picture of the journal that it gave: of all its entries, or of those in
/// front of the first line that an audit for the layout finds wrong. The status is `Done` for both. A text of more than
/// [`AUDIT_LIMIT`] bytes, or of which more than [`ENTRIES_LIMIT`] entries are to be drawn, is [`Status::TOO_LONG`].
pub fn picture<S: Source, K: Sink>(
    alloc: Global,
    layout: Layout,
    source: &mut S,
    sink: &mut K,
) -> Status
    // Why it ended. Want of memory is the one free answer, and hides no read fault.
    ensures read_fault { result ≡ Status.ReadFault →
        Rose (S.faults source.old) (S.faults source.new) }
    ensures steady { result ≡ Status.Memory → S.faults source.new ≡ S.faults source.old }
    ensures reliable { S.reliable source.old → S.faults source.new ≡ S.faults source.old }
    ensures write_fault { result ≡ Status.WriteFault →
        Rose (K.faults sink.old) (K.faults sink.new) }
    ensures reads { ReadsBy layout result (S.left source.old) (S.left source.new) }

    // What it did.
    ensures draws { Draws layout result (S.left source.old) (K.held sink.old) (K.held sink.new) }
    ensures unwritten { result ≢ Status.Done → result ≢ Status.WriteFault → sink.new ≡ sink.old }
{
    let text = match read_input(alloc, source, AUDIT_LIMIT) {
        Ok(text) => text,
        Err(ReadAll::Fault) => return Status::ReadFault,
        Err(ReadAll::TooLong) => return Status::TOO_LONG,
        Err(ReadAll::Memory(_)) => return Status::Memory,
    };
    let Ok(reading) = read_text(alloc, layout, &text) else {
        return Status::Memory;
    };
    let entries = reading.world.entries();
    if entries.len() > ENTRIES_LIMIT as usize {
        return Status::TOO_LONG;
    }
    let Ok(drawn) = drawn(alloc, layout, &text, entries, reading.audit) else {
        return Status::Memory;
    };
    match write_all(sink, &drawn) {
        Ok(()) => Status::Done,
        Err(_) => Status::WriteFault,
    }
}

/// The picture of what was read of a text: of these entries, and of what an audit found.
fn drawn(
    alloc: Global,
    layout: Layout,
    text: &[u8],
    entries: &[Entry],
    audit: Audit,
) -> Result<Vec<u8>, AllocError>
    requires few { length entries.now ≤ ENTRIES_LIMIT }
    requires lines { HasLines text.now entries.now }
    ensures { IfOk result (λ out. out.items ≡ picture_text layout text.now entries.now audit) }
{
    let columns = columns(alloc, layout, entries)?;
    // Room for the style and the legend, and for rows of short lines.
    let mut out = Vec::with_capacity(alloc, 8_192 + 512 * entries.len())?;
    push_front(
        &columns,
        entries.len() as u32,
        setup_rows(entries),
        &mut out,
    )?;
    let lines = behind_lines(1, text);
    let passed = push_layers(&columns, entries, lines, &mut out)?;
    let (_, summary) = lines.split_at(passed);
    push_behind_rows(layout, text, summary, entries, audit, &columns, &mut out)?;
    Ok(out)
}

/// Appends a picture's rows of these entries, with whose lines the text begins: the ground, the arrows
/// over it and the marks over these. Gives how many bytes the lines are.
fn push_layers(
    columns: &[Column],
    entries: &[Entry],
    lines: &[u8],
    out: &mut Vec<u8>,
) -> Result<usize, AllocError>
    requires few { length entries.now ≤ ENTRIES_LIMIT }
    requires within { AreWithin entries.now }
    requires lines { (more : List ℕ) × (lines.now ≡ journal_lines entries.now ++ more) }
    ensures text { OnOk result (out.new.items ≡ out.old.items
        ++ (ground columns.now entries.now (length entries.now)
        ++ each_row (arrow_text columns.now) [] entries.now
        ++ each_row (marks_text columns.now) [] entries.now)) }
    ensures lines { IfOk result (λ n. n ≡ length (journal_lines entries.now)) }
{
    let alloc = *out.allocator();
    let mut tables = Tables::new(alloc);
    let mut arrows = Vec::new(alloc);
    // Most of what a row has stands there.
    let mut marks = Vec::with_capacity(alloc, 384 * entries.len())?;
    let passed = push_rows(
        columns,
        entries,
        lines,
        &mut tables,
        out,
        &mut arrows,
        &mut marks,
    )?;
    push_bars_left(columns, &tables, end_y(entries.len() as u32), out)?;
    out.extend_from_slice(&arrows)?;
    out.extend_from_slice(&marks)?;
    Ok(passed)
}

/// Appends all that a picture has behind its rows. The summary is what stands behind the entries.
fn push_behind_rows(
    layout: Layout,
    text: &[u8],
    summary: &[u8],
    entries: &[Entry],
    audit: Audit,
    columns: &[Column],
    out: &mut Vec<u8>,
) -> Result<(), AllocError>
    requires few { length entries.now ≤ ENTRIES_LIMIT }
    requires summary { summary.now ≡ behind_entries text.now entries.now }
    ensures { OnOk result (out.new.items ≡ out.old.items
        ++ behind_rows layout text.now entries.now audit columns.now (length entries.now)) }
{
    let count = entries.len() as u32;
    let end = end_y(count);
    push_heads(layout, columns, count, out)?;
    push_found(text, summary, audit, end, out)?;
    push_foot(end, out)?;
    Ok(())
}
