//! The parts of a report are printed.

ghost use Rattle.std.specs.Prelude.{◌≡◌, ◌<◌, ◌≤◌, ◌*◌, Ok, map, length, IfOk, OnOk};
ghost use Rattle.std.specs.Vec.{vec_len};
ghost use Rattle.chorus_merge.specs.Merge.{merged};
ghost use Rattle.chorus_merge.specs.Steps.{journals_of, lent};
ghost use Rattle.chorus_show.specs.Bounds.{AreWithin};
ghost use Rattle.chorus_show.specs.Journal.{journal_head, journal_lines};
ghost use Rattle.chorus_show.specs.Report.{report_with, summary_with};
ghost use Rattle.chorus_run.specs.ReportParts.Parts.{ArePrinted, PrintsPart, whole};

use chorus_entry::Entry;
use chorus_merge::merge_lent;
use chorus_report::push_stuck_lines;
use chorus_show::{Stuck, journal_head, journal_lines, lent_summary_text};
use std::alloc::{AllocError, Global};
use std::thread;
use std::thread::Threads;

/// How many threads print lines at most, each a part of them.
const PRINTERS: usize = 4;

/// How many bytes of room a part begins with for each of its entries: about as many as a line has.
const LINE: usize = 40;

/// The report of the merge of the journals, in parts: the first line, the lines of the entries by threads of their own where they can be
/// made, and the summary text with the lines of what is stuck. No entry is copied. The only error is want of memory.
pub(crate) fn report_parts<R: Threads + Sync>(
    alloc: Global,
    rt: &R,
    journals: &[Vec<Entry>],
    stuck: &[Stuck],
) -> Result<Vec<Vec<u8>>, AllocError>
    ensures text { IfOk result (λ parts.
        whole parts.items ≡ report_with stuck.now (merged (journals_of journals.now))) }
    ensures within { OnOk result (AreWithin (merged (journals_of journals.now))) }
{
    let entries = merge_lent(alloc, journals)?;
    entry_parts(alloc, rt, &entries, stuck)
}

/// The report of the entries that are lent, in parts.
fn entry_parts<R: Threads + Sync>(
    alloc: Global,
    rt: &R,
    entries: &[&Entry],
    stuck: &[Stuck],
) -> Result<Vec<Vec<u8>>, AllocError>
    ensures text { IfOk result
        (λ parts. whole parts.items ≡ report_with stuck.now (lent entries.now)) }
    ensures within { OnOk result (AreWithin (lent entries.now)) }
{
    let (lines, summary) = thread::join(
        rt,
        || line_parts(alloc, rt, entries),
        || summary_part(alloc, entries, stuck),
    );
    let mut lines = lines?;
    let summary = summary?;
    let mut parts = Vec::with_capacity(alloc, PRINTERS + 2)?;
    parts.push(head_part(alloc, entries.len())?)?;
    parts.append(&mut lines)?;
    parts.push(summary)?;
    Ok(parts)
}

/// The first part of a report: the first line of a journal text of so many entries.
fn head_part(alloc: Global, count: usize) -> Result<Vec<u8>, AllocError>
    ensures { IfOk result (λ text. text.items ≡ journal_head count) }
{
    let mut text = Vec::new(alloc);
    journal_head(count as u64, &mut text)?;
    Ok(text)
}

/// The last part of a report: the summary text of the entries, with the lines of what is stuck.
fn summary_part(alloc: Global, entries: &[&Entry], stuck: &[Stuck]) -> Result<Vec<u8>, AllocError>
    ensures { IfOk result (λ text. text.items ≡ summary_with stuck.now (lent entries.now)) }
{
    let mut text = Vec::new(alloc);
    lent_summary_text(entries, &mut text)?;
    push_stuck_lines(stuck, &mut text)?;
    Ok(text)
}

/// The parts of a report that are the lines of the entries.
fn line_parts<R: Threads + Sync>(
    alloc: Global,
    rt: &R,
    entries: &[&Entry],
) -> Result<Vec<Vec<u8>>, AllocError>
    ensures text { IfOk result (λ parts. whole parts.items ≡ journal_lines (lent entries.now)) }
    ensures within { OnOk result (AreWithin (lent entries.now)) }
{
    let size = entries.len() / PRINTERS + 1;
    let printed = print_side_by_side(alloc, rt, entries, size)?;
    all_parts(alloc, printed)
}

/// Prints the lines of each part of so many entries, each in a thread of its own where one can be made.
fn print_side_by_side<R: Threads + Sync>(
    alloc: Global,
    rt: &R,
    entries: &[&Entry],
    size: usize,
) -> Result<Vec<Result<Vec<u8>, AllocError>>, AllocError>
    requires { 0 < size }
    ensures len { IfOk result (λ printed. length entries.now ≤ vec_len printed * size) }
    ensures each { IfOk result (λ printed. ArePrinted entries.now size printed.items) }
{
    thread::map_chunks(
        rt,
        alloc,
        entries,
        size,
        &|_start: usize, part: &[&Entry]| -> Result<Vec<u8>, AllocError>
            ensures { PrintsPart part.entry.now result }
        { print_part(alloc, part) },
    )
}

/// Prints one part of a report: the lines of a part of the entries.
fn print_part(alloc: Global, entries: &[&Entry]) -> Result<Vec<u8>, AllocError>
    ensures { PrintsPart entries.now result }
{
    let mut text = Vec::with_capacity(alloc, entries.len().saturating_mul(LINE))?;
    journal_lines(entries, &mut text)?;
    Ok(text)
}

/// The parts of a report that threads printed, where there was memory for each.
fn all_parts(
    alloc: Global,
    printed: Vec<Result<Vec<u8>, AllocError>>,
) -> Result<Vec<Vec<u8>>, AllocError>
    ensures { IfOk result (λ parts. printed.items ≡ map (λ part. Ok part) parts.items) }
{
    let mut parts = Vec::with_capacity(alloc, printed.len())?;
    for part in printed {
        parts.push(part?)?;
    }
    Ok(parts)
}
