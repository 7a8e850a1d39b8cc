//! The entries of a text, whatever they say.

ghost use Rattle.std.specs.Prelude.{◌≡◌, ◌≤◌, ◌++◌, length, IfOk, MatchOption};
ghost use Rattle.chorus_show.specs.Bounds.{IsWithin};
ghost use Rattle.chorus_show.specs.Lines.{entry_text};
ghost use Rattle.chorus_audit.specs.declared.limits.TheConstants.{AUDIT_LIMIT, NO_LINE};
ghost use Rattle.chorus_audit.specs.Lines.{AreLines, BeginsWithEntry};
ghost use Rattle.chorus_audit.specs.Tests.{IsNoEntry};

use crate::cut::cut;
use crate::entries::parse_in;
use crate::judging::{summary_fault, told};
use chorus_entry::Entry;
use std::alloc::{AllocError, Global};

/// What is read of a text, whatever its entries say.
#[derive(Drop)]
pub struct Lines {
    /// The entries that it begins with, up to the first line that is none.
    pub entries: Vec<Entry>,
    /// That line, from 1. None exactly where the text is the journal text and the summary text of the entries.
    pub stop: Option<u32>,
}

/// Reads the text as [`read_text`](crate::read_text) does, for whatever system: no entry is refused for what it says.
pub fn read_lines(alloc: Global, text: &[u8]) -> Result<Lines, AllocError>
    requires { length text.now ≤ AUDIT_LIMIT }
    ensures { IfOk result (λ lines. AreLines text.now lines.entries.items lines.stop) }
{
    let mut room = Vec::new(alloc);
    let mut entries = Vec::new(alloc);
    let Some((count, mut rest)) = told(text) else {
        return Ok(stopped(entries, 1));
    };
    for taken in 0..count {
        let Some((entry, behind)) = next_entry(alloc, &mut room, rest)? else {
            return Ok(stopped(entries, taken + 2));
        };
        entries.push(entry)?;
        rest = behind;
    }
    match summary_fault(alloc, &entries, rest)? {
        None => Ok(Lines {
            entries,
            stop: None,
        }),
        Some(shared) => Ok(stopped(entries, count + 2 + shared)),
    }
}

/// What is read of a text that stops at this line.
fn stopped(entries: Vec<Entry>, line: u32) -> Lines
    ensures { result ≡ record { entries = entries; stop = Some line } }
{
    Lines {
        entries,
        stop: Some(line),
    }
}

/// The entry of the next line, and the text behind it. None exactly where that is the line of no entry.
fn next_entry<'a>(
    alloc: Global,
    room: &mut Vec<u8>,
    text: &'a [u8],
) -> Result<Option<(Entry, &'a [u8])>, AllocError>
    ensures { IfOk result (λ found. MatchOption found
        (IsNoEntry text.now NO_LINE)
        (λ next. BeginsWithEntry text.now next.0 next.1.now)) }
{
    let (line, rest) = cut(b'\n', text);
    let Some(rest) = rest else {
        return Ok(None);
    };
    match parse_in(alloc, room, line)? {
        Some(entry) => Ok(Some((entry, rest))),
        None => Ok(None),
    }
}
