//! The journal text.

ghost use Rattle.std.specs.Prelude.{◌≡◌, ◌++◌, OnOk, OnErr, take, length, map};
ghost use Rattle.std.specs.Borrow.{Bor};
ghost use Rattle.chorus_entry.specs.declared.entry.Entry.{Entry};
ghost use Rattle.chorus_show.specs.Bounds.{IsWithin, AreWithin};
ghost use Rattle.chorus_show.specs.Lines.{entry_text};
ghost use Rattle.chorus_show.specs.Journal.{journal_head, journal_lines, journal_text};

use crate::entries::push_entry;
use crate::phrases::push_count;
use chorus_entry::Entry;
use std::alloc::AllocError;

/// Appends the line of the entry as a journal text has it, with its LF: an entry within the bounds of a line, as its type keeps it.
/// An error leaves `out` as it was.
pub fn entry_line(entry: &Entry, out: &mut Vec<u8>) -> Result<(), AllocError>
    ensures ok { OnOk result (out.new.items ≡ out.old.items ++ entry_text entry.now) }
    ensures within { OnOk result (IsWithin entry.now) }
    ensures err { OnErr result (out.new.items ≡ out.old.items) }
{
    let mut line = Vec::new(*out.allocator());
    push_line(entry, &mut line, out)
}

/// Appends the journal text of the entries that are lent: the line `journal N`, N being the number of entries, and their lines, each of
/// them that of an entry within the bounds of a line. An error leaves `out` as it was.
pub fn journal_text(entries: &[&Entry], out: &mut Vec<u8>) -> Result<(), AllocError>
    ensures ok { OnOk result (out.new.items ≡ out.old.items
        ++ journal_text (map (λ (entry : Bor Entry). entry.now) entries.now)) }
    ensures within { OnOk result (AreWithin (map (λ (entry : Bor Entry). entry.now) entries.now)) }
    ensures err { OnErr result (out.new.items ≡ out.old.items) }
{
    let before = out.len();
    let written = push_journal(entries, out);
    if written.is_err() {
        out.truncate(before);
    }
    written
}

/// Appends the first line of a journal text, `journal N`. An error leaves `out` as it was.
pub fn journal_head(count: u64, out: &mut Vec<u8>) -> Result<(), AllocError>
    ensures ok { OnOk result (out.new.items ≡ out.old.items ++ journal_head count) }
    ensures err { OnErr result (out.new.items ≡ out.old.items) }
{
    let mut line = Vec::new(*out.allocator());
    push_head(count, &mut line, out)
}

/// Appends the lines of the entries that are lent, a part of a journal text, each of them that of an entry within the bounds of a line.
/// An error leaves `out` as it was.
pub fn journal_lines(entries: &[&Entry], out: &mut Vec<u8>) -> Result<(), AllocError>
    ensures ok { OnOk result (out.new.items ≡ out.old.items
        ++ journal_lines (map (λ (entry : Bor Entry). entry.now) entries.now)) }
    ensures within { OnOk result (AreWithin (map (λ (entry : Bor Entry). entry.now) entries.now)) }
    ensures err { OnErr result (out.new.items ≡ out.old.items) }
{
    let start = out.len();
    let mut line = Vec::new(*out.allocator());
    let written = push_lines(entries, &mut line, out);
    if written.is_err() {
        out.truncate(start);
    }
    written
}

/// Appends the journal text of the entries that are lent, or a front of it for want of memory.
fn push_journal(entries: &[&Entry], out: &mut Vec<u8>) -> Result<(), AllocError>
    ensures ok { OnOk result (out.new.items ≡ out.old.items
        ++ journal_text (map (λ (entry : Bor Entry). entry.now) entries.now)) }
    ensures within { OnOk result (AreWithin (map (λ (entry : Bor Entry). entry.now) entries.now)) }
    ensures err { OnErr result (take (length out.old.items) out.new.items ≡ out.old.items) }
{
    let mut line = Vec::new(*out.allocator());
    push_head(entries.len() as u64, &mut line, out)?;
    push_lines(entries, &mut line, out)
}

/// Appends the lines of the entries that are lent, or a front of them for want of memory. The buffer `line` is used again.
fn push_lines(entries: &[&Entry], line: &mut Vec<u8>, out: &mut Vec<u8>) -> Result<(), AllocError>
    ensures ok { OnOk result (out.new.items ≡ out.old.items
        ++ journal_lines (map (λ (entry : Bor Entry). entry.now) entries.now)) }
    ensures within { OnOk result (AreWithin (map (λ (entry : Bor Entry). entry.now) entries.now)) }
    ensures err { OnErr result (take (length out.old.items) out.new.items ≡ out.old.items) }
{
    for entry in entries {
        push_line(entry, line, out)?;
    }
    Ok(())
}

/// Appends the line `journal N`, or nothing for want of memory. The buffer `line` is used again.
fn push_head(count: u64, line: &mut Vec<u8>, out: &mut Vec<u8>) -> Result<(), AllocError>
    ensures ok { OnOk result
        (out.new.items ≡ out.old.items ++ journal_head count) }
    ensures err { OnErr result (out.new.items ≡ out.old.items) }
{
    line.clear();
    push_count("journal", &count, line)?;
    out.extend_from_slice(line)
}

/// Appends the line of the entry to a journal text, or nothing for want of memory. The buffer `line` is used again.
fn push_line(entry: &Entry, line: &mut Vec<u8>, out: &mut Vec<u8>) -> Result<(), AllocError>
    ensures ok { OnOk result (out.new.items ≡ out.old.items ++ entry_text entry.now) }
    ensures within { OnOk result (IsWithin entry.now) }
    ensures err { OnErr result (out.new.items ≡ out.old.items) }
{
    line.clear();
    push_entry(entry, line)?;
    out.extend_from_slice(line)
}
