//! The lines of the scripts that are stuck.

ghost use Rattle.std.specs.Prelude.{◌≡◌, ◌≤◌, ◌<◌, ◌+◌, ◌^◌, ◌++◌, ℕ, List, length, IfOk, IfSome, MatchOption, Some};
ghost use Rattle.chorus_entry.specs.declared.entry.Entry.{Entry};
ghost use Rattle.chorus_show.specs.declared.stuck.Stuck.{Stuck};
ghost use Rattle.chorus_show.specs.Report.{stuck_line};
ghost use Rattle.chorus_audit.specs.declared.limits.TheConstants.{AUDIT_LIMIT};
ghost use Rattle.chorus_audit.specs.Stuck.{AreGiven, BeginsStuck, HasNoStuck, SkipsSome};

use crate::commands::{commands_in, given_by};
use crate::cut::cut;
use crate::field::Field;
use chorus_entry::Entry;
use chorus_show::{Stuck, push_stuck};
use std::alloc::{AllocError, Global};
use std::collections::BTreeMap;

/// How many lines of scripts that may be stuck behind the entries the text begins with, and what stands behind these lines. The
/// entries are looked at only where it begins as such a line does.
pub(crate) fn skip_stuck<'a>(
    alloc: Global,
    entries: &[Entry],
    text: &'a [u8],
) -> Result<(u32, &'a [u8]), AllocError>
    requires few { length entries.now ≤ AUDIT_LIMIT }
    requires short { length text.now ≤ AUDIT_LIMIT }
    ensures { IfOk result (λ x. SkipsSome entries.now 0 text.now x.0 x.1.now) }
{
    if text.starts_with(b"stuck ") {
        let table = commands_in(alloc, entries)?;
        let mut room = Vec::new(alloc);
        skip_lines(&table, &mut room, text)
    } else {
        Ok((0, text))
    }
}

/// The same, with the numbers of commands of the entries, in room that is used again for each line.
fn skip_lines<'a>(
    table: &BTreeMap<u32, u32>,
    room: &mut Vec<u8>,
    text: &'a [u8],
) -> Result<(u32, &'a [u8]), AllocError>
    requires few { (es : List Entry) × AreGiven table.now es × (length es ≤ AUDIT_LIMIT) }
    requires short { length text.now ≤ AUDIT_LIMIT }
    ensures { IfOk result (λ x. (es : List Entry) → AreGiven table.now es →
        SkipsSome es 0 text.now x.0 x.1.now) }
{
    let mut last = 0;
    let mut count = 0;
    let mut left = text;
    while let Some((script, behind)) = next_stuck(table, last, room, left)? {
        last = script;
        count += 1;
        left = behind;
    }
    Ok((count, left))
}

/// The script whose line the text begins with, where it may be stuck behind the last one, and what stands behind that line.
fn next_stuck<'a>(
    table: &BTreeMap<u32, u32>,
    last: u32,
    room: &mut Vec<u8>,
    text: &'a [u8],
) -> Result<Option<(u32, &'a [u8])>, AllocError>
    requires few { (es : List Entry) × AreGiven table.now es × (length es ≤ AUDIT_LIMIT) }
    ensures { IfOk result (λ found. (es : List Entry) → AreGiven table.now es →
        MatchOption found
        (HasNoStuck es last text.now)
        (λ x. BeginsStuck es last text.now x.0 x.1.now)) }
{
    let Some(script) = script_in(text) else {
        return Ok(None);
    };
    if script <= last {
        return Ok(None);
    }
    let stuck = Stuck {
        script,
        command: given_by(table, script) + 1,
    };
    room.clear();
    push_stuck(&stuck, room)?;
    match text.strip_prefix(room.as_slice()) {
        Some(behind) => Ok(Some((script, behind))),
        None => Ok(None),
    }
}

/// The script whose line the audited text begins with. Where it begins with no such line this may be any number.
fn script_in(text: &[u8]) -> Option<u32>
    ensures script { (s : Stuck) (more : List ℕ) → s.script < 2 ^ 32 →
        text.now ≡ stuck_line s ++ more → result ≡ Some s.script }
    ensures fits { IfSome result (λ script. script < 2 ^ 32) }
{
    let numbers = text.strip_prefix(b"stuck ")?;
    let (number, _) = cut(b' ', numbers);
    u32::read(number)
}
