//! A whole text, tested line by line.

ghost use Rattle.std.specs.Prelude.{◌≡◌, ◌≢◌, ◌≤◌, ◌<◌, ◌↔◌, ◌^◌, ◌++◌, ◌+◌, ℕ, List, codes, length, reverse, IfOk, OnErr, MatchOption, MatchResult};
ghost use Rattle.chorus_entry.specs.declared.entry.Entry.{Entry};
ghost use Rattle.chorus_show.specs.Summary.{summary_lines};
ghost use Rattle.chorus_audit.specs.declared.limits.TheConstants.{AUDIT_LIMIT};
ghost use Rattle.chorus_audit.specs.declared.judging.Audit.TheVariants.{Legal, Wrong};
ghost use Rattle.chorus_audit.specs.Report.{IsReport};
ghost use Rattle.chorus_audit.specs.Tests.{head, lines_shared, IsNoSummary, IsRead, IsSummary, IsWrong, IsVerdict};
ghost use Rattle.chorus_audit.specs.Reads.{IsReading};
ghost use Rattle.chorus_audit.specs.Stops.{IsStop, TakesEntry};

use crate::awaits::skip_stuck;
use crate::cut::cut;
use crate::entries::parse_in;
use crate::field::Field;
use crate::limits::{AUDIT_LIMIT, NO_LINE};
use chorus_checker::{World, WorldFault};
use chorus_entry::Entry;
use chorus_show::summary_text;
use chorus_ui::Layout;
use std::alloc::{AllocError, Global};

/// What an audit finds.
#[derive(Clone, Copy, Debug, PartialEq, Eq)]
pub enum Audit {
    /// The text is the journal text and the summary text of a legal list of so many entries.
    Legal { entries: u32 },
    /// It is that of none. `line` is the first line that fails, from 1. `rule` is [`NO_LINE`] where that line is missing, lacks
    /// its LF or is none that may stand there; else the line is an entry's that may not come next, and `rule` is the one that
    /// refuses it: 0 for its place or its clock, and from 1 to 40 the number of its act.
    Wrong { line: u32, rule: u8 },
}

/// Tests the text, line by line: whether it is the journal text and the summary text of a list of entries that is legal for the
/// layout.
pub fn audit_text(alloc: Global, layout: Layout, text: &[u8]) -> Result<Audit, AllocError>
    requires { length text.now ≤ AUDIT_LIMIT }
    ensures legal { IfOk result (λ audit. (n : ℕ) → (audit ≡ Legal n)
        ↔ ((es : List Entry) × IsReport layout text.now es × (length es ≡ n))) }
    ensures wrong { IfOk result (λ audit. (line rule : ℕ) → (audit ≡ Wrong line rule)
        ↔ IsWrong layout text.now line rule) }
{
    judged(alloc, layout, text)
}

/// What is read of a text.
#[derive(Drop)]
pub struct Reading {
    /// The entries that it begins with, each of which may come next, before the first line that fails.
    pub world: World,
    /// What an audit finds.
    pub audit: Audit,
}

/// Reads the text as [`audit_text`] tests it: the entries in front of the first line that fails, or all of them where none does.
pub fn read_text(alloc: Global, layout: Layout, text: &[u8]) -> Result<Reading, AllocError>
    requires { length text.now ≤ AUDIT_LIMIT }
    ensures { IfOk result (λ reading.
        IsRead layout text.now reading.audit (reverse reading.world.past)) }
{
    read_for(alloc, layout, text)
}

/// Reads the text as [`read_text`] does, into a world of the layout.
pub fn read_for(alloc: Global, layout: Layout, text: &[u8]) -> Result<Reading, AllocError>
    requires { length text.now ≤ AUDIT_LIMIT }
    ensures { IfOk result (IsReading layout text.now) }
{
    let mut room = Vec::new(alloc);
    read_in(alloc, &mut room, layout, text)
}

/// Reads the text as [`read_for`] does, with lines read in the room, which is used again.
fn read_in(
    alloc: Global,
    room: &mut Vec<u8>,
    layout: Layout,
    text: &[u8],
) -> Result<Reading, AllocError>
    requires { length text.now ≤ AUDIT_LIMIT }
    ensures { IfOk result (IsReading layout text.now) }
{
    let mut world = World::opening(alloc, layout)?;
    let Some((count, mut rest)) = told(text) else {
        return Ok(stopped(world, 1, NO_LINE));
    };
    for taken in 0..count {
        match take_entry(alloc, room, &mut world, rest) {
            Ok(behind) => rest = behind,
            Err(WorldFault::NotLegal { rule }) => return Ok(stopped(world, taken + 2, rule)),
            Err(WorldFault::Memory(error)) => return Err(error),
        }
    }
    match summary_fault(alloc, world.entries(), rest)? {
        None => Ok(Reading {
            world,
            audit: Audit::Legal { entries: count },
        }),
        Some(shared) => Ok(stopped(world, count + 2 + shared, NO_LINE)),
    }
}

/// What is read of a text in which this line fails, by this rule.
fn stopped(world: World, line: u32, rule: u8) -> Reading
    ensures { result ≡ record { world = world; audit = Wrong line rule } }
{
    Reading {
        world,
        audit: Audit::Wrong { line, rule },
    }
}

/// What an audit of the whole text finds.
fn judged(alloc: Global, layout: Layout, text: &[u8]) -> Result<Audit, AllocError>
    requires { length text.now ≤ AUDIT_LIMIT }
    ensures { IfOk result (IsVerdict layout text.now) }
{
    let reading = read_text(alloc, layout, text)?;
    Ok(reading.audit)
}

/// The number of entries that the first line of an audited text tells, and the text behind that line. None exactly where the
/// first line tells none.
pub(crate) fn told(text: &[u8]) -> Option<(u32, &[u8])>
    ensures { MatchOption result
        ((n : ℕ) (rest : List ℕ) → n < 2 ^ 32 → text.now ≢ head n ++ rest)
        (λ x. text.now ≡ head x.0 ++ x.1.now) }
{
    let (line, rest) = cut(b'\n', text);
    let (word, number) = cut(b' ', line);
    if word != b"journal".as_slice() {
        return None;
    }
    let count = u32::read(number?)?;
    Some((count, rest?))
}

/// Takes the entry of the next line into the world, and gives the text behind that line. A line of no entry is refused by the
/// rule [`NO_LINE`], and a refusal changes nothing in the world. The line is read in the room, which is used again.
fn take_entry<'a>(
    alloc: Global,
    room: &mut Vec<u8>,
    world: &mut World,
    text: &'a [u8],
) -> Result<&'a [u8], WorldFault>
    ensures read { MatchResult result
        (λ rest. TakesEntry world.old world.new text.now rest.now)
        (IsStop world.old text.now) }
    ensures unchanged { OnErr result (world.new ≡ world.old) }
{
    let (line, rest) = cut(b'\n', text);
    let Some(rest) = rest else {
        return Err(WorldFault::NotLegal { rule: NO_LINE });
    };
    match parse_in(alloc, room, line) {
        Ok(Some(entry)) => {
            world.apply(entry)?;
            Ok(rest)
        }
        Ok(None) => Err(WorldFault::NotLegal { rule: NO_LINE }),
        Err(error) => Err(WorldFault::Memory(error)),
    }
}

/// How many lines the text shares with the summary of the entries before it differs, in which scripts may be stuck, as the text
/// says it. None exactly where it is such a summary.
pub(crate) fn summary_fault(
    alloc: Global,
    entries: &[Entry],
    text: &[u8],
) -> Result<Option<u32>, AllocError>
    requires few { length entries.now ≤ AUDIT_LIMIT }
    requires short { length text.now ≤ AUDIT_LIMIT }
    ensures { IfOk result (λ fault. MatchOption fault
        (IsSummary entries.now text.now)
        (λ shared. IsNoSummary entries.now text.now shared × (shared ≤ length text.now))) }
{
    let mut summary = Vec::new(alloc);
    summary_text(entries, &mut summary)?;
    let lines = before_end(&summary);
    match text.strip_prefix(lines) {
        Some(left) => end_fault(alloc, entries, lines, left),
        None => Ok(Some(lines_shared(text, &summary))),
    }
}

/// The summary without its last line, `end`.
fn before_end(summary: &[u8]) -> &[u8]
    ensures { (lines : List ℕ) → summary.now ≡ lines ++ codes "end\n" → result.now ≡ lines }
{
    match summary.strip_suffix(b"end\n") {
        Some(lines) => lines,
        None => summary,
    }
}

/// The same as [`summary_fault`] of these lines, which are those of the summary before its end, and of what is left behind them.
fn end_fault(
    alloc: Global,
    entries: &[Entry],
    lines: &[u8],
    left: &[u8],
) -> Result<Option<u32>, AllocError>
    requires few { length entries.now ≤ AUDIT_LIMIT }
    requires short { length lines.now + length left.now ≤ AUDIT_LIMIT }
    requires lines { lines.now ≡ summary_lines entries.now }
    ensures { IfOk result (λ fault. MatchOption fault
        (IsSummary entries.now (lines.now ++ left.now))
        (λ shared. IsNoSummary entries.now (lines.now ++ left.now) shared
        × (shared ≤ length lines.now + length left.now))) }
{
    let (stuck, behind) = skip_stuck(alloc, entries, left)?;
    if behind == b"end\n".as_slice() {
        return Ok(None);
    }
    let shared = lines_shared(lines, lines) + stuck + lines_shared(behind, b"end\n");
    Ok(Some(shared))
}

/// How many lines, each with its LF, the audited text shares with the other one before they differ.
fn lines_shared(one: &[u8], other: &[u8]) -> u32
    requires { length one.now ≤ AUDIT_LIMIT }
    ensures value { result ≡ lines_shared one.now other.now }
    ensures bound { result ≤ length one.now }
{
    let [c, cs @ ..] = one else {
        return 0;
    };
    let [d, ds @ ..] = other else {
        return 0;
    };
    if *c != *d {
        return 0;
    }
    let shared = lines_shared(cs, ds);
    if *c == b'\n' { 1 + shared } else { shared }
}
