//! The lines of outcomes, and in how many outcomes a line is.

ghost use Rattle.std.specs.Prelude.{◌≡◌, ◌≢◌, true, false, map, IfOk};
ghost use Rattle.explore_report.specs.Lines.{always_lines, has_line, line_of, lines_in, lines_of_all, lines_of_one, outcomes_with, same_bytes, texts_lines};

use crate::findings::Finding;
use std::alloc::{AllocError, Global};

/// A line of a text, with its LF.
#[derive(Drop)]
pub(crate) struct Line<'a> {
    pub(crate) bytes: &'a [u8],
}

/// The lines of an outcome.
#[derive(Drop)]
pub(crate) struct Lines<'a> {
    pub(crate) lines: Vec<Line<'a>>,
}

/// The lines of each outcome.
pub(crate) fn lines_of_all<'a>(
    alloc: Global,
    items: &'a [Finding],
) -> Result<Vec<Lines<'a>>, AllocError>
    ensures { IfOk result (λ all. lines_of_all all.items ≡ texts_lines items.now) }
{
    let mut all = Vec::new(alloc);
    for index in 0..items.len() {
        all.push(lines_of(alloc, &items[index].text)?)?;
    }
    Ok(all)
}

/// The lines that are in each outcome, as they stand in the first.
pub(crate) fn always_of<'a>(alloc: Global, all: &[Lines<'a>]) -> Result<Vec<Line<'a>>, AllocError>
    ensures { IfOk result (λ lines. map line_of lines.items ≡ always_lines (lines_of_all all.now)) }
{
    let mut always = Vec::new(alloc);
    let Some(first) = all.first() else {
        return Ok(always);
    };
    for line in &first.lines {
        if outcomes_with(line.bytes, all) == all.len() as u64 {
            always.push(Line { bytes: line.bytes })?;
        }
    }
    Ok(always)
}

/// The lines of a text.
fn lines_of<'a>(alloc: Global, text: &'a [u8]) -> Result<Lines<'a>, AllocError>
    ensures { IfOk result (λ lines. lines_of_one lines ≡ lines_in text.now) }
{
    let mut lines = Vec::new(alloc);
    let mut start = 0;
    for index in 0..text.len() {
        if text[index] == b'\n' {
            lines.push(Line {
                bytes: &text[start..index + 1],
            })?;
            start = index + 1;
        }
    }
    Ok(Lines { lines })
}

/// In how many outcomes the line is.
pub(crate) fn outcomes_with(line: &[u8], all: &[Lines<'_>]) -> u64
    ensures { result ≡ outcomes_with line.now (lines_of_all all.now) }
{
    let mut count: u64 = 0;
    for lines in all {
        if has_line(line, &lines.lines) {
            count += 1;
        }
    }
    count
}

/// Whether the line is one of these.
pub(crate) fn has_line(line: &[u8], lines: &[Line<'_>]) -> bool
    ensures { result ≡ has_line line.now (map line_of lines.now) }
{
    for other in lines {
        if is_same(other.bytes, line) {
            return true;
        }
    }
    false
}

/// Whether two facts' lines, or the subjects of two, are the same bytes.
pub(crate) fn is_same(one: &[u8], other: &[u8]) -> bool
    ensures { result ≡ same_bytes one.now other.now }
{
    are_equal(one, other)
}

/// Whether two byte strings of a report are equal, with a contract that says so of the bytes themselves.
fn are_equal(one: &[u8], other: &[u8]) -> bool
    ensures yes { result ≡ true → one.now ≡ other.now }
    ensures no { result ≡ false → one.now ≢ other.now }
{
    one == other
}
