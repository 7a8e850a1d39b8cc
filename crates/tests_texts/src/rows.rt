//! What reads the rows of all tests of scenario texts, those in `scenarios`, `refused` and `limits`.
//!
//! A row has a text, in which `;` stands for the end of a line, `!` for `|` and `$` for the byte 255, then `|`, and what is told of
//! it: the line and the reason for which it is refused, or `read`.

use chorus_scene::{ReadFault, SceneFault, read};
use chorus_ui::Layout;
use std::alloc::Global;
use std::process::Abort;

/// The layout against which a scenario is read: so many sites, each with so many places.
pub(crate) fn layout_of(rt: &impl Abort, sites: u16, turns: u16) -> Layout {
    Layout::new(sites, turns).expect(rt, "a layout")
}

/// A scenario's front with so many of these lines behind it.
pub(crate) fn repeated(
    rt: &impl Abort,
    alloc: Global,
    front: &str,
    line: &str,
    count: usize,
) -> String {
    let mut text = String::new(alloc);
    text.push_str(front).expect(rt, "memory");
    for _ in 0..count {
        text.push_str(line).expect(rt, "memory");
    }
    text
}

/// The byte of a scenario's text for which this one stands in a row.
fn byte_of(c: u8) -> u8 {
    match c {
        b';' => b'\n',
        b'!' => b'|',
        b'$' => 255,
        _ => c,
    }
}

/// A scenario's front with the text of a row behind it.
pub(crate) fn behind(rt: &impl Abort, alloc: Global, front: &str, text: &str) -> Vec<u8> {
    let mut whole = Vec::from_slice(alloc, front.as_bytes()).expect(rt, "memory");
    for c in text.as_bytes() {
        whole.push(byte_of(*c)).expect(rt, "memory");
    }
    whole
}

/// The fault of the text of a scenario; None where it is read.
pub(crate) fn fault_of(
    rt: &impl Abort,
    alloc: Global,
    layout: Layout,
    text: &[u8],
) -> Option<SceneFault> {
    match read(alloc, text, layout) {
        Ok(_) => None,
        Err(ReadFault::Scene(fault)) => Some(fault),
        Err(ReadFault::Memory(_)) => panic!(rt; "memory"),
    }
}

/// How a row has it that the text of a scenario is read or refused: `read`, or the line and the reason.
fn told_of(rt: &impl Abort, alloc: Global, layout: Layout, text: &[u8]) -> String {
    let mut told = String::new(alloc);
    match fault_of(rt, alloc, layout, text) {
        None => told.push_str("read").expect(rt, "memory"),
        Some(SceneFault { line, reason }) => {
            write!(told, "{line} {reason}").expect(rt, "memory");
        }
    }
    told
}

/// Reads the row's text behind the front, and asserts that it is read, or refused by the line and reason told.
fn assert_row(rt: &impl Abort, alloc: Global, name: &str, layout: Layout, front: &str, row: &str) {
    let (text, told) = row.split_once('|').expect(rt, "a row");
    let whole = behind(rt, alloc, front, text);
    let found = told_of(rt, alloc, layout, &whole);
    assert_eq!(rt; found.as_str(), told, "{name}: {row}");
}

/// Asserts what each row under the name says of its scenario's text, which stands behind the front.
pub(crate) fn assert_rows(
    rt: &impl Abort,
    alloc: Global,
    name: &str,
    layout: Layout,
    front: &str,
    rows: &str,
) {
    for row in rows.lines() {
        assert_row(rt, alloc, name, layout, front, row);
    }
}
