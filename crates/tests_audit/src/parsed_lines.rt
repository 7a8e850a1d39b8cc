//! Single lines, and their entries.

use chorus_audit::parse_entry;
use chorus_entry::{Act, Entry};
use std::alloc::Global;
use std::process::Abort;

/// The entry that an audit parses from the line; None where it has none.
pub(crate) fn entry_of(rt: &impl Abort, alloc: Global, line: &str) -> Option<Entry> {
    parse_entry(alloc, line.as_bytes()).expect(rt, "memory")
}

/// An audit parses a journal line into its entry, up to the greatest numbers.
#[test]
fn lines_have_their_entries(rt: HostRuntime) {
    let line = "5 2 30 no-call";
    let entry = entry_of(&rt, rt.alloc(), line).expect(&rt, "an entry");
    assert!(rt; (entry.clock, entry.place, entry.seat) == (5, 2, 30));
    assert!(rt; matches!(entry.act, Act::NoCall));
    let line = "18446744073709551615 65535 4294967295 late 0";
    let entry = entry_of(&rt, rt.alloc(), line).expect(&rt, "an entry");
    assert!(rt; (entry.clock, entry.place, entry.seat) == (u64::MAX, u16::MAX, u32::MAX));
    assert!(rt; matches!(entry.act, Act::Late { number: 0 }));
}

/// Asserts that the audit parses no entry from this line.
fn assert_none(rt: &impl Abort, alloc: Global, line: &str) {
    assert!(rt; entry_of(rt, alloc, line).is_none(), "{line}");
}

/// An audit parses no entry from a line that is not as journals have it.
#[test]
fn other_lines_have_none(rt: HostRuntime) {
    for line in [
        "",
        "5 2 30",
        "5 2 30 no-call ",
        "5 65536 30 no-call",
        "18446744073709551616 2 30 no-call",
        "05 2 30 no-call",
        "5 2 30 take 1.p.1 0 1:1",
        "5 2 30 take 1.p.1 0 1:1:0:0",
        "5 2 30 post 1:1:0 port 1.p.1 plain =%0A",
    ] {
        assert_none(&rt, rt.alloc(), line);
    }
}
