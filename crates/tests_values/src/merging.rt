//! Merges of journals. What is not as it is to be ends the test.

use chorus_entry::{Act, Entry};
use chorus_merge::merge;
use std::alloc::Global;
use std::process::Abort;

/// An entry of a journal to merge, which tells by its seat where it stood.
fn entry(clock: u64, place: u16, seat: u32) -> Entry {
    Entry {
        clock,
        place,
        seat,
        act: Act::NoCall,
    }
}

/// A journal to merge, with an entry for each clock, place and seat listed.
fn journal(rt: &impl Abort, alloc: Global, entries: &[(u64, u16, u32)]) -> Vec<Entry> {
    let mut journal = Vec::new(alloc);
    for (clock, place, seat) in entries.iter() {
        journal
            .push(entry(*clock, *place, *seat))
            .expect(rt, "memory");
    }
    journal
}

/// The journals to merge, one for each row of clocks, places and seats.
fn journals(rt: &impl Abort, alloc: Global, rows: &[&[(u64, u16, u32)]]) -> Vec<Vec<Entry>> {
    let mut journals = Vec::new(alloc);
    for entries in rows.iter() {
        journals
            .push(journal(rt, alloc, entries))
            .expect(rt, "memory");
    }
    journals
}

/// Asserts that the journals are merged into this one.
fn assert_merged(
    rt: &impl Abort,
    alloc: Global,
    rows: &[&[(u64, u16, u32)]],
    want: &[(u64, u16, u32)],
) {
    let merged = merge(alloc, &journals(rt, alloc, rows)).expect(rt, "memory");
    assert!(rt; merged.len() == want.len());
    for (entry, row) in merged.iter().zip(want) {
        assert!(rt;
            (entry.clock, entry.place, entry.seat) == *row && matches!(entry.act, Act::NoCall)
        );
    }
}

/// Two journals are merged by clock, and at equal clocks by place; none are merged into an empty one.
#[test]
fn merge_by_clock_then_place(rt: HostRuntime) {
    let rows: [&[(u64, u16, u32)]; 2] = [&[(1, 1, 0), (4, 1, 0)], &[(1, 2, 0), (2, 2, 0)]];
    let want = [(1, 1, 0), (1, 2, 0), (2, 2, 0), (4, 1, 0)];
    assert_merged(&rt, rt.alloc(), &rows, &want);
    assert_merged(&rt, rt.alloc(), &[], &[]);
}
