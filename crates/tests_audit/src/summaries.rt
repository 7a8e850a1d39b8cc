//! Journals with their summaries, printed of the entries that their lines have.

use crate::parsed_lines::entry_of;
use chorus_entry::Entry;
use chorus_show::{journal_text, summary_text};
use std::alloc::Global;
use std::process::Abort;

/// Printed journals, lawful or not, each behind its name.
const PRINTED: [(&str, &str); 4] = [
    (
        "empty_scenario",
        "\
journal 0
summary
posted 0
accepted 0
taken 0
queued 0
moving 0
refused 0
stale 0
departs 0
end
",
    ),
    // none of the entries is counted
    (
        "a line for each entry",
        "\
journal 2
5 2 30 no-call
5 2 30 late 2
summary
posted 0
accepted 0
taken 0
queued 0
moving 0
refused 0
stale 0
departs 0
end
",
    ),
    // a deletion that discards nothing has its line too
    (
        "a deletion without ids",
        "\
journal 1
5 2 30 delete 1.p.6
summary
posted 0
accepted 0
taken 0
queued 0
moving 0
discarded 0
refused 0
stale 0
departs 0
end
",
    ),
    // port 1 moves with two messages, of port 2 more is taken than accepted, port 3 came back and holds one, port 4 is deleted with two
    // messages, port 5 was never made, and port 6 is deleted with none
    (
        "where six ports are",
        "\
journal 24
5 2 30 post 3:7:1 port 1.p.1 plain =
5 2 30 make 1.p.1 2.a.8 4
5 2 30 accept 3:7:1 1.p.1 0
5 2 30 accept 3:7:1 1.p.1 0
5 2 30 take 1.p.1 0 3:7:1
5 2 30 depart 1.p.1 2 2.a.8 1
5 2 30 accept 3:7:1 1.p.1 0
5 2 30 arrive 1.p.2 1
5 2 30 accept 3:7:1 1.p.2 0
5 2 30 take 1.p.2 0 3:7:1
5 2 30 take 1.p.2 0 3:7:1
5 2 30 full 3:7:1 1.p.2 4
5 2 30 depart 1.p.3 2 2.a.8 1
5 2 30 arrive 1.p.3 1
5 2 30 accept 3:7:1 1.p.3 0
5 2 30 rehome 1.p.3 2.a.8
5 2 30 make 1.p.4 2.a.8 4
5 2 30 accept 3:7:1 1.p.4 0
5 2 30 delete 1.p.4 3:7:1 3:7:1
5 2 30 gone 3:7:1 1.p.4
5 2 30 delete 1.p.6
5 2 30 stale 3:7:1 1.p.6 0 2 1
5 2 30 stale 3:7:1 1.p.1 0 2 1
5 2 30 accept 3:7:1 1.p.5 0
summary
posted 1
accepted 7
taken 3
queued 1
moving 2
discarded 2
refused 2
stale 2
departs 2
end
",
    ),
];

/// The entries whose lines stand in the printed journal, to be printed again with their summary.
fn entries_in(rt: &impl Abort, alloc: Global, printed: &str) -> Vec<Entry> {
    let mut entries = Vec::new(alloc);
    for line in printed.lines() {
        if let Some(entry) = entry_of(rt, alloc, line) {
            entries.push(entry).expect(rt, "memory");
        }
    }
    entries
}

/// The journal of the entries and their summary, printed behind what was there.
fn printed_of(rt: &impl Abort, alloc: Global, entries: &[Entry]) -> String {
    let mut lent = Vec::new(alloc);
    for entry in entries {
        lent.push(entry).expect(rt, "memory");
    }
    let mut out = Vec::from_slice(alloc, b"> ").expect(rt, "memory");
    journal_text(&lent, &mut out).expect(rt, "memory");
    summary_text(entries, &mut out).expect(rt, "memory");
    String::from_utf8(out).ok().expect(rt, "a text")
}

/// Asserts that the entries of a printed journal are printed so, with their summary.
fn assert_printed(rt: &impl Abort, alloc: Global, name: &str, printed: &str) {
    let entries = entries_in(rt, alloc, printed);
    let text = printed_of(rt, alloc, &entries);
    assert!(rt; text.as_str().strip_prefix("> ") == Some(printed), "{name}");
}

/// A printed journal has its count, a line for each entry, and a summary that counts messages by where their ports are.
#[test]
fn journals_and_summaries_are_printed(rt: HostRuntime) {
    for (name, printed) in PRINTED {
        assert_printed(&rt, rt.alloc(), name, printed);
    }
}
