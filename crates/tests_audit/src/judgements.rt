//! Journals, what they are judged to be, and what is told of them. The lines of the entries are worked out by hand; the first line and
//! the summary are made from them.

use crate::ground::{sink_of, source_of};
use crate::parsed_lines::entry_of;
use chorus_judge::{Asked, Judgement, Measure, judge};
use chorus_show::{Status, journal_text, summary_text};
use chorus_ui::Layout;
use std::alloc::Global;
use std::process::Abort;

/// How a judgement ended, and what was written.
#[derive(Drop)]
pub(crate) struct Outcome {
    pub(crate) ended: Result<Judgement, Status>,
    pub(crate) written: String,
}

/// Judges the text by the rules for the layout asked, where this read fails, and this write, of at most so many bytes. None is
/// numbered 0.
pub(crate) fn judged(
    rt: &impl Abort,
    alloc: Global,
    layout: Option<Layout>,
    text: &str,
    read: u64,
    most: usize,
    write: u64,
) -> Outcome {
    let asked = Asked {
        measure: Measure::Rules,
        layout,
    };
    judged_as(rt, alloc, asked, text, read, most, write)
}

/// Judges the text as it is asked, where this read fails, and this write, of at most so many bytes. None is numbered 0.
pub(crate) fn judged_as(
    rt: &impl Abort,
    alloc: Global,
    asked: Asked,
    text: &str,
    read: u64,
    most: usize,
    write: u64,
) -> Outcome {
    let mut source = source_of(rt, alloc, text, read);
    let mut sink = sink_of(rt, alloc, most, write);
    let ended = judge(alloc, asked, &mut source, &mut sink);
    let bytes = Vec::from_slice(alloc, sink.bytes()).expect(rt, "memory");
    let written = String::from_utf8(bytes).ok().expect(rt, "a text");
    Outcome { ended, written }
}

/// Eight sites of one place.
fn eight_sites() -> Option<Layout> {
    Layout::new(8, 1)
}

/// The journal of the entries that these lines have, with their summary.
pub(crate) fn journal_of(rt: &impl Abort, alloc: Global, lines: &str) -> String {
    let mut entries = Vec::new(alloc);
    for line in lines.lines() {
        let entry = entry_of(rt, alloc, line).expect(rt, "an entry");
        entries.push(entry).expect(rt, "memory");
    }
    let mut lent = Vec::new(alloc);
    for entry in &entries {
        lent.push(entry).expect(rt, "memory");
    }
    let mut text = Vec::new(alloc);
    journal_text(&lent, &mut text).expect(rt, "memory");
    summary_text(&entries, &mut text).expect(rt, "memory");
    String::from_utf8(text).ok().expect(rt, "a text")
}

/// A journal that lacks nothing in its name, the lines of its entries, what it is judged to be, and what is told of it.
type Row = (&'static str, &'static str, Judgement, &'static str);

/// Each row leaves something else open, or settles what the row before it left.
const ROWS: [Row; 13] = [
    ("nothing", "", Judgement::Quiet, "run 0\nopen 0\n"),
    (
        "a post that waits to be tried",
        "\
1 2 0 make 2.p.1 2.a.1 1
2 1 1 post 1:1:0 port 2.p.1 plain =a
",
        Judgement::Open,
        "\
run 2
open 1
line 3 message 1:1:0 without verdict
seat 0 2.a.1
seat 1 1.a.1
",
    ),
    (
        "a try that is not decided, behind a post that is not tried",
        "\
1 2 0 make 2.p.1 2.a.1 1
2 1 1 post 1:1:0 port 2.p.1 plain =a
3 1 1 try 1:1:0 2.p.1 2 0
4 1 1 post 1:2:0 port 2.p.1 plain =b
",
        Judgement::Open,
        "\
run 4
open 2
line 3 message 1:1:0 without verdict
line 5 message 1:2:0 without verdict
seat 0 2.a.1
seat 1 1.a.1
",
    ),
    (
        "a decision that is not told",
        "\
1 2 0 make 2.p.1 2.a.1 1
2 1 1 post 1:1:0 port 2.p.1 plain =a
3 1 1 try 1:1:0 2.p.1 2 0
4 2 0 accept 1:1:0 2.p.1 0
",
        Judgement::Open,
        "\
run 4
open 1
line 3 message 1:1:0 without told
seat 0 2.a.1
seat 1 1.a.1
",
    ),
    (
        "and that is told",
        "\
1 2 0 make 2.p.1 2.a.1 1
2 1 1 post 1:1:0 port 2.p.1 plain =a
3 1 1 try 1:1:0 2.p.1 2 0
4 2 0 accept 1:1:0 2.p.1 0
5 1 0 told 1:1:0 accepted 0
",
        Judgement::Quiet,
        "\
run 5
open 0
seat 0 2.a.1
seat 1 1.a.1
",
    ),
    (
        "a port on its second way, and a message that came too late for it",
        "\
1 1 0 make 1.p.1 1.a.1 1
2 1 1 depart 1.p.1 2 2.a.1 1
3 2 0 arrive 1.p.1 1
4 2 2 depart 1.p.1 3 3.a.1 2
5 3 3 post 3:1:0 port 1.p.1 plain =a
6 3 3 try 3:1:0 1.p.1 1 0
7 1 0 stale 3:1:0 1.p.1 0 2 1
8 3 0 told 3:1:0 stale 2 1
",
        Judgement::Open,
        "\
run 8
open 2
line 5 port 1.p.1 without arrive
line 6 message 3:1:0 without verdict
seat 0 1.a.1
seat 1 1.a.1
seat 2 2.a.1
seat 3 3.a.1
",
    ),
    (
        "a post to the group of another place",
        "\
1 2 0 make 2.p.1 2.a.1 1
2 2 0 group 2.g.1
3 2 0 join 2.g.1 2.p.1
4 1 1 post 1:1:0 all 2.g.1 plain =a
",
        Judgement::Open,
        "\
run 4
open 1
line 5 message 1:1:0 without choose
seat 0 2.a.1
seat 1 1.a.1
",
    ),
    (
        "of which the members are chosen",
        "\
1 2 0 make 2.p.1 2.a.1 1
2 2 0 group 2.g.1
3 2 0 join 2.g.1 2.p.1
4 1 1 post 1:1:0 all 2.g.1 plain =a
5 2 0 choose 1:1:0 2.g.1 2.p.1
",
        Judgement::Open,
        "\
run 5
open 2
line 5 message 1:1:0 without heard
line 6 message 1:1:1 without verdict
seat 0 2.a.1
seat 1 1.a.1
",
    ),
    (
        "of which the copy is accepted",
        "\
1 2 0 make 2.p.1 2.a.1 1
2 2 0 group 2.g.1
3 2 0 join 2.g.1 2.p.1
4 1 1 post 1:1:0 all 2.g.1 plain =a
5 2 0 choose 1:1:0 2.g.1 2.p.1
6 2 0 accept 1:1:1 2.p.1 0
7 1 0 heard 1:1:0 chosen 1
",
        Judgement::Open,
        "\
run 7
open 1
line 6 message 1:1:1 without heard
seat 0 2.a.1
seat 1 1.a.1
",
    ),
    (
        "and of which all is heard",
        "\
1 2 0 make 2.p.1 2.a.1 1
2 2 0 group 2.g.1
3 2 0 join 2.g.1 2.p.1
4 1 1 post 1:1:0 all 2.g.1 plain =a
5 2 0 choose 1:1:0 2.g.1 2.p.1
6 2 0 accept 1:1:1 2.p.1 0
7 1 0 heard 1:1:0 chosen 1
8 1 0 heard 1:1:1 accepted 0
",
        Judgement::Quiet,
        "\
run 8
open 0
seat 0 2.a.1
seat 1 1.a.1
",
    ),
    (
        "a reply that was taken",
        "\
1 1 0 make 1.p.1 1.a.1 1
2 1 0 make 1.p.2 1.a.2 1
3 1 1 post 1:1:0 port 1.p.1 request 1 1.p.2 =q
4 1 1 accept 1:1:0 1.p.1 0
5 1 2 take 1.p.1 0 1:1:0
6 1 2 post 2:1:0 port 1.p.2 reply 1 1 =r
7 1 2 accept 2:1:0 1.p.2 0
8 1 1 take 1.p.2 0 2:1:0
",
        Judgement::Open,
        "\
run 8
open 1
line 9 reply 2:1:0 without done
seat 0 1.a.1
seat 1 1.a.2
seat 2 1.a.1
",
    ),
    (
        "behind which another act stands",
        "\
1 1 0 make 1.p.1 1.a.1 1
2 1 0 make 1.p.2 1.a.2 1
3 1 1 post 1:1:0 port 1.p.1 request 1 1.p.2 =q
4 1 1 accept 1:1:0 1.p.1 0
5 1 2 take 1.p.1 0 1:1:0
6 1 2 post 2:1:0 port 1.p.2 reply 1 1 =r
7 1 2 accept 2:1:0 1.p.2 0
8 1 1 take 1.p.2 0 2:1:0
9 1 1 empty 1.p.2
",
        Judgement::Wrong,
        "wrong line 9 rule 41 condition 1 line 10\nopen 1\nline 9 reply 2:1:0 without done\n",
    ),
    (
        "an arrival that nothing left for, where a message waits",
        "\
1 1 0 make 1.p.1 1.a.1 1
2 1 1 post 1:1:0 port 1.p.1 plain =a
3 2 0 arrive 1.p.1 1
",
        Judgement::Wrong,
        "wrong line 4 rule 26 condition 2 line 2\nopen 1\nline 3 message 1:1:0 without verdict\n",
    ),
];

/// Each journal is judged as its row says, and all is told that the row tells.
#[test]
fn judges_journals(rt: HostRuntime) {
    for (name, lines, judgement, told) in ROWS {
        let text = journal_of(&rt, rt.alloc(), lines);
        let found = judged(&rt, rt.alloc(), eight_sites(), text.as_str(), 0, 64, 0);
        assert_eq!(&rt; found.written.as_str(), told, "{name}");
        assert!(&rt; found.ended == Ok(judgement), "{name}");
    }
}

/// The text with the lines of scripts that are stuck before its end, which is to be judged.
fn with_stuck(rt: &impl Abort, alloc: Global, text: &str, stuck: &str) -> String {
    let mut out = String::new(alloc);
    let front = text.strip_suffix("end\n").expect(rt, "an end");
    write!(out, "{front}{stuck}end\n").expect(rt, "memory");
    out
}

/// Scripts that may be stuck change nothing of what is told; one that may not is a wrong line.
#[test]
fn judges_what_is_stuck(rt: HostRuntime) {
    for (stuck, judgement, told) in [
        ("stuck 2 1\n", Judgement::Quiet, "run 0\nopen 0\n"),
        (
            "stuck 2 2\n",
            Judgement::Wrong,
            "wrong line 11 rule 99\nopen 0\n",
        ),
    ] {
        let text = journal_of(&rt, rt.alloc(), "");
        let text = with_stuck(&rt, rt.alloc(), text.as_str(), stuck);
        let found = judged(&rt, rt.alloc(), eight_sites(), text.as_str(), 0, 64, 0);
        assert_eq!(&rt; found.written.as_str(), told, "{stuck}");
        assert!(&rt; found.ended == Ok(judgement), "{stuck}");
    }
}

/// The numbers by which a program ends.
#[test]
fn each_judgement_has_its_number(rt: HostRuntime) {
    assert_eq!(&rt; Judgement::Quiet.number(), 0);
    assert_eq!(&rt; Judgement::Wrong.number(), 7);
    assert_eq!(&rt; Judgement::Open.number(), 8);
}

/// Of more than a hundred messages that wait all are counted, and the first hundred are told.
#[test]
fn tells_a_hundred(rt: HostRuntime) {
    let mut lines = String::new(rt.alloc());
    let mut told = String::new(rt.alloc());
    writeln!(told, "run 101\nopen 101").expect(&rt, "memory");
    for n in 1..=101u64 {
        writeln!(lines, "{n} 1 1 post 1:{n}:0 port 1.p.1 plain =").expect(&rt, "memory");
        if n <= 100 {
            let line = n + 1;
            writeln!(told, "line {line} message 1:{n}:0 without verdict").expect(&rt, "memory");
        }
    }
    writeln!(told, "seat 1 1.a.1").expect(&rt, "memory");
    let text = journal_of(&rt, rt.alloc(), lines.as_str());
    let found = judged(&rt, rt.alloc(), eight_sites(), text.as_str(), 0, 1 << 16, 0);
    assert_eq!(&rt; found.written.as_str(), told.as_str());
}

/// A judgement ends by the read or the write that fails: with nothing written, or a front of what is told.
#[test]
fn reads_and_writes_fail(rt: HostRuntime) {
    let text = journal_of(&rt, rt.alloc(), "");
    for read in 1..=2 {
        let found = judged(&rt, rt.alloc(), eight_sites(), text.as_str(), read, 1, 0);
        assert!(&rt; found.ended == Err(Status::ReadFault), "read {read}");
        assert_eq!(&rt; found.written.as_str(), "", "read {read}");
    }
    let found = judged(&rt, rt.alloc(), eight_sites(), text.as_str(), 0, 1, 8);
    assert!(&rt; found.ended == Err(Status::WriteFault), "a write");
    assert_eq!(&rt; found.written.as_str(), "run 0\no", "a write");
}
