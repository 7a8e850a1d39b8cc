//! Whole texts, and what an audit finds.
//!
//! A row has a text, in which `;` stands for the end of a line, `#` for the summary of nothing before its end, and `$` for all of it, then
//! `|`, and what an audit finds: `legal` and how many entries there are, or `wrong`, the line and the rule.

use chorus_audit::{AUDIT_LIMIT, Audit, audit_text};
use chorus_ui::Layout;
use std::alloc::Global;
use std::process::Abort;

const NOTHING: &str =
    "summary\nposted 0\naccepted 0\ntaken 0\nqueued 0\nmoving 0\nrefused 0\nstale 0\ndeparts 0\n";

const END: &str = "end\n";

/// What an audit finds for eight sites with so many places each.
fn found(rt: &impl Abort, alloc: Global, turns: u16, text: &[u8]) -> Audit {
    let layout = Layout::new(8, turns).expect(rt, "a layout");
    assert!(rt; text.len() <= AUDIT_LIMIT);
    audit_text(alloc, layout, text).expect(rt, "memory")
}

/// What an audit finds in the text, told as in a row.
fn told_of(rt: &impl Abort, alloc: Global, turns: u16, text: &str) -> String {
    let mut told = String::new(alloc);
    match found(rt, alloc, turns, text.as_bytes()) {
        Audit::Legal { entries } => write!(told, "legal {entries}").expect(rt, "memory"),
        Audit::Wrong { line, rule } => write!(told, "wrong {line} {rule}").expect(rt, "memory"),
    }
    told
}

/// Appends what the character of a row stands for to the text that is to be audited.
fn push_part(rt: &impl Abort, text: &mut String, c: char) {
    let told = match c {
        ';' => text.push('\n'),
        '#' => text.push_str(NOTHING),
        '$' => {
            text.push_str(NOTHING).expect(rt, "memory");
            text.push_str(END)
        }
        _ => text.push(c),
    };
    told.expect(rt, "memory");
}

/// The text of a row, which is to be audited.
fn text_of(rt: &impl Abort, alloc: Global, row: &str) -> String {
    let mut text = String::new(alloc);
    for c in row.chars() {
        push_part(rt, &mut text, c);
    }
    text
}

/// Audits the text of a row and asserts the verdict behind its `|`, on sites with so many places each.
fn assert_row(rt: &impl Abort, alloc: Global, name: &str, turns: u16, row: &str) {
    let (text, want) = row.split_once('|').expect(rt, "a row");
    let text = text_of(rt, alloc, text);
    let told = told_of(rt, alloc, turns, text.as_str());
    assert_eq!(rt; told.as_str(), want, "{name}: {row}");
}

/// Asserts what each row says of the audit of its text, on sites with so many places each.
fn assert_rows(rt: &impl Abort, alloc: Global, name: &str, turns: u16, rows: &str) {
    for row in rows.lines() {
        assert_row(rt, alloc, name, turns, row);
    }
}

/// Rows under a name, which tells what they are about, and how many places each site has for them.
const ROWS: [(&str, u16, &str); 8] = [
    // a full port, and a message that it cannot have accepted
    (
        "audit_finds_the_line",
        1,
        "\
journal 8;1 1 0 make 1.p.1 1.a.1 1;2 1 1 post 1:1:0 port 1.p.1 plain =a;3 1 1 accept 1:1:0 1.p.1 0;4 1 1 post 1:2:0 port 1.p.1 plain =b;5 1 1 full 1:2:0 1.p.1 1;6 1 1 take 1.p.1 0 1:1:0;7 1 1 empty 1.p.1;8 1 1 empty 1.p.1;summary;posted 2;accepted 1;taken 1;queued 0;moving 0;refused 1;stale 0;departs 0;end;|legal 8
journal 8;1 1 0 make 1.p.1 1.a.1 1;2 1 1 post 1:1:0 port 1.p.1 plain =a;3 1 1 accept 1:1:0 1.p.1 0;4 1 1 post 1:2:0 port 1.p.1 plain =b;5 1 1 accept 1:2:0 1.p.1 1;6 1 1 take 1.p.1 0 1:1:0;7 1 1 empty 1.p.1;8 1 1 empty 1.p.1;summary;posted 2;accepted 1;taken 1;queued 0;moving 0;refused 1;stale 0;departs 0;end;|wrong 6 6
",
    ),
    // the first line, which is `journal` and a count
    (
        "only_a_journal_line_is_taken_as_the_first_line",
        1,
        "\
journal 0;$|legal 0
|wrong 1 99
journal 0|wrong 1 99
journal 0\r;$|wrong 1 99
journal 00;$|wrong 1 99
journal 4294967296;|wrong 1 99
journal 4294967295;|wrong 2 99
",
    ),
    // a line that is no entry, or none that may stand there
    (
        "lines_that_may_not_stand_are_found_with_their_rule",
        1,
        "\
journal 1;1  1 0 make 1.p.1 1.a.1 1;|wrong 2 99
journal 1;1 1 0 make 1.p.1 1.a.1 1\r;|wrong 2 99
journal 1;1 1 0 make 1.p.1 1.a.1 1|wrong 2 99
journal 1;1 1 0 choose 1:1:0 1.g.1;|wrong 2 15
journal 1;0 1 0 make 1.p.1 1.a.1 1;|wrong 2 0
journal 2;1 1 0 make 1.p.1 1.a.1 1;2 1 1 post 1:1:0 port 1.p.1 plain =%41;|wrong 3 99
",
    ),
    // a summary that is cut, is followed by more, or is not that of the entries
    (
        "only_the_whole_summary_of_the_entries_is_taken",
        1,
        "\
journal 0;summary;posted 0;accepted 0;taken 0;queued 0;moving 0;refused 0;stale 0;departs 0;|wrong 11 99
journal 0;summary;posted 0;accepted 0;taken 0;queued 0;moving 0;refused 0;stale 0;departs 0;end|wrong 11 99
journal 0;$;|wrong 12 99
journal 0;$end;|wrong 12 99
journal 0;summary;posted 2;accepted 1;taken 1;queued 0;moving 0;refused 1;stale 0;departs 0;end;|wrong 3 99
",
    ),
    // script 1 gave one command, and the others gave none
    (
        "scripts_that_are_stuck_have_their_lines",
        1,
        "\
journal 1;1 1 1 make 1.p.1 1.a.1 1;#stuck 1 2;end;|legal 1
journal 1;1 1 1 make 1.p.1 1.a.1 1;#stuck 1 2;stuck 3 1;stuck 4294967295 1;end;|legal 1
journal 1;1 1 1 make 1.p.1 1.a.1 1;#stuck 1 1;end;|wrong 12 99
journal 1;1 1 1 make 1.p.1 1.a.1 1;#stuck 1 3;end;|wrong 12 99
journal 1;1 1 1 make 1.p.1 1.a.1 1;#stuck 0 1;end;|wrong 12 99
journal 1;1 1 1 make 1.p.1 1.a.1 1;#stuck 4294967296 1;end;|wrong 12 99
journal 1;1 1 1 make 1.p.1 1.a.1 1;#stuck 2 1;stuck 1 2;end;|wrong 13 99
journal 1;1 1 1 make 1.p.1 1.a.1 1;#stuck 1 2;stuck 1 2;end;|wrong 13 99
journal 1;1 1 1 make 1.p.1 1.a.1 1;#stuck 1 2;stuck 2 2;end;|wrong 13 99
journal 1;1 1 1 make 1.p.1 1.a.1 1;#stuck 01 2;end;|wrong 12 99
journal 1;1 1 1 make 1.p.1 1.a.1 1;#stuck 1 2|wrong 12 99
journal 1;1 1 1 make 1.p.1 1.a.1 1;#stuck 1 2;|wrong 13 99
journal 1;1 1 1 make 1.p.1 1.a.1 1;#stuck 1 2;end;end;|wrong 14 99
journal 1;1 1 1 make 1.p.1 1.a.1 1;$stuck 1 2;|wrong 13 99
journal 0;summary;stuck 1 1;posted 0;|wrong 3 99
",
    ),
    // ports of places that a layout has, or has not
    (
        "a_layout_judges_its_own_journals",
        1,
        "\
journal 1;1 2 0 make 1.p.2 1.a.2 1;$|wrong 2 1
",
    ),
    (
        "a_layout_judges_its_own_journals",
        2,
        "\
journal 1;1 2 0 make 1.p.2 1.a.2 1;$|legal 1
journal 1;1 3 0 make 1.p.3 1.a.3 1;$|wrong 2 1
",
    ),
    (
        "a_layout_judges_its_own_journals",
        4,
        "\
journal 1;1 3 0 make 1.p.3 1.a.3 1;$|legal 1
",
    ),
];

/// An audit finds a journal legal, or the first line that is wrong and its rule, by the layout's places of a site.
#[test]
fn texts_are_legal_or_wrong_in_a_line(rt: HostRuntime) {
    for (name, turns, rows) in ROWS {
        assert_rows(&rt, rt.alloc(), name, turns, rows);
    }
}
