//! Journals of systems of any kind, judged by promises: what is told of them, worked out by a judge that was written apart.

use crate::judgements::{journal_of, judged_as};
use chorus_judge::{Asked, Judgement, Measure};
use chorus_ui::Layout;

/// By promises, on three sites of one place.
pub(crate) fn asked() -> Asked {
    Asked {
        measure: Measure::Promises,
        layout: Layout::new(3, 1),
    }
}

/// A journal that lacks nothing in its name, the lines of its entries, what it is judged to be, and what is told of it.
type Row = (&'static str, &'static str, Judgement, &'static str);

const ROWS: [Row; 9] = [
    ("nothing", "", Judgement::Quiet, "kept 0\nopen 0\n"),
    (
        "a message that waits for its verdict",
        "\
1 1 0 make 1.p.1 1.a.1 1
2 2 1 post 1:1:0 port 1.p.1 plain =a
",
        Judgement::Open,
        "\
kept 2
open 1
line 3 message 1:1:0 without verdict
",
    ),
    (
        "one that is accepted from another place, with no try and no word back",
        "\
1 1 0 make 1.p.1 1.a.1 1
2 2 1 post 1:1:0 port 1.p.1 plain =a
2 1 0 accept 1:1:0 1.p.1 0
3 1 2 take 1.p.1 0 1:1:0
",
        Judgement::Quiet,
        "kept 4\nopen 0\n",
    ),
    (
        "acts that are not read, whatever they say",
        "\
9 1 1 told 1:9:0 no-port
1 1 0 make 1.p.1 1.a.1 1
1 9 1 empty 1.p.7
",
        Judgement::Quiet,
        "kept 3\nopen 0\n",
    ),
    (
        "a port that is on its way",
        "\
1 1 0 make 1.p.1 1.a.1 1
2 1 1 depart 1.p.1 2 2.a.1 1
",
        Judgement::Open,
        "\
kept 2
open 1
line 3 port 1.p.1 without arrive
",
    ),
    (
        "one that came, and went back",
        "\
1 1 0 make 1.p.1 1.a.1 1
2 1 1 depart 1.p.1 2 2.a.1 1
3 2 0 arrive 1.p.1 1
4 2 1 depart 1.p.1 1 1.a.1 2
5 1 0 arrive 1.p.1 2
",
        Judgement::Quiet,
        "kept 5\nopen 0\n",
    ),
    (
        "a post to a group",
        "\
1 1 1 post 1:1:0 all 1.g.1 plain =a
",
        Judgement::Open,
        "\
kept 1
open 1
line 2 message 1:1:0 without choose
",
    ),
    (
        "the copies of one, of which the second is accepted",
        "\
1 1 0 make 1.p.1 1.a.1 1
2 1 0 make 1.p.2 1.a.1 1
3 1 1 post 1:1:0 all 1.g.1 plain =a
4 1 0 choose 1:1:0 1.g.1 1.p.1 1.p.2
5 1 0 accept 1:1:2 1.p.2 0
",
        Judgement::Open,
        "\
kept 5
open 1
line 5 message 1:1:1 without verdict
",
    ),
    (
        "what is open in front of a wrong line",
        "\
1 1 0 make 1.p.1 1.a.1 1
2 1 1 post 1:1:0 port 1.p.1 plain =a
3 1 1 post 1:2:0 port 1.p.1 plain =b
4 1 0 accept 1:1:0 1.p.1 0
5 1 0 accept 1:2:0 1.p.1 1
6 1 0 accept 1:2:0 1.p.1 1
",
        Judgement::Wrong,
        "\
wrong line 6 rule 6 condition 4 line 5
open 1
line 4 message 1:2:0 without verdict
",
    ),
];

/// Each journal is judged by promises as its row says, and all is told that the row tells.
#[test]
fn judges_by_promises(rt: HostRuntime) {
    for (name, lines, judgement, told) in ROWS {
        let text = journal_of(&rt, rt.alloc(), lines);
        let found = judged_as(&rt, rt.alloc(), asked(), text.as_str(), 0, 64, 0);
        assert_eq!(&rt; found.written.as_str(), told, "{name}");
        assert!(&rt; found.ended == Ok(judgement), "{name}");
    }
}

/// Texts, each with a line that may not stand there, and what is told of them.
const STOPPED: [(&str, &str); 6] = [
    ("", "wrong line 1 rule 99\nopen 0\n"),
    ("journal 0\n", "wrong line 2 rule 99\nopen 0\n"),
    (
        "journal 1\n1 1 0 make 1.p.1 1.a.1 1",
        "wrong line 2 rule 99\nopen 0\n",
    ),
    (
        "\
journal 3
1 1 0 make 1.p.1 1.a.1 1
2 2 1 post 1:1:0 port 1.p.1 plain =a
03 1 0 accept 1:1:0 1.p.1 0
",
        "\
wrong line 4 rule 99
open 1
line 3 message 1:1:0 without verdict
",
    ),
    (
        "\
journal 1
1 1 0 make 1.p.1 1.a.1 1
summary
posted 1
",
        "wrong line 4 rule 99\nopen 0\n",
    ),
    (
        "\
journal 2
1 4 0 make 1.p.1 1.a.1 1
no entry
",
        "wrong line 2 rule 0 condition 1\nopen 0\n",
    ),
];

/// By promises too a text stops at the first line that may not stand there, unless a promise is broken in front of it.
#[test]
fn stops_where_no_line_may_stand(rt: HostRuntime) {
    for (text, told) in STOPPED {
        let found = judged_as(&rt, rt.alloc(), asked(), text, 0, 64, 0);
        assert_eq!(&rt; found.written.as_str(), told, "{text}");
        assert!(&rt; found.ended == Ok(Judgement::Wrong), "{text}");
    }
}
