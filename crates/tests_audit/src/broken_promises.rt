//! Journals whose last line breaks a promise: which condition of which rule is said to fail, and which line that is
//! about, worked out by a judge that was written apart.

use crate::judgements::judged_as;
use crate::promised::asked;
use std::alloc::Global;
use std::process::Abort;

/// The lines of the entries of a journal, of which the last one alone breaks a promise, and the line that is told of
/// that. Each condition fails first in some of them; the two that all verdicts of a port share, where one is accepted.
const BROKEN: [(&str, &str); 62] = [
    (
        "\
1 4 0 make 1.p.1 1.a.1 2
",
        "wrong line 2 rule 0 condition 1",
    ),
    (
        "\
0 1 0 make 1.p.1 1.a.1 2
",
        "wrong line 2 rule 0 condition 2",
    ),
    (
        "\
1 1 0 make 1.p.1 1.a.1 2
1 1 1 post 1:1:0 port 1.p.1 plain =a
",
        "wrong line 3 rule 0 condition 2 line 2",
    ),
    (
        "\
1 1 0 make 1.p.1 1.a.1 2
2 1 1 post 1:1:0 port 1.g.1 plain =a
",
        "wrong line 3 rule 0 condition 3",
    ),
    (
        "\
1 1 0 make 1.p.1 1.a.1 2
2 1 1 post 1:1:0 port 1.p.1 plain =a
3 1 1 accept 1:1:0 1.a.1 0
",
        "wrong line 4 rule 0 condition 3",
    ),
    (
        "\
1 1 0 make 1.p.1 1.a.1 2
2 2 0 make 1.p.1 2.a.1 2
",
        "wrong line 3 rule 1 condition 1 line 2",
    ),
    (
        "\
1 1 0 make 1.p.1 1.a.1 0
",
        "wrong line 2 rule 1 condition 2",
    ),
    (
        "\
1 1 0 make 1.p.1 1.a.1 65
",
        "wrong line 2 rule 1 condition 2",
    ),
    (
        "\
1 1 0 make 1.p.1 1.a.1 2
2 1 2 post 1:1:0 port 1.p.1 plain =a
",
        "wrong line 3 rule 5 condition 1",
    ),
    (
        "\
1 1 0 make 1.p.1 1.a.1 2
2 1 1 post 1:1:1 port 1.p.1 plain =a
",
        "wrong line 3 rule 5 condition 1",
    ),
    (
        "\
1 1 0 make 1.p.1 1.a.1 2
2 1 1 post 1:1:0 port 1.p.1 plain =a
3 1 1 post 1:1:0 port 1.p.1 plain =a
",
        "wrong line 4 rule 5 condition 2 line 3",
    ),
    (
        "\
1 1 0 make 1.p.1 1.a.1 2
2 1 1 post 1:0:0 port 1.p.1 plain =a
",
        "wrong line 3 rule 5 condition 2",
    ),
    (
        "\
1 1 0 make 1.p.1 1.a.1 2
2 1 1 accept 1:1:0 1.p.1 0
",
        "wrong line 3 rule 6 condition 1",
    ),
    (
        "\
1 1 0 make 1.p.1 1.a.1 2
2 1 0 make 1.p.2 1.a.1 2
3 1 1 post 1:1:0 port 1.p.1 plain =a
4 1 1 accept 1:1:0 1.p.2 0
",
        "wrong line 5 rule 6 condition 1 line 4",
    ),
    (
        "\
1 1 0 make 1.p.1 1.a.1 2
2 1 1 post 1:1:0 all 1.g.1 plain =a
3 1 1 choose 1:1:0 1.g.1 1.p.1
4 1 1 accept 1:1:0 1.p.1 0
",
        "wrong line 5 rule 6 condition 1 line 3",
    ),
    (
        "\
1 1 0 make 1.p.1 1.a.1 2
2 1 1 post 1:1:0 port 1.p.1 plain =a
3 1 1 accept 1:1:0 1.p.1 0
4 1 1 accept 1:1:0 1.p.1 1
",
        "wrong line 5 rule 6 condition 2 line 4",
    ),
    (
        "\
1 1 0 make 1.p.1 1.a.1 2
2 1 1 post 1:1:0 port 1.p.1 plain =a
3 1 1 depart 1.p.1 2 2.a.1 1
4 2 0 early 1:1:0 1.p.1 1
5 2 0 arrive 1.p.1 1
6 2 0 accept 1:1:0 1.p.1 0
",
        "wrong line 7 rule 6 condition 2 line 5",
    ),
    (
        "\
1 1 0 make 1.p.1 1.a.1 2
2 1 1 post 1:1:0 port 1.p.1 plain =a
3 1 1 depart 1.p.1 2 2.a.1 1
4 1 1 accept 1:1:0 1.p.1 0
",
        "wrong line 5 rule 6 condition 3 line 4",
    ),
    (
        "\
1 1 0 make 1.p.1 1.a.1 2
2 1 1 post 1:1:0 port 1.p.1 plain =a
3 1 1 depart 1.p.1 2 2.a.1 1
4 2 0 accept 1:1:0 1.p.1 0
",
        "wrong line 5 rule 6 condition 3 line 4",
    ),
    (
        "\
1 1 1 post 1:1:0 port 1.p.1 plain =a
2 1 1 accept 1:1:0 1.p.1 0
",
        "wrong line 3 rule 6 condition 3",
    ),
    (
        "\
1 1 0 make 1.p.1 1.a.1 2
2 1 1 post 1:1:0 port 1.p.1 plain =a
3 1 1 post 1:2:0 port 1.p.1 plain =b
4 1 1 post 1:3:0 port 1.p.1 plain =c
5 1 1 accept 1:1:0 1.p.1 0
6 1 1 accept 1:2:0 1.p.1 1
7 1 1 accept 1:3:0 1.p.1 2
",
        "wrong line 8 rule 6 condition 4 line 7",
    ),
    (
        "\
1 1 0 make 1.p.1 1.a.1 2
2 1 1 post 1:1:0 port 1.p.1 plain =a
3 1 1 accept 1:1:0 1.p.1 1
",
        "wrong line 4 rule 6 condition 5",
    ),
    (
        "\
1 1 0 make 1.p.1 1.a.1 2
2 1 1 post 1:1:0 port 1.p.1 plain =a
3 1 1 post 1:2:0 port 1.p.1 plain =b
4 1 1 accept 1:2:0 1.p.1 0
5 1 1 accept 1:1:0 1.p.1 1
",
        "wrong line 6 rule 6 condition 6 line 5",
    ),
    (
        "\
1 1 0 make 1.p.1 1.a.1 2
2 1 1 post 1:1:0 all 1.g.1 plain =a
3 1 1 choose 1:1:0 1.g.1 1.p.1
4 1 1 post 1:2:0 all 1.g.1 plain =b
5 1 1 choose 1:2:0 1.g.1 1.p.1
6 1 1 accept 1:2:1 1.p.1 0
7 1 1 accept 1:1:1 1.p.1 1
",
        "wrong line 8 rule 6 condition 6 line 7",
    ),
    (
        "\
1 1 0 make 1.p.1 1.a.1 2
2 1 1 post 1:1:0 port 1.p.1 request 1 1.p.2 =a
3 1 1 post 1:2:0 port 1.p.1 request 1 1.p.2 =a
4 1 1 accept 1:1:0 1.p.1 0
5 1 1 accept 1:2:0 1.p.1 1
",
        "wrong line 6 rule 6 condition 7 line 5",
    ),
    (
        "\
1 1 0 make 1.p.1 1.a.1 2
2 1 1 post 1:1:0 port 1.p.1 plain =a
3 1 1 depart 1.p.1 2 2.a.1 1
4 1 1 full 1:1:0 1.p.1 0
",
        "wrong line 5 rule 7 condition 3 line 4",
    ),
    (
        "\
1 1 0 make 1.p.1 1.a.1 2
2 1 1 post 1:1:0 port 1.p.1 plain =a
3 1 1 post 1:2:0 port 1.p.1 plain =b
4 1 1 accept 1:1:0 1.p.1 0
5 1 1 full 1:2:0 1.p.1 1
",
        "wrong line 6 rule 7 condition 4 line 5",
    ),
    (
        "\
1 1 0 make 1.p.1 1.a.1 2
2 1 1 post 1:1:0 port 1.p.1 request 1 1.p.2 =a
3 1 1 post 1:2:0 port 1.p.1 request 1 1.p.2 =a
4 1 1 accept 1:1:0 1.p.1 0
5 1 1 depart 1.p.1 2 2.a.1 1
6 1 1 already 1:2:0 1.p.1
",
        "wrong line 7 rule 8 condition 3 line 6",
    ),
    (
        "\
1 1 0 make 1.p.1 1.a.1 2
2 1 1 post 1:1:0 port 1.p.1 request 1 1.p.2 =a
3 1 1 post 1:2:0 port 1.p.1 request 1 1.p.2 =a
4 1 1 already 1:2:0 1.p.1
",
        "wrong line 5 rule 8 condition 4",
    ),
    (
        "\
1 1 0 make 1.p.1 1.a.1 2
2 1 1 post 1:1:0 port 1.p.1 plain =a
3 1 1 post 1:2:0 port 1.p.1 plain =b
4 1 1 accept 1:1:0 1.p.1 0
5 1 1 already 1:2:0 1.p.1
",
        "wrong line 6 rule 8 condition 4 line 5",
    ),
    (
        "\
1 1 0 make 1.p.1 1.a.1 2
2 1 1 post 1:1:0 port 1.p.1 request 1 1.p.2 =a
3 1 1 depart 1.p.1 2 2.a.1 1
4 1 1 clients-full 1:1:0 1.p.1
",
        "wrong line 5 rule 9 condition 3 line 4",
    ),
    (
        "\
1 1 0 make 1.p.1 1.a.1 2
2 1 1 post 1:1:0 port 1.p.1 plain =a
3 1 1 clients-full 1:1:0 1.p.1
",
        "wrong line 4 rule 9 condition 4 line 3",
    ),
    (
        "\
1 1 0 make 1.p.1 1.a.1 2
2 1 1 post 1:1:0 port 1.p.1 plain =a
3 1 1 early 1:1:0 1.p.1 0
",
        "wrong line 4 rule 11 condition 3 line 2",
    ),
    (
        "\
1 1 0 make 1.p.1 1.a.1 2
2 1 1 post 1:1:0 port 1.p.1 plain =a
3 1 1 depart 1.p.1 2 2.a.1 1
4 2 0 early 1:1:0 1.p.1 2
",
        "wrong line 5 rule 11 condition 3 line 4",
    ),
    (
        "\
1 1 0 make 1.p.1 1.a.1 2
2 1 1 post 1:1:0 port 1.p.1 plain =a
3 1 1 depart 1.p.1 2 2.a.1 1
4 3 0 early 1:1:0 1.p.1 1
",
        "wrong line 5 rule 11 condition 3 line 4",
    ),
    (
        "\
1 1 0 make 1.p.1 1.a.1 2
2 1 1 post 1:1:0 port 1.p.1 plain =a
3 1 1 no-port 1:1:0 1.p.1
",
        "wrong line 4 rule 12 condition 3 line 2",
    ),
    (
        "\
1 1 0 make 1.p.1 1.a.1 2
2 1 1 post 1:1:0 one 1.g.1 plain =a
3 1 1 choose 1:1:0 1.g.1 1.p.1
4 1 1 elsewhere 1:1:1 1.p.1 2 1
",
        "wrong line 5 rule 13 condition 3 line 3",
    ),
    (
        "\
1 1 0 make 1.p.1 1.a.1 2
2 1 1 post 1:1:0 all 1.g.1 plain =a
3 1 1 no-member 1:1:0 1.g.2
",
        "wrong line 4 rule 14 condition 1 line 3",
    ),
    (
        "\
1 1 0 make 1.p.1 1.a.1 2
2 1 1 post 1:1:0 all 1.g.1 plain =a
3 1 1 choose 1:1:0 1.g.1 1.p.1
4 1 1 no-member 1:1:0 1.g.1
",
        "wrong line 5 rule 14 condition 2 line 4",
    ),
    (
        "\
1 1 0 make 1.p.1 1.a.1 2
2 1 1 post 1:1:0 port 1.p.1 plain =a
3 1 1 choose 1:1:0 1.g.1 1.p.1
",
        "wrong line 4 rule 15 condition 1 line 3",
    ),
    (
        "\
1 1 0 make 1.p.1 1.a.1 2
2 1 1 post 1:1:0 all 1.g.1 plain =a
3 1 1 choose 1:1:0 1.g.1 1.p.1
4 1 1 choose 1:1:0 1.g.1 1.p.1
",
        "wrong line 5 rule 15 condition 2 line 4",
    ),
    (
        "\
1 1 0 make 1.p.1 1.a.1 2
2 1 1 post 1:1:0 all 1.g.1 plain =a
3 1 1 choose 1:1:0 1.g.1
",
        "wrong line 4 rule 15 condition 3 line 3",
    ),
    (
        "\
1 1 0 make 1.p.1 1.a.1 2
2 1 1 post 1:1:0 all 1.g.1 plain =a
3 1 1 choose 1:1:0 1.g.1 1.p.1 1.p.1
",
        "wrong line 4 rule 15 condition 3 line 3",
    ),
    (
        "\
1 1 0 make 1.p.1 1.a.1 2
2 1 1 post 1:1:0 one 1.g.1 plain =a
3 1 1 choose 1:1:0 1.g.1 1.p.1 1.p.2
",
        "wrong line 4 rule 15 condition 3 line 3",
    ),
    (
        "\
1 1 0 make 1.p.1 1.a.1 2
2 1 1 post 1:1:0 at 1.g.1 1 plain =a
3 1 1 choose 1:1:0 1.g.1 1.p.1 1.p.2
",
        "wrong line 4 rule 15 condition 3 line 3",
    ),
    (
        "\
1 1 0 make 1.p.1 1.a.1 2
2 1 1 post 1:1:0 port 1.p.1 plain =a
3 1 1 accept 1:1:0 1.p.1 0
4 1 1 depart 1.p.1 2 2.a.1 1
5 1 1 take 1.p.1 0 1:1:0
",
        "wrong line 6 rule 19 condition 1 line 5",
    ),
    (
        "\
1 1 0 make 1.p.1 1.a.1 2
2 1 1 post 1:1:0 port 1.p.1 plain =a
3 1 1 accept 1:1:0 1.p.1 0
4 1 1 depart 1.p.1 2 2.a.1 1
5 2 2 take 1.p.1 0 1:1:0
",
        "wrong line 6 rule 19 condition 1 line 5",
    ),
    (
        "\
1 1 0 make 1.p.1 1.a.1 2
2 1 1 post 1:1:0 port 1.p.1 plain =a
3 1 1 post 1:2:0 port 1.p.1 plain =b
4 1 1 accept 1:1:0 1.p.1 0
5 1 1 accept 1:2:0 1.p.1 1
6 1 1 take 1.p.1 1 1:2:0
",
        "wrong line 7 rule 19 condition 2 line 6",
    ),
    (
        "\
1 1 0 make 1.p.1 1.a.1 2
2 1 1 post 1:1:0 port 1.p.1 plain =a
3 1 1 take 1.p.1 0 1:1:0
",
        "wrong line 4 rule 19 condition 2",
    ),
    (
        "\
1 1 0 make 1.p.1 1.a.1 2
2 1 1 post 1:1:0 port 1.p.1 plain =a
3 1 1 accept 1:1:0 1.p.1 0
4 1 1 take 1.p.1 1 1:1:0
",
        "wrong line 5 rule 19 condition 3 line 4",
    ),
    (
        "\
1 1 0 make 1.p.1 1.a.1 2
2 1 1 depart 1.p.1 2 2.a.1 1
3 1 1 depart 1.p.1 3 3.a.1 2
",
        "wrong line 4 rule 25 condition 1 line 3",
    ),
    (
        "\
1 1 0 make 1.p.1 1.a.1 2
2 1 1 depart 1.p.1 1 1.a.2 1
",
        "wrong line 3 rule 25 condition 2",
    ),
    (
        "\
1 1 0 make 1.p.1 1.a.1 2
2 1 1 depart 1.p.1 4 4.a.1 1
",
        "wrong line 3 rule 25 condition 2",
    ),
    (
        "\
1 1 0 make 1.p.1 1.a.1 2
2 1 1 depart 1.p.1 2 2.a.1 2
",
        "wrong line 3 rule 25 condition 3 line 2",
    ),
    (
        "\
1 1 0 make 1.p.1 1.a.1 2
2 1 0 arrive 1.p.1 0
",
        "wrong line 3 rule 26 condition 1 line 2",
    ),
    (
        "\
1 1 0 make 1.p.1 1.a.1 2
2 1 1 depart 1.p.1 2 2.a.1 1
3 3 0 arrive 1.p.1 1
",
        "wrong line 4 rule 26 condition 1 line 3",
    ),
    (
        "\
1 1 0 make 1.p.1 1.a.1 2
2 1 1 depart 1.p.1 2 2.a.1 1
3 2 0 arrive 1.p.1 1
4 2 0 arrive 1.p.1 1
",
        "wrong line 5 rule 26 condition 1 line 4",
    ),
    (
        "\
1 1 0 make 1.p.1 1.a.1 2
2 1 1 depart 1.p.1 2 2.a.1 1
3 2 0 arrive 1.p.1 2
",
        "wrong line 4 rule 26 condition 2 line 3",
    ),
    (
        "\
1 1 0 make 1.p.1 1.a.1 2
2 1 1 depart 1.p.1 2 2.a.1 1
3 1 1 delete 1.p.1
",
        "wrong line 4 rule 39 condition 1 line 3",
    ),
    (
        "\
1 1 0 make 1.p.1 1.a.1 2
2 1 1 post 1:1:0 port 1.p.1 plain =a
3 1 1 accept 1:1:0 1.p.1 0
4 1 1 delete 1.p.1
",
        "wrong line 5 rule 39 condition 2 line 4",
    ),
    (
        "\
1 1 0 make 1.p.1 1.a.1 2
2 1 1 post 1:1:0 port 1.p.1 plain =a
3 1 1 post 1:2:0 port 1.p.1 plain =b
4 1 1 accept 1:1:0 1.p.1 0
5 1 1 accept 1:2:0 1.p.1 1
6 1 1 delete 1.p.1 1:2:0 1:1:0
",
        "wrong line 7 rule 39 condition 2 line 6",
    ),
    (
        "\
1 1 0 make 1.p.1 1.a.1 2
2 1 1 post 1:1:0 port 1.p.1 plain =a
3 1 1 gone 1:1:0 1.p.1
",
        "wrong line 4 rule 40 condition 3 line 2",
    ),
];

/// The first line of what is told, by promises, of the journal of these entries, which has no summary.
fn told_of(rt: &impl Abort, alloc: Global, lines: &str) -> String {
    let mut text = String::new(alloc);
    let count = lines.lines().count();
    writeln!(text, "journal {count}").expect(rt, "memory");
    text.push_str(lines).expect(rt, "memory");
    let found = judged_as(rt, alloc, asked(), text.as_str(), 0, 64, 0);
    let (first, _) = found.written.as_str().split_once('\n').expect(rt, "a line");
    String::from_str(alloc, first).expect(rt, "memory")
}

/// Of each broken promise the first condition that fails is named, and the line of the entry that it is about.
#[test]
fn promises_are_broken(rt: HostRuntime) {
    for (lines, want) in BROKEN {
        let told = told_of(&rt, rt.alloc(), lines);
        assert_eq!(&rt; told.as_str(), want, "{lines}");
    }
}
