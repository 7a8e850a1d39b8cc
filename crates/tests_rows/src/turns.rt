//! Sites with two places each.

use crate::row::WorkedRow;

/// A message goes to the other place of its site.
pub const TWO_TURNS_PER_SITE: WorkedRow<'static> = WorkedRow {
    name: "two_turns_per_site",
    sites: 2,
    turns: 2,
    text: "\
chorus 1
sites 1
port 1.p.2 1.a.2 4
script 1.a.1
send 1.p.2 =x
schedule
end
",
    printed: "\
journal 5
1 2 0 make 1.p.2 1.a.2 4
2 1 1 post 1:1:0 port 1.p.2 plain =x
3 1 1 try 1:1:0 1.p.2 2 0
4 2 0 accept 1:1:0 1.p.2 0
5 1 0 told 1:1:0 accepted 0
summary
posted 1
accepted 1
taken 0
queued 1
moving 0
refused 0
stale 0
departs 0
end
",
};

/// A port moves to the place of the other site at which it stands there.
pub const TWO_TURNS_AND_A_MOVE: WorkedRow<'static> = WorkedRow {
    name: "two_turns_and_a_move",
    sites: 2,
    turns: 2,
    text: "\
chorus 1
sites 2
port 1.p.2 1.a.2 4
script 1.a.2
move 1.p.2 2.a.1
schedule
end
",
    printed: "\
journal 3
1 2 0 make 1.p.2 1.a.2 4
2 2 1 depart 1.p.2 4 2.a.1 1
3 4 0 arrive 1.p.2 1
summary
posted 0
accepted 0
taken 0
queued 0
moving 0
refused 0
stale 0
departs 1
end
",
};
