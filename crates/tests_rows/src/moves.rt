//! Ports that move, and messages that come before and behind them.

use crate::row::WorkedRow;

/// What waits in a port moves with it.
pub const MIGRATION_KEEPS_WAITING_MESSAGES: WorkedRow<'static> = WorkedRow {
    name: "migration_keeps_waiting_messages",
    sites: 2,
    turns: 1,
    text: "\
chorus 1
sites 2
port 1.p.1 1.a.1 4
script 1.a.1
send 1.p.1 =a
send 1.p.1 =b
send 1.p.1 =c
move 1.p.1 2.a.1
script 2.a.1
take 1.p.1
take 1.p.1
take 1.p.1
schedule
step 1
step 1
step 1
step 1
deliver 1 2
step 2
step 2
step 2
end
",
    printed: "\
journal 12
1 1 0 make 1.p.1 1.a.1 4
2 1 1 post 1:1:0 port 1.p.1 plain =a
3 1 1 accept 1:1:0 1.p.1 0
4 1 1 post 1:2:0 port 1.p.1 plain =b
5 1 1 accept 1:2:0 1.p.1 1
6 1 1 post 1:3:0 port 1.p.1 plain =c
7 1 1 accept 1:3:0 1.p.1 2
8 1 1 depart 1.p.1 2 2.a.1 1
9 2 0 arrive 1.p.1 1
10 2 2 take 1.p.1 0 1:1:0
11 2 2 take 1.p.1 1 1:2:0
12 2 2 take 1.p.1 2 1:3:0
summary
posted 3
accepted 3
taken 3
queued 0
moving 0
refused 0
stale 0
departs 1
end
",
};

/// A place that the port has left names the newer one.
pub const STALE_PLACE_NAMES_THE_NEWER_ONE: WorkedRow<'static> = WorkedRow {
    name: "stale_place_names_the_newer_one",
    sites: 3,
    turns: 1,
    text: "\
chorus 1
sites 3
port 1.p.1 1.a.1 4
script 3.a.1
send 1.p.1 =x
script 1.a.1
move 1.p.1 2.a.1
schedule
step 2
step 1
deliver 3 1
deliver 1 3
deliver 1 2
deliver 3 2
deliver 2 3
end
",
    printed: "\
journal 10
1 1 0 make 1.p.1 1.a.1 4
2 1 2 depart 1.p.1 2 2.a.1 1
2 3 1 post 1:1:0 port 1.p.1 plain =x
3 3 1 try 1:1:0 1.p.1 1 0
4 1 0 stale 1:1:0 1.p.1 0 2 1
5 3 0 told 1:1:0 stale 2 1
6 3 0 try 1:1:0 1.p.1 2 1
7 2 0 arrive 1.p.1 1
8 2 0 accept 1:1:0 1.p.1 0
9 3 0 told 1:1:0 accepted 0
summary
posted 1
accepted 1
taken 0
queued 1
moving 0
refused 0
stale 1
departs 1
end
",
};

/// A message comes before the port.
pub const EARLY_THEN_ARRIVE: WorkedRow<'static> = WorkedRow {
    name: "early_then_arrive",
    sites: 3,
    turns: 1,
    text: "\
chorus 1
sites 3
port 1.p.1 1.a.1 4
script 3.a.1
send 1.p.1 =x
send 1.p.1 =x
script 1.a.1
move 1.p.1 2.a.1
schedule
step 2
step 1
deliver 3 1
deliver 1 3
deliver 3 2
deliver 2 3
deliver 1 2
step 1
deliver 3 2
deliver 2 3
end
",
    printed: "\
journal 14
1 1 0 make 1.p.1 1.a.1 4
2 1 2 depart 1.p.1 2 2.a.1 1
2 3 1 post 1:1:0 port 1.p.1 plain =x
3 3 1 try 1:1:0 1.p.1 1 0
4 1 0 stale 1:1:0 1.p.1 0 2 1
5 3 0 told 1:1:0 stale 2 1
6 3 0 try 1:1:0 1.p.1 2 1
7 2 0 early 1:1:0 1.p.1 1
8 3 0 told 1:1:0 early 1
9 2 0 arrive 1.p.1 1
9 3 1 post 1:2:0 port 1.p.1 plain =x
10 3 1 try 1:2:0 1.p.1 2 1
11 2 0 accept 1:2:0 1.p.1 0
12 3 0 told 1:2:0 accepted 0
summary
posted 2
accepted 1
taken 0
queued 1
moving 0
refused 1
stale 1
departs 1
end
",
};

/// A place that the port has left twice names where it went last.
pub const STALE_JUMPS_OVER_HOPS: WorkedRow<'static> = WorkedRow {
    name: "stale_jumps_over_hops",
    sites: 4,
    turns: 1,
    text: "\
chorus 1
sites 4
port 1.p.1 1.a.1 4
script 4.a.1
send 1.p.1 =x
script 1.a.1
move 1.p.1 2.a.1
move 1.p.1 3.a.1
script 2.a.1
move 1.p.1 1.a.1
schedule
step 2
deliver 1 2
step 3
deliver 2 1
step 2
deliver 1 3
step 1
deliver 4 1
deliver 1 4
deliver 4 3
deliver 3 4
end
",
    printed: "\
journal 14
1 1 0 make 1.p.1 1.a.1 4
2 1 2 depart 1.p.1 2 2.a.1 1
2 4 1 post 1:1:0 port 1.p.1 plain =x
3 2 0 arrive 1.p.1 1
3 4 1 try 1:1:0 1.p.1 1 0
4 2 3 depart 1.p.1 1 1.a.1 2
5 1 0 arrive 1.p.1 2
6 1 2 depart 1.p.1 3 3.a.1 3
7 3 0 arrive 1.p.1 3
8 1 0 stale 1:1:0 1.p.1 0 3 3
9 4 0 told 1:1:0 stale 3 3
10 4 0 try 1:1:0 1.p.1 3 3
11 3 0 accept 1:1:0 1.p.1 0
12 4 0 told 1:1:0 accepted 0
summary
posted 1
accepted 1
taken 0
queued 1
moving 0
refused 0
stale 1
departs 3
end
",
};

/// A port gets another actor of its site.
pub const REHOME_ON_ONE_SITE: WorkedRow<'static> = WorkedRow {
    name: "rehome_on_one_site",
    sites: 1,
    turns: 1,
    text: "\
chorus 1
sites 1
port 1.p.1 1.a.1 2
script 1.a.1
send 1.p.1 =a
move 1.p.1 1.a.2
take 1.p.1
script 1.a.2
take 1.p.1
schedule
end
",
    printed: "\
journal 6
1 1 0 make 1.p.1 1.a.1 2
2 1 1 post 1:1:0 port 1.p.1 plain =a
3 1 1 accept 1:1:0 1.p.1 0
4 1 1 rehome 1.p.1 1.a.2
5 1 1 not-here 1.p.1
6 1 2 take 1.p.1 0 1:1:0
summary
posted 1
accepted 1
taken 1
queued 0
moving 0
refused 0
stale 0
departs 0
end
",
};
