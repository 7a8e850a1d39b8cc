//! Ports that are deleted.

use crate::row::WorkedRow;

/// What waits in a port is discarded with it.
pub const DELETE_DISCARDS: WorkedRow<'static> = WorkedRow {
    name: "delete_discards",
    sites: 1,
    turns: 1,
    text: "\
chorus 2
sites 1
port 1.p.1 1.a.1 2
script 1.a.1
send 1.p.1 =a
send 1.p.1 =b
take 1.p.1
delete 1.p.1
send 1.p.1 =c
take 1.p.1
schedule
end
",
    printed: "\
journal 10
1 1 0 make 1.p.1 1.a.1 2
2 1 1 post 1:1:0 port 1.p.1 plain =a
3 1 1 accept 1:1:0 1.p.1 0
4 1 1 post 1:2:0 port 1.p.1 plain =b
5 1 1 accept 1:2:0 1.p.1 1
6 1 1 take 1.p.1 0 1:1:0
7 1 1 delete 1.p.1 1:2:0
8 1 1 post 1:3:0 port 1.p.1 plain =c
9 1 1 gone 1:3:0 1.p.1
10 1 1 not-here 1.p.1
summary
posted 3
accepted 2
taken 1
queued 0
moving 0
discarded 1
refused 1
stale 0
departs 0
end
",
};

/// A port is deleted where it moved to.
pub const DELETE_AFTER_A_MOVE: WorkedRow<'static> = WorkedRow {
    name: "delete_after_a_move",
    sites: 3,
    turns: 1,
    text: "\
chorus 2
sites 3
port 1.p.1 1.a.1 4
script 3.a.1
send 1.p.1 =x
script 1.a.1
move 1.p.1 2.a.1
script 2.a.1
delete 1.p.1
schedule
step 2
deliver 1 2
step 3
step 1
deliver 3 1
deliver 1 3
deliver 3 2
deliver 2 3
end
",
    printed: "\
journal 11
1 1 0 make 1.p.1 1.a.1 4
2 1 2 depart 1.p.1 2 2.a.1 1
2 3 1 post 1:1:0 port 1.p.1 plain =x
3 2 0 arrive 1.p.1 1
3 3 1 try 1:1:0 1.p.1 1 0
4 1 0 stale 1:1:0 1.p.1 0 2 1
4 2 3 delete 1.p.1
5 3 0 told 1:1:0 stale 2 1
6 3 0 try 1:1:0 1.p.1 2 1
7 2 0 gone 1:1:0 1.p.1
8 3 0 told 1:1:0 gone
summary
posted 1
accepted 0
taken 0
queued 0
moving 0
discarded 0
refused 1
stale 1
departs 1
end
",
};
