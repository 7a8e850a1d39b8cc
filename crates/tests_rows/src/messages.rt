//! Messages to a port: each is decided where the port is.

use crate::row::WorkedRow;

/// Two messages to a port that takes one, and three receives.
pub const FULL_THEN_TAKEN_THEN_EMPTY: WorkedRow<'static> = WorkedRow {
    name: "full_then_taken_then_empty",
    sites: 1,
    turns: 1,
    text: "\
chorus 1
sites 1
port 1.p.1 1.a.1 1
script 1.a.1
send 1.p.1 =a
send 1.p.1 =b
take 1.p.1
take 1.p.1
take 1.p.1
schedule
end
",
    printed: "\
journal 8
1 1 0 make 1.p.1 1.a.1 1
2 1 1 post 1:1:0 port 1.p.1 plain =a
3 1 1 accept 1:1:0 1.p.1 0
4 1 1 post 1:2:0 port 1.p.1 plain =b
5 1 1 full 1:2:0 1.p.1 1
6 1 1 take 1.p.1 0 1:1:0
7 1 1 empty 1.p.1
8 1 1 empty 1.p.1
summary
posted 2
accepted 1
taken 1
queued 0
moving 0
refused 1
stale 0
departs 0
end
",
};

/// Two sites send to one port.
pub const TWO_SITES_SEND_TO_ONE_PORT: WorkedRow<'static> = WorkedRow {
    name: "two_sites_send_to_one_port",
    sites: 2,
    turns: 1,
    text: "\
chorus 1
sites 2
port 2.p.1 2.a.1 4
script 1.a.1
send 2.p.1 =hi
script 2.a.1
send 2.p.1 =yo
schedule
step 1
step 2
deliver 1 2
deliver 2 1
end
",
    printed: "\
journal 7
1 2 0 make 2.p.1 2.a.1 4
2 1 1 post 1:1:0 port 2.p.1 plain =hi
2 2 2 post 2:1:0 port 2.p.1 plain =yo
3 1 1 try 1:1:0 2.p.1 2 0
3 2 2 accept 2:1:0 2.p.1 0
4 2 0 accept 1:1:0 2.p.1 1
5 1 0 told 1:1:0 accepted 1
summary
posted 2
accepted 2
taken 0
queued 2
moving 0
refused 0
stale 0
departs 0
end
",
};

/// A message to a port that there is not, and one to a port that there is.
pub const NO_PORT: WorkedRow<'static> = WorkedRow {
    name: "no_port",
    sites: 1,
    turns: 1,
    text: "\
chorus 1
sites 1
port 1.p.1 1.a.1 2
script 1.a.1
send 1.p.9 =x
send 1.p.1 =y
schedule
end
",
    printed: "\
journal 5
1 1 0 make 1.p.1 1.a.1 2
2 1 1 post 1:1:0 port 1.p.9 plain =x
3 1 1 no-port 1:1:0 1.p.9
4 1 1 post 1:2:0 port 1.p.1 plain =y
5 1 1 accept 1:2:0 1.p.1 0
summary
posted 2
accepted 1
taken 0
queued 1
moving 0
refused 1
stale 0
departs 0
end
",
};

/// A second message waits while the first is under way.
pub const ONE_MESSAGE_UNDER_WAY_PER_ROUTE: WorkedRow<'static> = WorkedRow {
    name: "one_message_under_way_per_route",
    sites: 3,
    turns: 1,
    text: "\
chorus 1
sites 3
port 1.p.1 1.a.1 4
script 3.a.1
send 1.p.1 =x
send 1.p.1 =y
script 1.a.1
move 1.p.1 2.a.1
schedule
step 2
step 1
step 1
deliver 3 1
deliver 1 3
deliver 1 2
deliver 3 2
deliver 2 3
deliver 3 2
end
",
    printed: "\
journal 14
1 1 0 make 1.p.1 1.a.1 4
2 1 2 depart 1.p.1 2 2.a.1 1
2 3 1 post 1:1:0 port 1.p.1 plain =x
3 3 1 try 1:1:0 1.p.1 1 0
4 1 0 stale 1:1:0 1.p.1 0 2 1
4 3 1 post 1:2:0 port 1.p.1 plain =y
5 3 0 told 1:1:0 stale 2 1
6 3 0 try 1:1:0 1.p.1 2 1
7 2 0 arrive 1.p.1 1
8 2 0 accept 1:1:0 1.p.1 0
9 3 0 told 1:1:0 accepted 0
10 3 0 try 1:2:0 1.p.1 2 1
11 2 0 accept 1:2:0 1.p.1 1
12 3 0 told 1:2:0 accepted 1
summary
posted 2
accepted 2
taken 0
queued 2
moving 0
refused 0
stale 1
departs 1
end
",
};
