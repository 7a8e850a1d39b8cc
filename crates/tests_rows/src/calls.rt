//! Calls, and replies to them.

use crate::row::WorkedRow;

/// A call and its reply, and what is refused around them.
pub const CALL_AND_REPLY_ON_ONE_SITE: WorkedRow<'static> = WorkedRow {
    name: "call_and_reply_on_one_site",
    sites: 1,
    turns: 1,
    text: "\
chorus 1
sites 1
port 1.p.1 1.a.1 4
script 1.a.1
call 1.p.1 1.p.1 =q
call 1.p.1 1.p.1 =r
take 1.p.1
reply =s
take 1.p.1
retry
reply =t
schedule
end
",
    printed: "\
journal 11
1 1 0 make 1.p.1 1.a.1 4
2 1 1 post 1:1:0 port 1.p.1 request 1 1.p.1 =q
3 1 1 accept 1:1:0 1.p.1 0
4 1 1 outstanding 1
5 1 1 take 1.p.1 0 1:1:0
6 1 1 post 1:2:0 port 1.p.1 reply 1 1 =s
7 1 1 accept 1:2:0 1.p.1 1
8 1 1 take 1.p.1 1 1:2:0
9 1 1 done 1
10 1 1 no-call
11 1 1 no-request
summary
posted 2
accepted 2
taken 2
queued 0
moving 0
refused 0
stale 0
departs 0
end
",
};

/// A call is made again while its port moves to a third site: it is accepted once, and the late reply of the cancelled
/// call is told.
pub const RETRY_ACROSS_A_MOVE_IS_ACCEPTED_ONCE: WorkedRow<'static> = WorkedRow {
    name: "retry_across_a_move_is_accepted_once",
    sites: 3,
    turns: 1,
    text: "\
chorus 1
sites 3
port 1.p.1 1.a.1 4
port 2.p.1 2.a.1 4
script 2.a.1
call 1.p.1 2.p.1 =q
retry
cancel
call 1.p.1 2.p.1 =r
take 2.p.1
script 1.a.1
move 1.p.1 3.a.1
script 3.a.1
take 1.p.1
reply =ans
schedule
step 1
deliver 2 1
deliver 1 2
step 2
deliver 1 3
step 1
deliver 2 1
deliver 1 2
deliver 2 3
deliver 3 2
step 3
step 1
step 1
step 3
drain
end
",
    printed: "\
journal 27
1 1 0 make 1.p.1 1.a.1 4
2 2 0 make 2.p.1 2.a.1 4
3 2 1 post 1:1:0 port 1.p.1 request 1 2.p.1 =q
4 2 1 try 1:1:0 1.p.1 1 0
5 1 0 accept 1:1:0 1.p.1 0
6 1 2 depart 1.p.1 3 3.a.1 1
6 2 0 told 1:1:0 accepted 0
7 2 1 post 1:2:0 port 1.p.1 request 1 2.p.1 =q
7 3 0 arrive 1.p.1 1
8 2 1 try 1:2:0 1.p.1 1 0
9 1 0 stale 1:2:0 1.p.1 0 3 1
10 2 0 told 1:2:0 stale 3 1
11 2 0 try 1:2:0 1.p.1 3 1
12 3 0 already 1:2:0 1.p.1
13 2 0 told 1:2:0 already
13 3 3 take 1.p.1 0 1:1:0
14 2 1 cancel 1
14 3 3 post 3:1:0 port 2.p.1 reply 1 1 =ans
15 2 1 post 1:3:0 port 1.p.1 request 2 2.p.1 =r
15 3 3 try 3:1:0 2.p.1 2 0
16 2 1 try 1:3:0 1.p.1 3 1
17 3 0 accept 1:3:0 1.p.1 1
18 2 0 accept 3:1:0 2.p.1 0
19 3 0 told 3:1:0 accepted 0
20 2 0 told 1:3:0 accepted 1
21 2 1 take 2.p.1 0 3:1:0
22 2 1 late 1
summary
posted 4
accepted 3
taken 2
queued 1
moving 0
refused 1
stale 1
departs 1
end
",
};
