//! Ports that migrate, and messages that come before and behind them.

/// Ports move, and messages are early or stale.
pub(crate) const MOVES: &str = "\
a port comes back with what waits in it: 2 1
port 1.p.1 1.a.1 4
script 1.a.1
send 1.p.1 =a
move 1.p.1 2.a.1
take 1.p.1
script 2.a.1
move 1.p.1 1.a.1
schedule
step 1
step 1
deliver 1 2
step 2
deliver 2 1
step 1
journal
3 1 1 accept 1:1:0 1.p.1 0
4 1 1 depart 1.p.1 2 2.a.1 1
5 2 0 arrive 1.p.1 1
6 2 2 depart 1.p.1 1 1.a.1 2
7 1 0 arrive 1.p.1 2
8 1 1 take 1.p.1 0 1:1:0
end
early by what the place was told, and early by what was tried: 4 1
port 1.p.1 1.a.1 4
script 1.a.1
move 1.p.1 3.a.1
send 1.p.1 =late
script 3.a.1
move 1.p.1 2.a.1
send 1.p.1 =x
send 1.p.1 =z
script 2.a.1
move 1.p.1 4.a.1
send 1.p.1 =y
script 4.a.1
move 1.p.1 3.a.1
schedule
step 1
deliver 1 3
step 2
deliver 3 2
step 3
deliver 2 4
step 4
step 3
deliver 2 4
deliver 4 2
step 2
deliver 3 2
deliver 2 3
deliver 2 3
step 1
deliver 1 3
step 2
drain
journal
9 4 0 stale 3:1:0 1.p.1 3 3 4
10 2 0 told 3:1:0 stale 3 4
11 2 0 try 3:1:0 1.p.1 3 4
12 2 0 stale 2:1:0 1.p.1 2 3 4
13 3 0 early 3:1:0 1.p.1 4
14 3 0 told 2:1:0 stale 3 4
15 3 0 early 2:1:0 1.p.1 4
16 3 0 early 1:1:0 1.p.1 4
17 1 0 told 1:1:0 early 4
17 3 2 post 2:2:0 port 1.p.1 plain =z
18 2 0 told 3:1:0 early 4
18 3 2 early 2:2:0 1.p.1 4
19 3 0 arrive 1.p.1 4
end
";
