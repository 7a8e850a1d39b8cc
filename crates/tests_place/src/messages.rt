//! Messages to ports, and remote calls.

/// Messages are decided where the port is, and calls are answered once.
pub(crate) const MESSAGES: &str = "\
no port of another site, and none of a site that is not there: 2 1
script 1.a.1
send 2.p.1 =x
send 5.p.1 =y
schedule
journal
1 1 1 post 1:1:0 port 2.p.1 plain =x
2 1 1 try 1:1:0 2.p.1 2 0
3 2 0 no-port 1:1:0 2.p.1
4 1 0 told 1:1:0 no-port
5 1 1 post 1:2:0 port 5.p.1 plain =y
6 1 1 no-port 1:2:0 5.p.1
end
the request taken last is in hand, and a reply taken by another seat is late: 1 1
port 1.p.1 1.a.1 4
port 1.p.2 1.a.1 4
script 1.a.1
call 1.p.1 1.p.2 =q
script 1.a.1
call 1.p.1 1.p.2 =r
take 1.p.2
script 1.a.1
reply =no
take 1.p.1
take 1.p.1
reply =yes
reply =no
schedule
step 1
step 2
step 3
step 3
step 3
step 3
step 3
step 2
drain
journal
3 1 1 post 1:1:0 port 1.p.1 request 1 1.p.2 =q
4 1 1 accept 1:1:0 1.p.1 0
5 1 2 post 2:1:0 port 1.p.1 request 1 1.p.2 =r
6 1 2 accept 2:1:0 1.p.1 1
7 1 3 no-request
8 1 3 take 1.p.1 0 1:1:0
9 1 3 take 1.p.1 1 2:1:0
10 1 3 post 3:1:0 port 1.p.2 reply 2 1 =yes
11 1 3 accept 3:1:0 1.p.2 0
12 1 3 no-request
13 1 2 take 1.p.2 0 3:1:0
14 1 2 done 1
end
a reply taken by another seat of the actor is late: 1 1
port 1.p.1 1.a.1 4
port 1.p.2 1.a.1 4
script 1.a.1
call 1.p.1 1.p.2 =q
retry
cancel
cancel
script 1.a.1
take 1.p.1
reply =s
take 1.p.2
schedule
step 1
step 2
step 2
step 2
step 1
step 1
step 1
journal
3 1 1 post 1:1:0 port 1.p.1 request 1 1.p.2 =q
4 1 1 accept 1:1:0 1.p.1 0
5 1 2 take 1.p.1 0 1:1:0
6 1 2 post 2:1:0 port 1.p.2 reply 1 1 =s
7 1 2 accept 2:1:0 1.p.2 0
8 1 2 take 1.p.2 0 2:1:0
9 1 2 late 1
10 1 1 post 1:2:0 port 1.p.1 request 1 1.p.2 =q
11 1 1 already 1:2:0 1.p.1
12 1 1 cancel 1
13 1 1 no-call
end
calls and posts to a group over two sites: 2 1
script 1.a.1
newport 1.a.1 2
newgroup 1
join 1.g.1 1.p.1
join 1.g.1 2.p.1
call 2.p.1 1.p.1 =q
retry
move 1.p.1 2.a.1
script 2.a.1
newport 2.a.1 2
all 1.g.1 =x
take 2.p.1
take 2.p.1
reply =a
delete 1.p.1
schedule
step 1
step 2
step 1
step 1
step 1
step 2
drain
step 1
drain
step 2
step 2
step 2
drain
step 1
drain
step 1
drain
step 2
journal
1 1 1 make 1.p.1 1.a.1 2
1 2 2 make 2.p.1 2.a.1 2
2 1 1 group 1.g.1
2 2 2 post 2:1:0 all 1.g.1 plain =x
3 1 1 join 1.g.1 1.p.1
4 1 1 join 1.g.1 2.p.1
5 1 0 choose 2:1:0 1.g.1 1.p.1 2.p.1
6 1 0 accept 2:1:1 1.p.1 0
7 1 0 try 2:1:2 2.p.1 2 0
8 2 0 heard 2:1:0 chosen 2
9 2 0 heard 2:1:1 accepted 0
10 2 0 accept 2:1:2 2.p.1 0
11 1 0 told 2:1:2 accepted 0
12 1 1 post 1:1:0 port 2.p.1 request 1 1.p.1 =q
12 2 0 heard 2:1:2 accepted 0
13 1 1 try 1:1:0 2.p.1 2 0
14 2 0 accept 1:1:0 2.p.1 1
15 1 0 told 1:1:0 accepted 1
15 2 2 take 2.p.1 0 2:1:2
16 2 2 take 2.p.1 1 1:1:0
17 2 2 post 2:2:0 port 1.p.1 reply 1 1 =a
18 2 2 try 2:2:0 1.p.1 1 0
19 1 0 accept 2:2:0 1.p.1 1
20 1 1 post 1:2:0 port 2.p.1 request 1 1.p.1 =q
20 2 0 told 2:2:0 accepted 1
21 1 1 try 1:2:0 2.p.1 2 0
22 2 0 already 1:2:0 2.p.1
23 1 0 told 1:2:0 already
24 1 1 depart 1.p.1 2 2.a.1 1
25 2 0 arrive 1.p.1 1
26 2 2 delete 1.p.1 2:1:1 2:2:0
end
";
