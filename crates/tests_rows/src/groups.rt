//! Posts to groups.

use crate::row::WorkedRow;

/// The members take turns.
pub const FUNCTIONAL_SEND_ROTATES: WorkedRow<'static> = WorkedRow {
    name: "functional_send_rotates",
    sites: 1,
    turns: 1,
    text: "\
chorus 1
sites 1
port 1.p.1 1.a.1 1
port 1.p.2 1.a.1 1
port 1.p.3 1.a.1 1
group 1.g.1
group 1.g.2
member 1.g.1 1.p.1
member 1.g.1 1.p.2
member 1.g.1 1.p.3
script 1.a.1
one 1.g.2 =z
one 1.g.1 =a
one 1.g.1 =b
one 1.g.1 =c
one 1.g.1 =d
schedule
end
",
    printed: "\
journal 22
1 1 0 make 1.p.1 1.a.1 1
2 1 0 make 1.p.2 1.a.1 1
3 1 0 make 1.p.3 1.a.1 1
4 1 0 group 1.g.1
5 1 0 group 1.g.2
6 1 0 join 1.g.1 1.p.1
7 1 0 join 1.g.1 1.p.2
8 1 0 join 1.g.1 1.p.3
9 1 1 post 1:1:0 one 1.g.2 plain =z
10 1 1 no-member 1:1:0 1.g.2
11 1 1 post 1:2:0 one 1.g.1 plain =a
12 1 1 choose 1:2:0 1.g.1 1.p.1
13 1 1 accept 1:2:1 1.p.1 0
14 1 1 post 1:3:0 one 1.g.1 plain =b
15 1 1 choose 1:3:0 1.g.1 1.p.2
16 1 1 accept 1:3:1 1.p.2 0
17 1 1 post 1:4:0 one 1.g.1 plain =c
18 1 1 choose 1:4:0 1.g.1 1.p.3
19 1 1 accept 1:4:1 1.p.3 0
20 1 1 post 1:5:0 one 1.g.1 plain =d
21 1 1 choose 1:5:0 1.g.1 1.p.1
22 1 1 full 1:5:1 1.p.1 1
summary
posted 5
accepted 3
taken 0
queued 3
moving 0
refused 2
stale 0
departs 0
end
",
};

/// The member leaves the site that is demanded.
pub const FUNCTIONAL_AT_A_SITE: WorkedRow<'static> = WorkedRow {
    name: "functional_at_a_site",
    sites: 3,
    turns: 1,
    text: "\
chorus 1
sites 3
port 2.p.1 2.a.1 4
group 1.g.1
member 1.g.1 2.p.1
script 1.a.1
at 1.g.1 2 =x
script 2.a.1
move 2.p.1 3.a.1
schedule
step 1
step 2
deliver 1 2
drain
end
",
    printed: "\
journal 10
1 2 0 make 2.p.1 2.a.1 4
2 1 0 group 1.g.1
3 1 0 join 1.g.1 2.p.1
4 1 1 post 1:1:0 at 1.g.1 2 plain =x
4 2 2 depart 2.p.1 3 3.a.1 1
5 1 1 choose 1:1:0 1.g.1 2.p.1
6 1 1 try 1:1:1 2.p.1 2 0
7 2 0 elsewhere 1:1:1 2.p.1 3 1
8 1 0 told 1:1:1 elsewhere 3 1
9 3 0 arrive 2.p.1 1
summary
posted 1
accepted 0
taken 0
queued 0
moving 0
refused 1
stale 0
departs 1
end
",
};

/// The member comes to the place of the group while a second post waits.
pub const FUNCTIONAL_WHERE_THE_PORT_COMES_HOME: WorkedRow<'static> = WorkedRow {
    name: "functional_where_the_port_comes_home",
    sites: 2,
    turns: 1,
    text: "\
chorus 1
sites 2
port 2.p.1 2.a.1 4
group 1.g.1
member 1.g.1 2.p.1
script 1.a.1
at 1.g.1 2 =x
at 1.g.1 2 =y
script 2.a.1
move 2.p.1 1.a.1
schedule
step 1
step 1
step 2
deliver 2 1
deliver 1 2
deliver 2 1
end
",
    printed: "\
journal 13
1 2 0 make 2.p.1 2.a.1 4
2 1 0 group 1.g.1
3 1 0 join 1.g.1 2.p.1
4 1 1 post 1:1:0 at 1.g.1 2 plain =x
4 2 2 depart 2.p.1 1 1.a.1 1
5 1 1 choose 1:1:0 1.g.1 2.p.1
6 1 1 try 1:1:1 2.p.1 2 0
7 1 1 post 1:2:0 at 1.g.1 2 plain =y
8 1 1 choose 1:2:0 1.g.1 2.p.1
9 1 0 arrive 2.p.1 1
10 2 0 elsewhere 1:1:1 2.p.1 1 1
11 1 0 told 1:1:1 elsewhere 1 1
12 1 0 elsewhere 1:2:1 2.p.1 1 1
summary
posted 2
accepted 0
taken 0
queued 0
moving 0
refused 2
stale 0
departs 1
end
",
};

/// A post to all members, one of which is full.
pub const BROADCAST_MEETS_FULL: WorkedRow<'static> = WorkedRow {
    name: "broadcast_meets_full",
    sites: 1,
    turns: 1,
    text: "\
chorus 1
sites 1
port 1.p.1 1.a.1 2
port 1.p.2 1.a.1 1
port 1.p.3 1.a.1 2
group 1.g.1
member 1.g.1 1.p.1
member 1.g.1 1.p.2
member 1.g.1 1.p.3
script 1.a.1
send 1.p.2 =f
all 1.g.1 =b
schedule
end
",
    printed: "\
journal 14
1 1 0 make 1.p.1 1.a.1 2
2 1 0 make 1.p.2 1.a.1 1
3 1 0 make 1.p.3 1.a.1 2
4 1 0 group 1.g.1
5 1 0 join 1.g.1 1.p.1
6 1 0 join 1.g.1 1.p.2
7 1 0 join 1.g.1 1.p.3
8 1 1 post 1:1:0 port 1.p.2 plain =f
9 1 1 accept 1:1:0 1.p.2 0
10 1 1 post 1:2:0 all 1.g.1 plain =b
11 1 1 choose 1:2:0 1.g.1 1.p.1 1.p.2 1.p.3
12 1 1 accept 1:2:1 1.p.1 0
13 1 1 full 1:2:2 1.p.2 1
14 1 1 accept 1:2:3 1.p.3 0
summary
posted 2
accepted 3
taken 0
queued 3
moving 0
refused 1
stale 0
departs 0
end
",
};

/// The place that posted hears what became of it.
pub const REPORT_REACHES_THE_HOME_PLACE: WorkedRow<'static> = WorkedRow {
    name: "report_reaches_the_home_place",
    sites: 2,
    turns: 1,
    text: "\
chorus 1
sites 2
port 2.p.1 2.a.1 4
group 1.g.1
member 1.g.1 2.p.1
script 2.a.1
one 1.g.1 =k
schedule
end
",
    printed: "\
journal 10
1 2 0 make 2.p.1 2.a.1 4
2 1 0 group 1.g.1
3 1 0 join 1.g.1 2.p.1
4 2 1 post 1:1:0 one 1.g.1 plain =k
5 1 0 choose 1:1:0 1.g.1 2.p.1
6 1 0 try 1:1:1 2.p.1 2 0
7 2 0 heard 1:1:0 chosen 1
8 2 0 accept 1:1:1 2.p.1 0
9 1 0 told 1:1:1 accepted 0
10 2 0 heard 1:1:1 accepted 0
summary
posted 1
accepted 1
taken 0
queued 1
moving 0
refused 0
stale 0
departs 0
end
",
};
