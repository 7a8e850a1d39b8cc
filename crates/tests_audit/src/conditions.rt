//! Journals whose last line is wrong by one condition of its rule: which one it is, and the line of the earlier entry that it is about,
//! worked out by hand. Each condition that may fail alone does so in one of them.

use crate::judgements::judged;
use chorus_ui::Layout;
use std::alloc::Global;
use std::process::Abort;

/// A journal that lacks nothing in its name, how many places each of its sites has, what stands in front of its lines, the lines of its
/// entries, and what is told of it with each of these lines behind them.
type Setup = (&'static str, u16, &'static str, &'static str, &'static str);

const SETUPS: [Setup; 31] = [
    (
        "nothing",
        1,
        "",
        "",
        "\
1 9 1 no-call | wrong line 2 rule 0 condition 1
0 1 1 no-call | wrong line 2 rule 0 condition 2
1 1 0 make-full 1.a.1 | wrong line 2 rule 2 condition 4
1 1 0 no-actor 9.p.1 | wrong line 2 rule 3 condition 1
1 1 0 no-actor 1.a.1 | wrong line 2 rule 3 condition 2
1 1 0 no-site 1 | wrong line 2 rule 4 condition 2
1 1 1 post 1:1:0 port 1.g.1 plain = | wrong line 2 rule 5 condition 1
1 1 1 post 1:1:0 port 1.p.1 reply 1 1 = | wrong line 2 rule 5 condition 6
1 1 0 no-port 1:1:0 9.p.1 | wrong line 2 rule 12 condition 3
1 1 0 group 1.p.1 | wrong line 2 rule 27 condition 1
1 1 0 group 2.g.1 | wrong line 2 rule 27 condition 2
1 1 0 group 1.g.2 | wrong line 2 rule 27 condition 4
1 1 0 groups-full 1 | wrong line 2 rule 28 condition 4
1 1 0 not-here 1.a.1 | wrong line 2 rule 23 condition 1
1 1 1 outstanding 1 | wrong line 2 rule 35 condition 2
1 1 1 cancel 1 | wrong line 2 rule 38 condition 2
",
    ),
    (
        "a port",
        1,
        "",
        "\
5 1 0 make 1.p.1 1.a.1 1
",
        "\
5 1 1 no-call | wrong line 3 rule 0 condition 2 line 2
6 1 0 make 1.g.2 1.a.1 1 | wrong line 3 rule 1 condition 1
6 1 0 make 1.p.2 1.a.9 1 | wrong line 3 rule 1 condition 2
6 1 0 make 2.p.2 2.a.1 1 | wrong line 3 rule 1 condition 3
6 1 0 make 1.p.2 1.a.1 0 | wrong line 3 rule 1 condition 4
6 1 0 make 1.p.2 1.a.1 65 | wrong line 3 rule 1 condition 4
6 1 0 make 1.p.3 1.a.1 1 | wrong line 3 rule 1 condition 6 line 2
6 1 0 make-full 1.a.1 | wrong line 3 rule 2 condition 4 line 2
6 1 1 take 1.a.1 0 1:1:0 | wrong line 3 rule 19 condition 1
6 2 1 empty 1.p.1 | wrong line 3 rule 22 condition 2 line 2
6 1 1 empty 1.a.1 | wrong line 3 rule 22 condition 1
6 1 1 rehome 1.p.1 1.p.1 | wrong line 3 rule 24 condition 1
6 2 1 rehome 1.p.1 2.a.1 | wrong line 3 rule 24 condition 2 line 2
6 1 1 rehome 1.p.1 1.a.9 | wrong line 3 rule 24 condition 3
6 1 1 rehome 1.p.1 2.a.1 | wrong line 3 rule 24 condition 4
6 1 1 depart 1.p.1 2 2.p.1 1 | wrong line 3 rule 25 condition 1
6 3 1 depart 1.p.1 2 2.a.1 1 | wrong line 3 rule 25 condition 2 line 2
6 1 1 depart 1.p.1 2 2.a.9 1 | wrong line 3 rule 25 condition 3
6 1 1 depart 1.p.1 1 1.a.1 1 | wrong line 3 rule 25 condition 4
6 1 1 depart 1.p.1 3 2.a.1 1 | wrong line 3 rule 25 condition 5
6 1 1 depart 1.p.1 2 2.a.1 2 | wrong line 3 rule 25 condition 6 line 2
6 1 0 arrive 1.g.1 1 | wrong line 3 rule 26 condition 1
6 1 0 arrive 1.p.1 1 | wrong line 3 rule 26 condition 2 line 2
6 1 1 delete 1.a.1 | wrong line 3 rule 39 condition 1
6 2 1 delete 1.p.1 | wrong line 3 rule 39 condition 2 line 2
6 1 1 delete 1.p.1 1:1:0 | wrong line 3 rule 39 condition 3
",
    ),
    (
        "all ports of a place, of four on each site",
        4,
        "",
        "\
1 1 0 make 1.p.1 1.a.1 1
2 1 0 make 1.p.5 1.a.1 1
3 1 0 make 1.p.9 1.a.1 1
4 1 0 make 1.p.13 1.a.1 1
5 1 0 make 1.p.17 1.a.1 1
6 1 0 make 1.p.21 1.a.1 1
7 1 0 make 1.p.25 1.a.1 1
8 1 0 make 1.p.29 1.a.1 1
",
        "\
9 1 0 make 1.p.33 1.a.1 1 | wrong line 10 rule 1 condition 5 line 9
9 1 0 make-full 1.p.1 | wrong line 10 rule 2 condition 1
9 1 0 make-full 1.a.9 | wrong line 10 rule 2 condition 2
9 1 0 make-full 2.a.1 | wrong line 10 rule 2 condition 3
",
    ),
    (
        "a message that is posted",
        1,
        "",
        "\
1 1 0 make 1.p.1 1.a.1 1
2 1 1 post 1:1:0 port 1.p.1 plain =a
",
        "\
3 1 2 post 1:1:0 port 1.p.1 plain = | wrong line 4 rule 5 condition 2
3 1 1 post 1:3:0 port 1.p.1 plain = | wrong line 4 rule 5 condition 3 line 3
3 1 1 post 1:2:1 port 1.p.1 plain = | wrong line 4 rule 5 condition 4
3 2 1 post 1:2:0 port 1.p.1 plain = | wrong line 4 rule 5 condition 5 line 3
3 1 1 post 1:2:0 all 1.g.1 request 1 1.p.1 = | wrong line 4 rule 5 condition 6
3 1 1 post 1:2:0 port 1.p.1 request 2 1.p.1 = | wrong line 4 rule 5 condition 7
3 1 0 accept 1:1:0 1.a.1 0 | wrong line 4 rule 6 condition 1
3 1 0 accept 1:1:0 1.p.1 1 | wrong line 4 rule 6 condition 7
3 1 0 accept 1:2:0 1.p.1 0 | wrong line 4 rule 6 condition 8
3 1 0 full 1:1:0 1.g.1 0 | wrong line 4 rule 7 condition 1
3 1 0 full 1:1:0 1.p.1 0 | wrong line 4 rule 7 condition 6
3 1 0 already 1:1:0 1.a.1 | wrong line 4 rule 8 condition 1
3 1 0 already 1:1:0 1.p.1 | wrong line 4 rule 8 condition 3
3 1 0 clients-full 1:1:0 1.a.1 | wrong line 4 rule 9 condition 1
3 1 0 clients-full 1:1:0 1.p.1 | wrong line 4 rule 9 condition 3
3 1 0 no-port 1:1:0 1.a.1 | wrong line 4 rule 12 condition 1
3 1 0 no-port 1:1:0 1.p.1 | wrong line 4 rule 12 condition 2 line 2
3 1 0 gone 1:1:0 1.a.1 | wrong line 4 rule 40 condition 1
3 1 0 gone 1:1:0 1.p.1 | wrong line 4 rule 40 condition 2 line 2
3 1 1 try 1:1:0 1.a.1 1 0 | wrong line 4 rule 16 condition 1
3 1 1 try 1:1:0 1.p.1 1 0 | wrong line 4 rule 16 condition 5
",
    ),
    (
        "one that is accepted, and one behind it that finds no room",
        1,
        "",
        "\
1 1 0 make 1.p.1 1.a.1 1
2 1 1 post 1:1:0 port 1.p.1 plain =a
3 1 1 accept 1:1:0 1.p.1 0
4 1 1 post 1:2:0 port 1.p.1 plain =b
",
        "\
5 1 0 accept 1:2:0 1.p.1 1 | wrong line 6 rule 6 condition 6 line 4
5 1 0 full 1:2:0 1.p.1 2 | wrong line 6 rule 7 condition 7 line 4
5 1 0 full 1:3:0 1.p.1 1 | wrong line 6 rule 7 condition 8
5 1 0 full 1:1:0 1.p.1 1 | wrong line 6 rule 7 condition 8 line 4
5 2 1 take 1.p.1 0 1:1:0 | wrong line 6 rule 19 condition 2 line 2
5 1 1 take 1.p.1 0 1:2:0 | wrong line 6 rule 19 condition 4 line 4
5 1 1 empty 1.p.1 | wrong line 6 rule 22 condition 3 line 4
5 1 1 delete 1.p.1 | wrong line 6 rule 39 condition 3 line 4
",
    ),
    (
        "two that wait",
        1,
        "",
        "\
1 1 0 make 1.p.1 1.a.1 4
2 1 1 post 1:1:0 port 1.p.1 plain =a
3 1 1 accept 1:1:0 1.p.1 0
4 1 1 post 1:2:0 port 1.p.1 plain =b
5 1 1 accept 1:2:0 1.p.1 1
",
        "\
6 1 1 take 1.p.1 1 1:2:0 | wrong line 7 rule 19 condition 3 line 6
6 1 0 accept 1:1:0 1.p.1 2 | wrong line 7 rule 6 condition 8 line 4
",
    ),
    (
        "a port that is deleted",
        1,
        "",
        "\
1 1 0 make 1.p.1 1.a.1 1
2 1 1 delete 1.p.1
",
        "\
3 1 0 gone 1:1:0 1.p.1 | wrong line 4 rule 40 condition 3
",
    ),
    (
        "a request in hand",
        1,
        "",
        "\
1 1 0 make 1.p.1 1.a.1 4
2 1 0 make 1.p.2 1.a.2 4
3 1 1 post 1:1:0 port 1.p.1 request 1 1.p.2 =q
4 1 1 accept 1:1:0 1.p.1 0
5 1 2 take 1.p.1 0 1:1:0
",
        "\
6 1 1 post 1:2:0 port 1.p.1 request 2 1.p.2 =q | wrong line 7 rule 5 condition 7 line 4
6 1 1 post 1:2:0 port 1.p.1 request 1 1.p.2 =r | wrong line 7 rule 5 condition 7 line 4
6 1 2 post 2:1:0 port 1.p.1 reply 1 1 =r | wrong line 7 rule 5 condition 6 line 6
6 1 1 outstanding 2 | wrong line 7 rule 35 condition 2 line 4
6 1 1 no-call | wrong line 7 rule 36 condition 2 line 4
6 1 2 no-request | wrong line 7 rule 37 condition 2 line 6
6 1 1 cancel 2 | wrong line 7 rule 38 condition 2 line 4
6 1 1 done 1 | wrong line 7 rule 20 condition 2 line 6
6 1 1 late 1 | wrong line 7 rule 21 condition 2 line 6
",
    ),
    (
        "the request again",
        1,
        "",
        "\
1 1 0 make 1.p.1 1.a.1 2
2 1 0 make 1.p.2 1.a.2 4
3 1 1 post 1:1:0 port 1.p.1 request 1 1.p.2 =q
4 1 1 accept 1:1:0 1.p.1 0
5 1 1 post 1:2:0 port 1.p.1 request 1 1.p.2 =q
",
        "\
6 1 0 accept 1:2:0 1.p.1 1 | wrong line 7 rule 6 condition 4 line 5
6 1 0 already 1:3:0 1.p.1 | wrong line 7 rule 8 condition 3 line 5
",
    ),
    (
        "the request again, where the port is full, and has left since it was tried",
        1,
        "",
        "\
1 1 0 make 1.p.1 1.a.1 1
2 2 2 post 2:1:0 port 1.p.1 request 1 2.p.1 =q
3 2 2 try 2:1:0 1.p.1 1 0
4 1 0 accept 2:1:0 1.p.1 0
5 2 0 told 2:1:0 accepted 0
6 2 2 post 2:2:0 port 1.p.1 request 1 2.p.1 =q
7 2 2 try 2:2:0 1.p.1 1 0
",
        "\
8 1 0 full 2:2:0 1.p.1 1 | wrong line 9 rule 7 condition 4 line 5
8 1 0 already 2:1:0 1.p.1 | wrong line 9 rule 8 condition 4 line 6
",
    ),
    (
        "which has left since the request was tried again",
        1,
        "",
        "\
1 1 0 make 1.p.1 1.a.1 1
2 2 2 post 2:1:0 port 1.p.1 request 1 2.p.1 =q
3 2 2 try 2:1:0 1.p.1 1 0
4 1 0 accept 2:1:0 1.p.1 0
5 2 0 told 2:1:0 accepted 0
6 2 2 post 2:2:0 port 1.p.1 request 1 2.p.1 =q
7 2 2 try 2:2:0 1.p.1 1 0
8 1 1 depart 1.p.1 3 3.a.1 1
",
        "\
9 1 0 already 2:2:0 1.p.1 | wrong line 10 rule 8 condition 2 line 9
",
    ),
    (
        "a reply that is taken",
        1,
        "",
        "\
1 1 0 make 1.p.1 1.a.1 1
2 1 0 make 1.p.2 1.a.2 1
3 1 1 post 1:1:0 port 1.p.1 request 1 1.p.2 =q
4 1 1 accept 1:1:0 1.p.1 0
5 1 2 take 1.p.1 0 1:1:0
6 1 2 post 2:1:0 port 1.p.2 reply 1 1 =r
7 1 2 accept 2:1:0 1.p.2 0
8 1 1 take 1.p.2 0 2:1:0
",
        "\
9 1 1 done 2 | wrong line 10 rule 20 condition 2 line 9
9 1 1 late 2 | wrong line 10 rule 21 condition 2 line 9
9 1 1 late 1 | wrong line 10 rule 21 condition 3 line 4
9 1 1 empty 1.p.2 | wrong line 9 rule 41 condition 1 line 10
",
    ),
    (
        "a reply to a call that is cancelled",
        1,
        "",
        "\
1 1 0 make 1.p.1 1.a.1 1
2 1 0 make 1.p.2 1.a.2 1
3 1 1 post 1:1:0 port 1.p.1 request 1 1.p.2 =q
4 1 1 accept 1:1:0 1.p.1 0
5 1 1 cancel 1
6 1 2 take 1.p.1 0 1:1:0
7 1 2 post 2:1:0 port 1.p.2 reply 1 1 =r
8 1 2 accept 2:1:0 1.p.2 0
9 1 1 take 1.p.2 0 2:1:0
",
        "\
10 1 1 done 1 | wrong line 11 rule 20 condition 3 line 6
",
    ),
    (
        "a message for a port that has left",
        1,
        "",
        "\
1 1 0 make 1.p.1 1.a.1 1
2 2 2 post 2:1:0 port 1.p.1 plain =a
3 2 2 try 2:1:0 1.p.1 1 0
4 1 1 depart 1.p.1 2 2.a.1 1
",
        "\
5 1 0 accept 2:1:0 1.p.1 0 | wrong line 6 rule 6 condition 2 line 5
5 1 0 stale 2:1:0 1.a.1 0 2 1 | wrong line 6 rule 10 condition 1
5 1 0 stale 2:1:0 1.p.1 0 3 1 | wrong line 6 rule 10 condition 3 line 5
5 1 0 stale 2:2:0 1.p.1 0 2 1 | wrong line 6 rule 10 condition 7
5 1 0 elsewhere 2:1:0 1.a.1 2 1 | wrong line 6 rule 13 condition 1
5 1 0 elsewhere 2:1:0 1.p.1 2 1 | wrong line 6 rule 13 condition 2 line 3
",
    ),
    (
        "and for one that is here",
        1,
        "",
        "\
1 1 0 make 1.p.1 1.a.1 1
2 2 2 post 2:1:0 port 1.p.1 plain =a
3 2 2 try 2:1:0 1.p.1 1 0
",
        "\
4 1 0 stale 2:1:0 1.p.1 0 2 1 | wrong line 5 rule 10 condition 2 line 2
4 2 0 told 2:1:0 accepted 0 | wrong line 5 rule 17 condition 2 line 4
",
    ),
    (
        "for a full one that has left",
        1,
        "",
        "\
1 1 0 make 1.p.1 1.a.1 1
2 1 1 post 1:1:0 port 1.p.1 plain =a
3 1 1 accept 1:1:0 1.p.1 0
4 2 2 post 2:1:0 port 1.p.1 plain =b
5 2 2 try 2:1:0 1.p.1 1 0
6 1 1 depart 1.p.1 2 2.a.1 1
",
        "\
7 1 0 full 2:1:0 1.p.1 1 | wrong line 8 rule 7 condition 2 line 7
",
    ),
    (
        "one that is tried where its port is on its way to",
        1,
        "",
        "\
1 1 0 make 1.p.1 1.a.1 1
2 1 1 depart 1.p.1 2 2.a.1 1
3 1 1 post 1:1:0 port 1.p.1 plain =a
4 1 1 try 1:1:0 1.p.1 2 1
",
        "\
5 2 0 stale 1:1:0 1.p.1 1 1 0 | wrong line 6 rule 10 condition 4
5 2 0 early 1:1:0 2.a.1 1 | wrong line 6 rule 11 condition 1
5 2 0 early 1:2:0 1.p.1 1 | wrong line 6 rule 11 condition 3
",
    ),
    (
        "where it has come to",
        1,
        "",
        "\
1 1 0 make 1.p.1 1.a.1 1
2 1 1 depart 1.p.1 2 2.a.1 1
3 1 1 post 1:1:0 port 1.p.1 plain =a
4 1 1 try 1:1:0 1.p.1 2 1
5 2 0 arrive 1.p.1 1
",
        "\
6 2 0 early 1:1:0 1.p.1 1 | wrong line 7 rule 11 condition 2 line 6
",
    ),
    (
        "a port that the place knows to come back",
        1,
        "",
        "\
1 1 0 make 1.p.1 1.a.1 1
2 2 2 post 2:1:0 port 1.p.1 plain =a
3 2 2 try 2:1:0 1.p.1 1 0
4 1 1 depart 1.p.1 2 2.a.1 1
5 2 0 arrive 1.p.1 1
6 2 2 depart 1.p.1 1 1.a.1 2
7 1 1 post 1:1:0 port 1.p.1 plain =b
8 1 1 try 1:1:0 1.p.1 2 1
9 2 0 stale 1:1:0 1.p.1 1 1 2
10 1 0 told 1:1:0 stale 1 2
",
        "\
11 1 0 stale 2:1:0 1.p.1 0 1 2 | wrong line 12 rule 10 condition 5
",
    ),
    (
        "posts for a port that has left, and for one of no site",
        1,
        "",
        "\
1 1 0 make 1.p.1 1.a.1 1
2 1 1 depart 1.p.1 2 2.a.1 1
3 1 1 post 1:1:0 port 1.p.1 plain =a
4 1 1 post 1:2:0 port 9.p.1 plain =b
5 1 1 post 1:3:0 port 1.p.1 plain =c
",
        "\
6 1 1 try 1:2:0 9.p.1 0 0 | wrong line 7 rule 16 condition 2
6 1 1 try 1:1:0 1.p.1 3 1 | wrong line 7 rule 16 condition 3 line 3
6 1 1 try 1:1:0 1.p.1 2 0 | wrong line 7 rule 16 condition 4 line 3
6 1 1 try 1:3:0 1.p.1 2 1 | wrong line 7 rule 16 condition 7 line 6
6 1 1 try 1:4:0 1.p.1 2 1 | wrong line 7 rule 16 condition 7
",
    ),
    (
        "a message for a member on one site",
        1,
        "",
        "\
1 1 0 make 1.p.1 1.a.1 1
2 2 0 group 2.g.1
3 2 0 join 2.g.1 1.p.1
4 2 2 post 2:1:0 at 2.g.1 1 plain =a
5 2 0 choose 2:1:0 2.g.1 1.p.1
6 2 0 try 2:1:1 1.p.1 1 0
",
        "\
7 1 0 elsewhere 2:1:1 1.p.1 1 0 | wrong line 8 rule 13 condition 4 line 7
",
    ),
    (
        "which has left it",
        1,
        "",
        "\
1 1 0 make 1.p.1 1.a.1 1
2 2 0 group 2.g.1
3 2 0 join 2.g.1 1.p.1
4 2 2 post 2:1:0 at 2.g.1 1 plain =a
5 2 0 choose 2:1:0 2.g.1 1.p.1
6 2 0 try 2:1:1 1.p.1 1 0
7 1 1 depart 1.p.1 2 2.a.1 1
",
        "\
8 1 0 stale 2:1:1 1.p.1 0 2 1 | wrong line 9 rule 10 condition 6 line 5
8 1 0 elsewhere 2:1:1 1.p.1 3 1 | wrong line 9 rule 13 condition 3 line 8
",
    ),
    (
        "and one for it, where the place knows it elsewhere",
        1,
        "",
        "\
1 1 0 make 1.p.1 1.a.1 1
2 1 0 group 1.g.1
3 1 0 join 1.g.1 1.p.1
4 1 1 post 1:1:0 at 1.g.1 1 plain =a
5 1 0 choose 1:1:0 1.g.1 1.p.1
6 1 1 depart 1.p.1 2 2.a.1 1
",
        "\
7 1 0 try 1:1:1 1.p.1 2 1 | wrong line 8 rule 16 condition 6 line 5
",
    ),
    (
        "a message for a member on one site, where the member comes from another",
        1,
        "",
        "\
1 2 0 make 2.p.1 2.a.1 1
2 3 0 group 3.g.1
3 3 0 join 3.g.1 2.p.1
4 3 3 post 3:1:0 at 3.g.1 2 plain =a
5 3 0 choose 3:1:0 3.g.1 2.p.1
6 2 2 depart 2.p.1 1 1.a.1 1
7 1 0 arrive 2.p.1 1
",
        "\
8 1 0 accept 3:1:1 2.p.1 0 | wrong line 9 rule 6 condition 3 line 5
8 1 0 full 3:1:1 2.p.1 0 | wrong line 9 rule 7 condition 3 line 5
",
    ),
    (
        "groups, of which one has a member",
        1,
        "",
        "\
1 1 0 make 1.p.1 1.a.1 1
2 1 0 group 1.g.1
3 1 0 group 1.g.2
4 1 0 join 1.g.1 1.p.1
5 1 1 post 1:1:0 all 1.g.1 plain =a
6 1 1 post 1:2:0 all 1.g.1 plain =b
7 1 1 post 1:3:0 all 1.g.2 plain =c
",
        "\
8 1 0 no-member 1:1:0 1.p.1 | wrong line 9 rule 14 condition 1
8 1 0 no-member 1:4:0 1.g.1 | wrong line 9 rule 14 condition 2
8 1 0 no-member 1:1:0 1.g.1 | wrong line 9 rule 14 condition 3 line 5
8 1 0 choose 1:1:0 1.g.1 1.g.1 | wrong line 9 rule 15 condition 1
8 1 0 choose 1:2:0 1.g.1 1.p.1 | wrong line 9 rule 15 condition 2 line 7
8 1 0 choose 1:3:0 1.g.2 | wrong line 9 rule 15 condition 3
8 1 0 choose 1:1:0 1.g.1 1.p.2 | wrong line 9 rule 15 condition 4 line 5
8 1 0 join 1.g.1 1.a.1 | wrong line 9 rule 29 condition 1
8 2 0 join 1.g.1 1.p.2 | wrong line 9 rule 29 condition 2
8 1 0 join 1.g.3 1.p.1 | wrong line 9 rule 29 condition 3
8 1 0 join 1.g.1 1.p.1 | wrong line 9 rule 29 condition 4 line 5
8 1 0 leave 1.g.1 1.g.1 | wrong line 9 rule 30 condition 1
8 2 0 leave 1.g.1 1.p.1 | wrong line 9 rule 30 condition 2
8 1 0 leave 1.g.3 1.p.1 | wrong line 9 rule 30 condition 3
8 1 0 leave 1.g.1 1.p.2 | wrong line 9 rule 30 condition 4
8 1 0 no-group 1.p.1 | wrong line 9 rule 31 condition 1
8 1 0 no-group 1.g.1 | wrong line 9 rule 31 condition 2 line 3
8 1 0 there 1.p.1 1.p.1 | wrong line 9 rule 32 condition 1
8 2 0 there 1.g.1 1.p.1 | wrong line 9 rule 32 condition 2
8 1 0 there 1.g.3 1.p.1 | wrong line 9 rule 32 condition 3
8 1 0 there 1.g.1 1.p.2 | wrong line 9 rule 32 condition 4
8 1 0 not-there 1.g.1 1.a.1 | wrong line 9 rule 33 condition 1
8 2 0 not-there 1.g.1 1.p.2 | wrong line 9 rule 33 condition 2
8 1 0 not-there 1.g.3 1.p.2 | wrong line 9 rule 33 condition 3
8 1 0 not-there 1.g.1 1.p.1 | wrong line 9 rule 33 condition 4 line 5
8 1 0 members-full 1.p.1 | wrong line 9 rule 34 condition 1
8 2 0 members-full 1.g.1 | wrong line 9 rule 34 condition 2
8 1 0 members-full 1.g.3 | wrong line 9 rule 34 condition 3
8 1 0 members-full 1.g.1 | wrong line 9 rule 34 condition 4 line 5
8 1 0 group 1.g.4 | wrong line 9 rule 27 condition 4 line 4
",
    ),
    (
        "all groups of a site",
        1,
        "",
        "\
1 1 0 group 1.g.1
2 1 0 group 1.g.2
3 1 0 group 1.g.3
4 1 0 group 1.g.4
",
        "\
5 1 0 group 1.g.5 | wrong line 6 rule 27 condition 3
5 1 0 groups-full 9 | wrong line 6 rule 28 condition 2
5 1 0 groups-full 2 | wrong line 6 rule 28 condition 3
",
    ),
    (
        "a post to the group of another place",
        1,
        "",
        "\
1 2 0 make 2.p.1 2.a.1 1
2 2 0 group 2.g.1
3 2 0 join 2.g.1 2.p.1
4 1 1 post 1:1:0 all 2.g.1 plain =a
5 2 0 choose 1:1:0 2.g.1 2.p.1
",
        "\
6 1 0 heard 1:1:0 no-member | wrong line 7 rule 18 condition 2 line 6
6 3 0 heard 1:1:0 chosen 1 | wrong line 7 rule 18 condition 3 line 5
",
    ),
    (
        "a port that remembers 64 clients, and is full",
        1,
        "clients",
        "\
130 1 65 post 65:1:0 port 1.p.1 request 1 1.p.2 =q
130 2 66 post 66:1:0 port 1.p.1 request 1 1.p.2 =q
",
        "\
131 1 0 full 65:1:0 1.p.1 64 | wrong line 133 rule 7 condition 5 line 130
131 1 0 clients-full 66:1:0 1.p.1 | wrong line 133 rule 9 condition 4 line 132
",
    ),
    (
        "and has room again",
        1,
        "clients",
        "\
130 1 1 take 1.p.1 0 1:1:0
131 1 65 post 65:1:0 port 1.p.1 request 1 1.p.2 =q
",
        "\
132 1 0 accept 65:1:0 1.p.1 64 | wrong line 133 rule 6 condition 5 line 130
",
    ),
    (
        "and has left",
        1,
        "clients",
        "\
130 2 65 post 65:1:0 port 1.p.1 request 1 1.p.2 =q
131 2 65 try 65:1:0 1.p.1 1 0
132 1 1 depart 1.p.1 2 2.a.1 1
",
        "\
133 1 0 clients-full 65:1:0 1.p.1 | wrong line 134 rule 9 condition 2 line 133
",
    ),
    (
        "a group with 32 members",
        1,
        "members",
        "",
        "\
34 1 0 join 1.g.1 1.p.1 | wrong line 35 rule 29 condition 5 line 34
",
    ),
];

/// Appends the entries by which a port with room for 64 messages is made, and accepts a request of each of 64 clients: 129 of them.
fn push_clients(rt: &impl Abort, lines: &mut String) {
    writeln!(lines, "1 1 0 make 1.p.1 1.a.1 64").expect(rt, "memory");
    for n in 1..=64u64 {
        let clock = 2 * n;
        let next = clock + 1;
        let pos = n - 1;
        writeln!(
            lines,
            "{clock} 1 {n} post {n}:1:0 port 1.p.1 request 1 1.p.2 =q"
        )
        .expect(rt, "memory");
        writeln!(lines, "{next} 1 {n} accept {n}:1:0 1.p.1 {pos}").expect(rt, "memory");
    }
}

/// Appends the entries by which a group gets its 32 members: 33 of them.
fn push_members(rt: &impl Abort, lines: &mut String) {
    writeln!(lines, "1 1 0 group 1.g.1").expect(rt, "memory");
    for n in 1..=32u64 {
        let clock = n + 1;
        writeln!(lines, "{clock} 1 0 join 1.g.1 2.p.{n}").expect(rt, "memory");
    }
}

/// The lines of a setup, of these and of what stands in front of them.
fn lines_of(rt: &impl Abort, alloc: Global, front: &str, lines: &str) -> String {
    let mut all = String::new(alloc);
    match front {
        "clients" => push_clients(rt, &mut all),
        "members" => push_members(rt, &mut all),
        _ => {}
    }
    all.push_str(lines).expect(rt, "memory");
    all
}

/// The first line of what is told of a journal of these lines and one behind them, on eight sites of so many places.
fn told_of(rt: &impl Abort, alloc: Global, turns: u16, lines: &str, wrong: &str) -> String {
    let mut text = String::new(alloc);
    let count = lines.lines().count() + 1;
    writeln!(text, "journal {count}").expect(rt, "memory");
    text.push_str(lines).expect(rt, "memory");
    writeln!(text, "{wrong}").expect(rt, "memory");
    let layout = Layout::new(8, turns);
    let found = judged(rt, alloc, layout, text.as_str(), 0, 64, 0);
    let (first, _) = found.written.as_str().split_once('\n').expect(rt, "a line");
    String::from_str(alloc, first).expect(rt, "memory")
}

/// Asserts what each row says of the journal of these lines with one more.
fn assert_rows(rt: &impl Abort, alloc: Global, name: &str, turns: u16, lines: &str, rows: &str) {
    for row in rows.lines() {
        let (wrong, want) = row.split_once(" | ").expect(rt, "a row");
        let told = told_of(rt, alloc, turns, lines, wrong);
        assert_eq!(rt; told.as_str(), want, "{name}: {wrong}");
    }
}

/// Of each wrong line the first condition that fails is named, and the line of the entry that it is about.
#[test]
fn conditions_fail(rt: HostRuntime) {
    for (name, turns, front, lines, rows) in SETUPS {
        let lines = lines_of(&rt, rt.alloc(), front, lines);
        assert_rows(&rt, rt.alloc(), name, turns, lines.as_str(), rows);
    }
}
