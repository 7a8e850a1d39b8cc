//! Posts to groups, in the three ways, over one site and two.

/// Members are chosen and reported.
pub(crate) const GROUPS: &str = "\
a broadcast from another site: 2 1
port 1.p.1 1.a.1 1
port 2.p.1 2.a.1 1
group 1.g.1
member 1.g.1 1.p.1
member 1.g.1 2.p.1
script 2.a.1
all 1.g.1 =k
schedule
journal
6 2 1 post 1:1:0 all 1.g.1 plain =k
7 1 0 choose 1:1:0 1.g.1 1.p.1 2.p.1
8 1 0 accept 1:1:1 1.p.1 0
9 1 0 try 1:1:2 2.p.1 2 0
10 2 0 heard 1:1:0 chosen 2
11 2 0 heard 1:1:1 accepted 0
12 2 0 accept 1:1:2 2.p.1 0
13 1 0 told 1:1:2 accepted 0
14 2 0 heard 1:1:2 accepted 0
end
groups with no member to choose: 2 1
group 1.g.1
script 2.a.1
all 1.g.2 =k
one 5.g.1 =l
at 1.g.1 2 =m
schedule
journal
2 2 1 post 1:1:0 all 1.g.2 plain =k
3 1 0 no-member 1:1:0 1.g.2
4 2 0 heard 1:1:0 no-member
5 2 1 post 1:2:0 one 5.g.1 plain =l
6 2 1 no-member 1:2:0 5.g.1
7 2 1 post 1:3:0 at 1.g.1 2 plain =m
8 1 0 no-member 1:3:0 1.g.1
9 2 0 heard 1:3:0 no-member
end
one rotation for both functional ways: 2 1
port 1.p.1 1.a.1 4
port 1.p.2 1.a.1 4
port 2.p.1 2.a.1 4
group 1.g.1
member 1.g.1 1.p.1
member 1.g.1 2.p.1
member 1.g.1 1.p.2
script 1.a.1
at 1.g.1 1 =a
at 1.g.1 1 =b
one 1.g.1 =c
leave 1.g.1 1.p.1
one 1.g.1 =d
at 1.g.1 2 =e
schedule
journal
8 1 1 post 1:1:0 at 1.g.1 1 plain =a
9 1 1 choose 1:1:0 1.g.1 1.p.1
10 1 1 accept 1:1:1 1.p.1 0
11 1 1 post 1:2:0 at 1.g.1 1 plain =b
12 1 1 choose 1:2:0 1.g.1 1.p.2
13 1 1 accept 1:2:1 1.p.2 0
14 1 1 post 1:3:0 one 1.g.1 plain =c
15 1 1 choose 1:3:0 1.g.1 1.p.1
16 1 1 accept 1:3:1 1.p.1 1
17 1 1 leave 1.g.1 1.p.1
18 1 1 post 1:4:0 one 1.g.1 plain =d
19 1 1 choose 1:4:0 1.g.1 2.p.1
20 1 1 try 1:4:1 2.p.1 2 0
21 2 0 accept 1:4:1 2.p.1 0
22 1 0 told 1:4:1 accepted 0
23 1 1 post 1:5:0 at 1.g.1 2 plain =e
24 1 1 choose 1:5:0 1.g.1 2.p.1
25 1 1 try 1:5:1 2.p.1 2 0
26 2 0 accept 1:5:1 2.p.1 1
27 1 0 told 1:5:1 accepted 1
end
";
