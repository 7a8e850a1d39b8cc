//! Names and limits, and members of groups.

/// Names, limits and members.
pub(crate) const NAMES: &str = "\
membership: 2 1
port 1.p.1 1.a.1 1
group 1.g.1
script 2.a.1
join 1.g.1 1.p.1
join 1.g.1 1.p.1
leave 1.g.1 1.p.1
leave 1.g.1 1.p.1
join 1.g.2 1.p.1
leave 5.g.1 1.p.1
newgroup 5
newgroup 1
newgroup 1
newgroup 1
newgroup 1
schedule
journal
2 1 0 group 1.g.1
3 1 1 join 1.g.1 1.p.1
4 1 1 there 1.g.1 1.p.1
5 1 1 leave 1.g.1 1.p.1
6 1 1 not-there 1.g.1 1.p.1
7 1 1 no-group 1.g.2
8 2 1 no-group 5.g.1
9 2 1 no-site 5
10 1 1 group 1.g.2
11 1 1 group 1.g.3
12 1 1 group 1.g.4
13 1 1 groups-full 1
end
ports of one of four places: 2 4
script 1.a.1
newport 1.a.5 1
newport 1.a.5 1
newport 1.a.5 1
newport 1.a.5 1
newport 1.a.5 1
newport 1.a.5 1
newport 1.a.5 1
newport 1.a.5 1
newport 1.a.5 1
newport 1.a.2 2
newport 3.a.1 2
move 1.p.2 3.a.1
take 1.p.2
move 1.p.1 1.a.1
script 1.a.5
move 1.p.1 3.a.1
move 1.p.1 1.a.2
schedule
journal
1 1 1 make 1.p.1 1.a.5 1
2 1 1 make 1.p.5 1.a.5 1
3 1 1 make 1.p.9 1.a.5 1
4 1 1 make 1.p.13 1.a.5 1
5 1 1 make 1.p.17 1.a.5 1
6 1 1 make 1.p.21 1.a.5 1
7 1 1 make 1.p.25 1.a.5 1
8 1 1 make 1.p.29 1.a.5 1
9 1 1 make-full 1.a.5
10 2 1 make 1.p.2 1.a.2 2
11 1 1 no-actor 3.a.1
12 2 1 not-here 1.p.2
13 2 1 not-here 1.p.2
14 1 1 not-here 1.p.1
15 1 2 no-actor 3.a.1
16 1 2 rehome 1.p.1 1.a.2
end
";
