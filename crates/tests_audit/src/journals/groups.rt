//! Groups: choices, copies and reports.

use super::{follow, replay};
use std::alloc::Global;
use std::process::Abort;

/// Worked journals of groups, with their sites and the places of each.
pub(super) const JOURNALS: &[(&str, u16, u16, &str)] = &[
    // a group's copy for one site whose port left: elsewhere, not stale
    (
        "functional_at_a_site",
        3,
        1,
        "
        1 2 0 make 2.p.1 2.a.1 4
        ! 27: 2 1 0 group 1.g.2
        2 1 0 group 1.g.1
        3 1 0 join 1.g.1 2.p.1
        4 1 1 post 1:1:0 at 1.g.1 2 plain =x
        ! 14: 5 1 1 no-member 1:1:0 1.g.1
        5 1 1 choose 1:1:0 1.g.1 2.p.1
        6 1 1 try 1:1:1 2.p.1 2 0
        4 2 2 depart 2.p.1 3 3.a.1 1
        ! 10: 7 2 0 stale 1:1:1 2.p.1 0 3 1
        ! 13: 7 2 0 elsewhere 1:1:1 2.p.1 1 1
        7 2 0 elsewhere 1:1:1 2.p.1 3 1
        8 1 0 told 1:1:1 elsewhere 3 1
        9 3 0 arrive 2.p.1 1
        ",
    ),
    // reports of a group's choice and copy; each is refused once more
    (
        "report_reaches_the_home_place",
        2,
        1,
        "
        1 2 0 make 2.p.1 2.a.1 4
        2 1 0 group 1.g.1
        3 1 0 join 1.g.1 2.p.1
        4 2 1 post 1:1:0 one 1.g.1 plain =k
        ! 15: 5 1 0 choose 1:1:0 1.g.1 2.p.2
        5 1 0 choose 1:1:0 1.g.1 2.p.1
        6 1 0 try 1:1:1 2.p.1 2 0
        7 2 0 heard 1:1:0 chosen 1
        8 2 0 accept 1:1:1 2.p.1 0
        ! 18: 9 2 0 heard 1:1:1 accepted 0
        9 1 0 told 1:1:1 accepted 0
        10 2 0 heard 1:1:1 accepted 0
        ! 18: 11 2 0 heard 1:1:1 accepted 0
        ! 18: 11 2 0 heard 1:1:0 chosen 1
        ",
    ),
    // a group's rotation over three members; one out of turn is refused
    (
        "functional_send_rotates",
        1,
        1,
        "
        1 1 0 make 1.p.1 1.a.1 1
        2 1 0 make 1.p.2 1.a.1 1
        3 1 0 make 1.p.3 1.a.1 1
        ! 28: 4 1 0 groups-full 1
        4 1 0 group 1.g.1
        5 1 0 group 1.g.2
        ! 30: 6 1 0 leave 1.g.1 1.p.1
        6 1 0 join 1.g.1 1.p.1
        7 1 0 join 1.g.1 1.p.2
        8 1 0 join 1.g.1 1.p.3
        ! 29: 9 1 0 join 1.g.1 1.p.1
        ! 31: 9 1 0 no-group 1.g.1
        ! 32: 9 1 0 there 1.g.2 1.p.1
        ! 33: 9 1 0 not-there 1.g.1 1.p.1
        ! 34: 9 1 0 members-full 1.g.1
        9 1 1 post 1:1:0 one 1.g.2 plain =z
        10 1 1 no-member 1:1:0 1.g.2
        11 1 1 post 1:2:0 one 1.g.1 plain =f
        12 1 1 choose 1:2:0 1.g.1 1.p.1
        13 1 1 accept 1:2:1 1.p.1 0
        14 1 1 post 1:3:0 one 1.g.1 plain =f
        15 1 1 choose 1:3:0 1.g.1 1.p.2
        16 1 1 accept 1:3:1 1.p.2 0
        17 1 1 post 1:4:0 one 1.g.1 plain =f
        18 1 1 choose 1:4:0 1.g.1 1.p.3
        19 1 1 accept 1:4:1 1.p.3 0
        20 1 1 post 1:5:0 one 1.g.1 plain =f
        ! 15: 21 1 1 choose 1:5:0 1.g.1 1.p.2
        21 1 1 choose 1:5:0 1.g.1 1.p.1
        22 1 1 full 1:5:1 1.p.1 1
        ",
    ),
    // copies for site 2 whose port comes to the group's own place
    (
        "a_port_comes_to_the_groups_place",
        2,
        1,
        "
        1 2 0 make 2.p.1 2.a.1 4
        2 1 0 group 1.g.1
        3 1 0 join 1.g.1 2.p.1
        4 1 1 post 1:1:0 at 1.g.1 2 plain =x
        5 1 1 choose 1:1:0 1.g.1 2.p.1
        6 1 1 try 1:1:1 2.p.1 2 0
        7 1 1 post 1:2:0 at 1.g.1 2 plain =y
        8 1 1 choose 1:2:0 1.g.1 2.p.1
        ! 16: 9 1 1 try 1:2:1 2.p.1 2 0
        4 2 2 depart 2.p.1 1 1.a.1 1
        9 1 0 arrive 2.p.1 1
        10 2 0 elsewhere 1:1:1 2.p.1 1 1
        11 1 0 told 1:1:1 elsewhere 1 1
        ! 6: 12 1 0 accept 1:2:1 2.p.1 0
        12 1 0 elsewhere 1:2:1 2.p.1 1 1
        ",
    ),
    // a post to all of a group with one full port
    (
        "broadcast_meets_full",
        1,
        1,
        "
        1 1 0 make 1.p.1 1.a.1 2
        2 1 0 make 1.p.2 1.a.1 1
        3 1 0 make 1.p.3 1.a.1 2
        4 1 0 group 1.g.1
        5 1 0 join 1.g.1 1.p.1
        6 1 0 join 1.g.1 1.p.2
        7 1 0 join 1.g.1 1.p.3
        8 1 1 post 1:1:0 port 1.p.2 plain =f
        9 1 1 accept 1:1:0 1.p.2 0
        10 1 1 post 1:2:0 all 1.g.1 plain =b
        ! 15: 11 1 1 choose 1:2:0 1.g.1 1.p.1
        11 1 1 choose 1:2:0 1.g.1 1.p.1 1.p.2 1.p.3
        12 1 1 accept 1:2:1 1.p.1 0
        13 1 1 full 1:2:2 1.p.2 1
        14 1 1 accept 1:2:3 1.p.3 0
        ",
    ),
    // a group's rotation while members join and leave
    (
        "members_take_turns_as_they_join_and_leave",
        1,
        1,
        "
        1 1 0 make 1.p.1 1.a.1 4
        2 1 0 make 1.p.2 1.a.1 4
        3 1 0 make 1.p.3 1.a.1 4
        4 1 0 group 1.g.1
        5 1 0 join 1.g.1 1.p.1
        6 1 0 join 1.g.1 1.p.2
        7 1 1 post 1:1:0 one 1.g.1 plain =f
        8 1 1 choose 1:1:0 1.g.1 1.p.1
        9 1 1 accept 1:1:1 1.p.1 0
        10 1 1 post 1:2:0 one 1.g.1 plain =f
        11 1 1 choose 1:2:0 1.g.1 1.p.2
        12 1 1 accept 1:2:1 1.p.2 0
        13 1 0 join 1.g.1 1.p.3
        14 1 1 post 1:3:0 one 1.g.1 plain =f
        15 1 1 choose 1:3:0 1.g.1 1.p.1
        16 1 1 accept 1:3:1 1.p.1 1
        ! 32: 17 1 1 there 1.g.1 1.p.4
        17 1 1 leave 1.g.1 1.p.1
        18 1 1 not-there 1.g.1 1.p.1
        19 1 1 there 1.g.1 1.p.2
        20 1 1 post 1:4:0 one 1.g.1 plain =f
        21 1 1 choose 1:4:0 1.g.1 1.p.2
        22 1 1 accept 1:4:1 1.p.2 1
        23 1 1 leave 1.g.1 1.p.3
        24 1 1 join 1.g.1 1.p.3
        25 1 1 post 1:5:0 one 1.g.1 plain =f
        26 1 1 choose 1:5:0 1.g.1 1.p.2
        27 1 1 accept 1:5:1 1.p.2 2
        28 1 1 post 1:6:0 one 1.g.1 plain =f
        29 1 1 choose 1:6:0 1.g.1 1.p.3
        30 1 1 accept 1:6:1 1.p.3 0
        ",
    ),
];

/// A site with four groups, as many as there may be.
const FOUR_GROUPS: &str = "
    1 1 1 no-group 1.g.1
    2 1 0 group 1.g.1
    3 1 0 group 1.g.2
    4 1 0 group 1.g.3
    5 1 0 group 1.g.4
    ! 27: 6 1 0 group 1.g.5
    6 1 1 groups-full 1
    7 1 1 no-site 2
";

/// What follows where 32 members joined a group.
const BEHIND_32_MEMBERS: &str = "
    ! 29: 40 1 0 join 1.g.1 1.p.33
    40 1 1 members-full 1.g.1
    41 1 1 there 1.g.1 1.p.32
";

/// The worked journal's line by which the port of this number joins the first group.
fn joining(rt: &impl Abort, alloc: Global, number: u64) -> String {
    assert!(rt; number < 33);
    let clock = number + 7;
    format!(in alloc; "{clock} 1 0 join 1.g.1 1.p.{number}").expect(rt, "memory")
}

/// The checker lets four groups be made and 32 ports join, and refuses the next.
#[test]
fn groups_and_members_have_a_limit(rt: HostRuntime) {
    let name = "groups_and_members_have_a_limit";
    let mut world = replay(&rt, rt.alloc(), name, 1, 1, FOUR_GROUPS);
    for number in 1..33_u64 {
        let line = joining(&rt, rt.alloc(), number);
        follow(&rt, rt.alloc(), &mut world, name, line.as_str());
    }
    follow(&rt, rt.alloc(), &mut world, name, BEHIND_32_MEMBERS);
}
