//! Ports that move, to another site with the messages that wait in them, and to another actor of one site.

use super::{fate_of, follow, named, replay};
use chorus_checker::{PortState, World};
use chorus_entry::{Answer, MsgId};
use chorus_world::Spot;
use std::process::Abort;

/// Worked journals of ports that move, with their sites and the places of each.
pub(super) const JOURNALS: &[(&str, u16, u16, &str)] = &[
    // a port that moves with its messages; a wrong arrival is refused
    (
        "migration_keeps_waiting_messages",
        2,
        1,
        "
        1 1 0 make 1.p.1 1.a.1 4
        2 1 1 post 1:1:0 port 1.p.1 plain =a
        3 1 1 accept 1:1:0 1.p.1 0
        4 1 1 post 1:2:0 port 1.p.1 plain =b
        5 1 1 accept 1:2:0 1.p.1 1
        6 1 1 post 1:3:0 port 1.p.1 plain =c
        7 1 1 accept 1:3:0 1.p.1 2
        ! 24: 8 1 1 rehome 1.p.1 2.a.1
        ! 25: 8 1 1 depart 1.p.1 1 2.a.1 1
        8 1 1 depart 1.p.1 2 2.a.1 1
        ! 26: 9 2 0 arrive 1.p.1 2
        9 2 0 arrive 1.p.1 1
        10 2 2 take 1.p.1 0 1:1:0
        11 2 2 take 1.p.1 1 1:2:0
        12 2 2 take 1.p.1 2 1:3:0
        ",
    ),
    // a message that comes early, before its port, and one behind it
    (
        "early_then_arrive",
        3,
        1,
        "
        1 1 0 make 1.p.1 1.a.1 4
        2 1 2 depart 1.p.1 2 2.a.1 1
        2 3 1 post 1:1:0 port 1.p.1 plain =x
        3 3 1 try 1:1:0 1.p.1 1 0
        4 1 0 stale 1:1:0 1.p.1 0 2 1
        5 3 0 told 1:1:0 stale 2 1
        6 3 0 try 1:1:0 1.p.1 2 1
        ! 11: 7 2 0 early 1:1:0 1.p.1 2
        7 2 0 early 1:1:0 1.p.1 1
        8 3 0 told 1:1:0 early 1
        9 2 0 arrive 1.p.1 1
        9 3 1 post 1:2:0 port 1.p.1 plain =x
        10 3 1 try 1:2:0 1.p.1 2 1
        11 2 0 accept 1:2:0 1.p.1 0
        12 3 0 told 1:2:0 accepted 0
        ",
    ),
    // a port with its message to another actor of its site
    (
        "rehome_on_one_site",
        1,
        1,
        "
        1 1 0 make 1.p.1 1.a.1 2
        2 1 1 post 1:1:0 port 1.p.1 plain =a
        3 1 1 accept 1:1:0 1.p.1 0
        4 1 1 rehome 1.p.1 1.a.2
        5 1 1 not-here 1.p.1
        6 1 2 take 1.p.1 0 1:1:0
        ",
    ),
];

const ACCEPTED_BEHIND_A_MOVE: &str = "
    ! 6: 1 1 0 accept 1:1:0 1.p.1 0
    1 1 0 make 1.p.1 1.a.1 4
    2 1 2 depart 1.p.1 2 2.a.1 1
    2 3 1 post 1:1:0 port 1.p.1 plain =x
    3 3 1 try 1:1:0 1.p.1 1 0
    ! 10: 4 1 0 stale 1:1:0 1.p.1 0 1 0
    4 1 0 stale 1:1:0 1.p.1 0 2 1
    5 3 0 told 1:1:0 stale 2 1
    6 3 0 try 1:1:0 1.p.1 2 1
    ! 6: 7 2 0 accept 1:1:0 1.p.1 0
    7 2 0 arrive 1.p.1 1
    ! 0: 7 2 0 accept 1:1:0 1.p.1 0
    ! 0: 8 4 0 accept 1:1:0 1.p.1 0
    8 2 0 accept 1:1:0 1.p.1 0
";

/// Asserts that the message's verdict in the checker's world is that it was accepted first.
fn assert_accepted_first(rt: &impl Abort, world: &World, id: MsgId) {
    let verdict = world.verdict(id);
    assert!(rt; matches!(verdict, Some(Answer::Accepted { pos: 0 })));
}

/// Asserts that, for the checker, the port moved from place 1 to the actor at place 2, and accepted this message alone.
fn assert_moved(rt: &impl Abort, fate: &PortState, id: MsgId) {
    assert!(rt; fate.path() == [1, 2].as_slice());
    assert!(rt; fate.spot() == Spot::Held(named(rt, "2.a.1")));
    assert!(rt; fate.capacity() == 4);
    assert!(rt; fate.accepted() == [id].as_slice());
    assert!(rt; fate.taken() == 0);
}

/// The checker's world follows a message behind a port's move, and has verdict and path.
#[test]
fn world_refuses_and_follows_a_move(rt: HostRuntime) {
    let name = "world_refuses_and_follows_a_move";
    let mut world = replay(&rt, rt.alloc(), name, 3, 1, ACCEPTED_BEHIND_A_MOVE);
    let id = MsgId {
        seat: 1,
        number: 1,
        copy: 0,
    };
    assert_accepted_first(&rt, &world, id);
    let told = "9 3 0 told 1:1:0 accepted 0";
    follow(&rt, rt.alloc(), &mut world, name, told);
    assert_moved(&rt, fate_of(&rt, &world, "1.p.1"), id);
    assert!(rt; world.port(named(&rt, "1.p.2")).is_none());
}
