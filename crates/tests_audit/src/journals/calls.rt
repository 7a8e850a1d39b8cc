//! Calls and replies, and ports that are deleted.

use super::{fate_of, follow, replay};
use chorus_world::Spot;
use std::alloc::Global;
use std::process::Abort;

/// Worked journals of calls and of a port that is deleted, with their sites and the places of each.
pub(super) const JOURNALS: &[(&str, u16, u16, &str)] = &[
    // a call and its reply on one site
    (
        "call_and_reply_on_one_site",
        1,
        1,
        "
        1 1 0 make 1.p.1 1.a.1 4
        ! 35: 2 1 1 outstanding 1
        ! 38: 2 1 1 cancel 1
        ! 5: 2 1 1 post 1:1:0 port 1.p.1 request 2 1.p.1 =q
        2 1 1 post 1:1:0 port 1.p.1 request 1 1.p.1 =q
        ! 36: 3 1 1 no-call
        ! 8: 3 1 1 already 1:1:0 1.p.1
        ! 9: 3 1 1 clients-full 1:1:0 1.p.1
        3 1 1 accept 1:1:0 1.p.1 0
        4 1 1 outstanding 1
        5 1 1 take 1.p.1 0 1:1:0
        ! 37: 6 1 1 no-request
        ! 5: 6 1 1 post 1:2:0 port 1.p.1 reply 1 2 =s
        ! 5: 6 1 1 post 1:2:0 port 1.p.1 reply 2 1 =s
        6 1 1 post 1:2:0 port 1.p.1 reply 1 1 =s
        7 1 1 accept 1:2:0 1.p.1 1
        8 1 1 take 1.p.1 1 1:2:0
        ! 35: 9 1 1 outstanding 1
        ! 23: 9 1 2 not-here 1.p.1
        ! 20: 9 1 1 done 2
        ! 21: 9 1 1 late 1
        9 1 1 done 1
        10 1 1 no-call
        11 1 1 no-request
        ",
    ),
    // a call retried across a move; its second accept is refused
    (
        "retry_across_a_move_is_accepted_once",
        3,
        1,
        "
        1 1 0 make 1.p.1 1.a.1 4
        2 2 0 make 2.p.1 2.a.1 4
        3 2 1 post 1:1:0 port 1.p.1 request 1 2.p.1 =q
        4 2 1 try 1:1:0 1.p.1 1 0
        5 1 0 accept 1:1:0 1.p.1 0
        6 1 2 depart 1.p.1 3 3.a.1 1
        6 2 0 told 1:1:0 accepted 0
        ! 5: 7 2 1 post 1:2:0 port 1.p.1 request 1 2.p.1 =r
        7 2 1 post 1:2:0 port 1.p.1 request 1 2.p.1 =q
        7 3 0 arrive 1.p.1 1
        8 2 1 try 1:2:0 1.p.1 1 0
        9 1 0 stale 1:2:0 1.p.1 0 3 1
        10 2 0 told 1:2:0 stale 3 1
        11 2 0 try 1:2:0 1.p.1 3 1
        ! 6: 12 3 0 accept 1:2:0 1.p.1 1
        12 3 0 already 1:2:0 1.p.1
        13 2 0 told 1:2:0 already
        13 3 3 take 1.p.1 0 1:1:0
        14 2 1 cancel 1
        14 3 3 post 3:1:0 port 2.p.1 reply 1 1 =ans
        ! 5: 15 2 1 post 1:3:0 port 1.p.1 request 3 2.p.1 =r
        15 2 1 post 1:3:0 port 1.p.1 request 2 2.p.1 =r
        15 3 3 try 3:1:0 2.p.1 2 0
        16 2 1 try 1:3:0 1.p.1 3 1
        17 3 0 accept 1:3:0 1.p.1 1
        18 2 0 accept 3:1:0 2.p.1 0
        19 3 0 told 3:1:0 accepted 0
        20 2 0 told 1:3:0 accepted 1
        21 2 1 take 2.p.1 0 3:1:0
        ! 20: 22 2 1 done 1
        22 2 1 late 1
        ",
    ),
    // a message that finds its moved port deleted; `no-port` is refused there
    (
        "delete_after_a_move",
        3,
        1,
        "
        1 1 0 make 1.p.1 1.a.1 4
        2 1 2 depart 1.p.1 2 2.a.1 1
        2 3 1 post 1:1:0 port 1.p.1 plain =x
        3 2 0 arrive 1.p.1 1
        3 3 1 try 1:1:0 1.p.1 1 0
        4 1 0 stale 1:1:0 1.p.1 0 2 1
        4 2 3 delete 1.p.1
        5 3 0 told 1:1:0 stale 2 1
        6 3 0 try 1:1:0 1.p.1 2 1
        ! 12: 7 2 0 no-port 1:1:0 1.p.1
        7 2 0 gone 1:1:0 1.p.1
        8 3 0 told 1:1:0 gone
        ",
    ),
];

/// What follows the requests of 64 clients.
const BEHIND_64_CLIENTS: &str = "
    130 1 64 post 64:2:0 port 1.p.1 request 1 1.p.1 =q
    131 1 64 already 64:2:0 1.p.1
    132 1 65 post 65:1:0 port 1.p.1 request 1 1.p.1 =q
    133 1 65 clients-full 65:1:0 1.p.1
    134 1 1 cancel 1
    135 1 1 post 1:2:0 port 1.p.1 request 2 1.p.1 =q
    136 1 1 full 1:2:0 1.p.1 64
";

/// The worked journal's lines of the first request of client `at + 1`, which the port accepts at position `at`.
fn request_at(rt: &impl Abort, alloc: Global, at: u32) -> String {
    assert!(rt; at < 64);
    let client = at + 1;
    let clock = 2 * client;
    let next = clock + 1;
    format!(in alloc;
        "{clock} 1 {client} post {client}:1:0 port 1.p.1 request 1 1.p.1 =q
         {next} 1 {client} accept {client}:1:0 1.p.1 {at}"
    )
    .expect(rt, "memory")
}

/// The checker follows a port that accepts requests of 64 clients and refuses a 65th.
#[test]
fn at_most_once_table_fills(rt: HostRuntime) {
    let name = "at_most_once_table_fills";
    let make = "1 1 0 make 1.p.1 1.a.1 64";
    let mut world = replay(&rt, rt.alloc(), name, 1, 1, make);
    for at in 0..64_u32 {
        let journal = request_at(&rt, rt.alloc(), at);
        follow(&rt, rt.alloc(), &mut world, name, journal.as_str());
    }
    follow(&rt, rt.alloc(), &mut world, name, BEHIND_64_CLIENTS);
}

/// A port is deleted while one message of two waits in it.
const DELETED: &str = "
    1 1 0 make 1.p.1 1.a.1 2
    2 1 1 post 1:1:0 port 1.p.1 plain =a
    3 1 1 accept 1:1:0 1.p.1 0
    4 1 1 post 1:2:0 port 1.p.1 plain =b
    5 1 1 accept 1:2:0 1.p.1 1
    6 1 1 take 1.p.1 0 1:1:0
    ! 39: 7 1 1 delete 1.p.1 1:1:0
    7 1 1 delete 1.p.1 1:2:0
    8 1 1 post 1:3:0 port 1.p.1 plain =c
    9 1 1 gone 1:3:0 1.p.1
    10 1 1 not-here 1.p.1
";

/// The checker follows a deletion that discards what waits, and has the port as ended.
#[test]
fn delete_discards(rt: HostRuntime) {
    let world = replay(&rt, rt.alloc(), "delete_discards", 1, 1, DELETED);
    assert!(rt; fate_of(&rt, &world, "1.p.1").spot() == Spot::Ended);
}
