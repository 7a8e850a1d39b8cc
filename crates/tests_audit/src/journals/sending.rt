//! Ports that are made, sent to and received from.

/// Worked journals of sends, with their sites and the places of each.
pub(super) const JOURNALS: &[(&str, u16, u16, &str)] = &[
    // a port that is full, is taken from, and is then empty
    (
        "full_then_taken_then_empty",
        1,
        1,
        "
        ! 1: 1 1 0 make 1.p.2 1.a.1 1
        ! 1: 1 1 0 make 1.p.1 1.a.1 0
        ! 2: 1 1 0 make-full 1.a.1
        ! 3: 1 1 0 no-actor 1.a.1
        ! 4: 1 1 0 no-site 1
        1 1 0 make 1.p.1 1.a.1 1
        ! 5: 2 1 1 post 1:2:0 port 1.p.1 plain =a
        2 1 1 post 1:1:0 port 1.p.1 plain =a
        ! 7: 3 1 1 full 1:1:0 1.p.1 0
        3 1 1 accept 1:1:0 1.p.1 0
        4 1 1 post 1:2:0 port 1.p.1 plain =b
        ! 6: 5 1 1 accept 1:2:0 1.p.1 1
        5 1 1 full 1:2:0 1.p.1 1
        ! 19: 6 1 1 take 1.p.1 1 1:2:0
        ! 22: 6 1 1 empty 1.p.1
        6 1 1 take 1.p.1 0 1:1:0
        7 1 1 empty 1.p.1
        8 1 1 empty 1.p.1
        ! 23: 9 1 1 not-here 1.a.1
        ",
    ),
    // two sites that send to one port; a try to another place and a wrong verdict are refused
    (
        "two_sites_send_to_one_port",
        2,
        1,
        "
        1 2 0 make 2.p.1 2.a.1 4
        2 1 1 post 1:1:0 port 2.p.1 plain =hi
        2 2 2 post 2:1:0 port 2.p.1 plain =yo
        ! 16: 3 1 1 try 1:1:0 2.p.1 1 0
        3 1 1 try 1:1:0 2.p.1 2 0
        3 2 2 accept 2:1:0 2.p.1 0
        4 2 0 accept 1:1:0 2.p.1 1
        ! 17: 5 1 0 told 1:1:0 no-port
        5 1 0 told 1:1:0 accepted 1
        ",
    ),
    // `no-port` is taken of ports that nobody made, and refused of others
    (
        "no_port",
        1,
        1,
        "
        1 1 0 make 1.p.1 1.a.1 2
        2 1 1 post 1:1:0 port 1.p.9 plain =x
        ! 40: 3 1 1 gone 1:1:0 1.p.9
        3 1 1 no-port 1:1:0 1.p.9
        4 1 1 post 1:2:0 port 1.p.1 plain =y
        ! 12: 5 1 1 no-port 1:2:0 1.p.1
        5 1 1 accept 1:2:0 1.p.1 0
        6 1 1 post 1:3:0 port 2.p.1 plain =z
        7 1 1 no-port 1:3:0 2.p.1
        ",
    ),
    // a send between two places of a site, and a departure
    (
        "two_turns_per_site",
        2,
        2,
        "
        1 2 0 make 1.p.2 1.a.2 4
        2 1 1 post 1:1:0 port 1.p.2 plain =x
        3 1 1 try 1:1:0 1.p.2 2 0
        4 2 0 accept 1:1:0 1.p.2 0
        5 1 0 told 1:1:0 accepted 0
        6 2 1 depart 1.p.2 4 2.a.1 1
        ",
    ),
    // a message's try is refused while another is under way to its port
    (
        "one_message_under_way_per_route",
        3,
        1,
        "
        1 1 0 make 1.p.1 1.a.1 4
        2 1 2 depart 1.p.1 2 2.a.1 1
        2 3 1 post 1:1:0 port 1.p.1 plain =x
        3 3 1 try 1:1:0 1.p.1 1 0
        4 3 1 post 1:2:0 port 1.p.1 plain =y
        4 1 0 stale 1:1:0 1.p.1 0 2 1
        ! 16: 5 3 0 try 1:2:0 1.p.1 1 0
        5 3 0 told 1:1:0 stale 2 1
        6 3 0 try 1:1:0 1.p.1 2 1
        7 2 0 arrive 1.p.1 1
        8 2 0 accept 1:1:0 1.p.1 0
        9 3 0 told 1:1:0 accepted 0
        10 3 0 try 1:2:0 1.p.1 2 1
        11 2 0 accept 1:2:0 1.p.1 1
        12 3 0 told 1:2:0 accepted 1
        ",
    ),
    // one of four places makes eight ports, its share, and no ninth
    (
        "a_place_makes_its_share_of_the_ports",
        1,
        4,
        "
        ! 2: 1 1 1 make-full 1.a.1
        1 1 1 make 1.p.1 1.a.1 1
        ! 2: 2 1 1 make-full 1.a.1
        2 1 1 make 1.p.5 1.a.1 1
        ! 2: 3 1 1 make-full 1.a.1
        3 1 1 make 1.p.9 1.a.1 1
        ! 2: 4 1 1 make-full 1.a.1
        4 1 1 make 1.p.13 1.a.1 1
        ! 2: 5 1 1 make-full 1.a.1
        5 1 1 make 1.p.17 1.a.1 1
        ! 2: 6 1 1 make-full 1.a.1
        6 1 1 make 1.p.21 1.a.1 1
        ! 2: 7 1 1 make-full 1.a.1
        7 1 1 make 1.p.25 1.a.1 1
        ! 2: 8 1 1 make-full 1.a.1
        8 1 1 make 1.p.29 1.a.1 1
        ! 1: 9 1 1 make 1.p.33 1.a.1 1
        9 1 1 make-full 1.a.1
        1 2 1 make 1.p.2 1.a.2 1
        10 1 1 no-actor 1.a.9
        ",
    ),
];
