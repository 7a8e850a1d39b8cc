//! How many schedules there are, how many events they take when those that come alike are put together, and how many single facts and
//! outcomes there are. The numbers are those of `scripts/explorer/levels.py`, which was written apart from this code.

use crate::exploring::{MANY, told};
use crate::running::assert_same;
use std::alloc::Global;
use std::process::Abort;

/// A race's scenario, with what another program counts of it.
#[derive(Clone, Copy)]
struct Race {
    /// The text of the scenario.
    text: &'static str,
    /// The line of how many histories there are.
    histories: &'static str,
    /// How many events are carried out at least: so many where all positions are put together that are the same but for clocks. Of those
    /// that the program tells apart it goes on from each, so it may take a quarter more.
    least: u64,
    /// The lines that all was gone over, and how many facts there are; in two rows the line of the events too, which are the least there.
    facts: &'static str,
    /// The line of how many outcomes there are.
    outcomes: &'static str,
}

const RACES: [Race; 11] = [
    // three scripts on one site: each order is another journal
    Race {
        text: "chorus 2\nsites 1\nport 1.p.1 1.a.1 2\nscript 1.a.1\nsend 1.p.2 =a\nnewport 1.a.2 1\ntake 1.p.1\ntake 1.p.1\nscript 1.a.2\ntake 1.p.2\nsend 1.p.1 =b\nscript 1.a.2\nsend 1.p.2 =c\ntake 1.p.2\ntake 1.p.1\nschedule\nend\n",
        histories: "histories 1260\n",
        least: 415,
        facts: "\nall\nfacts 22\n",
        outcomes: "\noutcomes 21\n",
    },
    // a port moves between two sends
    Race {
        text: "chorus 1\nsites 2\nport 1.p.1 1.a.1 2\nscript 1.a.1\nsend 1.p.1 =a\nmove 1.p.1 2.a.1\nsend 1.p.1 =b\nscript 2.a.1\ntake 1.p.1\ntake 1.p.1\nschedule\nend\n",
        histories: "histories 56\n",
        least: 54,
        facts: "\nevents 54\nall\nfacts 14\n",
        outcomes: "\noutcomes 4\n",
    },
    // a port moves and is deleted
    Race {
        text: "chorus 2\nsites 3\nport 1.p.1 1.a.1 4\nscript 3.a.1\nsend 1.p.1 =x\nscript 1.a.1\nmove 1.p.1 2.a.1\nscript 2.a.1\ndelete 1.p.1\nschedule\nend\n",
        histories: "histories 106\n",
        least: 86,
        facts: "\nevents 86\nall\nfacts 11\n",
        outcomes: "\noutcomes 7\n",
    },
    // a message overtakes the port
    Race {
        text: "chorus 1\nsites 3\nport 1.p.1 1.a.1 4\nscript 3.a.1\nsend 1.p.1 =x\nsend 1.p.1 =x\nscript 1.a.1\nmove 1.p.1 2.a.1\nschedule\nend\n",
        histories: "histories 148\n",
        least: 100,
        facts: "\nall\nfacts 13\n",
        outcomes: "\noutcomes 6\n",
    },
    // a call that is sent again, while its port moves
    Race {
        text: "chorus 1\nsites 3\nport 1.p.1 1.a.1 4\nport 2.p.1 2.a.1 4\nscript 2.a.1\ncall 1.p.1 2.p.1 =q\nretry\ncancel\ncall 1.p.1 2.p.1 =r\ntake 2.p.1\nscript 1.a.1\nmove 1.p.1 3.a.1\nscript 3.a.1\ntake 1.p.1\nreply =ans\nschedule\nend\n",
        histories: "histories 5048746\n",
        least: 3250,
        facts: "\nall\nfacts 33\n",
        outcomes: "\noutcomes 32\n",
    },
    // two senders and a full port
    Race {
        text: "chorus 1\nsites 2\nport 1.p.1 1.a.1 1\nscript 1.a.1\nsend 1.p.1 =a\ntake 1.p.1\nscript 2.a.1\nsend 1.p.1 =a\nsend 1.p.1 =a\nschedule\nend\n",
        histories: "histories 84\n",
        least: 74,
        facts: "\nall\nfacts 14\n",
        outcomes: "\noutcomes 5\n",
    },
    // sends race a move, and the next holder receives
    Race {
        text: "chorus 2\nsites 3\nport 1.p.1 1.a.1 4\nscript 3.a.1\nsend 1.p.1 =a\nsend 1.p.1 =a\nscript 1.a.1\nsend 1.p.1 =a\nmove 1.p.1 2.a.1\nscript 2.a.1\ntake 1.p.1\ntake 1.p.1\nschedule\nend\n",
        histories: "histories 29265\n",
        least: 903,
        facts: "\nall\nfacts 31\n",
        outcomes: "\noutcomes 32\n",
    },
    // a call is sent again and cancelled, while it is replied to
    Race {
        text: "chorus 2\nsites 2\nport 1.p.1 1.a.1 4\nport 2.p.1 2.a.1 4\nscript 1.a.1\ncall 2.p.1 1.p.1 =q\nretry\ntake 1.p.1\ncancel\nscript 2.a.1\ntake 2.p.1\nreply =r\ntake 2.p.1\nreply =s\nschedule\nend\n",
        histories: "histories 88165\n",
        least: 724,
        facts: "\nall\nfacts 21\n",
        outcomes: "\noutcomes 5\n",
    },
    // a post to all members, while one leaves
    Race {
        text: "chorus 2\nsites 2\nport 1.p.1 1.a.1 4\nport 2.p.1 2.a.1 4\ngroup 1.g.1\nmember 1.g.1 1.p.1\nmember 1.g.1 2.p.1\nscript 1.a.1\nall 1.g.1 =a\nleave 1.g.1 2.p.1\ntake 1.p.1\nscript 2.a.1\ntake 2.p.1\nall 1.g.1 =b\ntake 2.p.1\nschedule\nend\n",
        histories: "histories 12525\n",
        least: 674,
        facts: "\nall\nfacts 23\n",
        outcomes: "\noutcomes 9\n",
    },
    // a port moves twice and is deleted, while three callers send
    Race {
        text: "chorus 2\nsites 3\nport 1.p.1 1.a.1 4\nscript 1.a.1\nmove 1.p.1 2.a.1\nsend 1.p.1 =a\nscript 2.a.1\nmove 1.p.1 3.a.1\nscript 3.a.1\nsend 1.p.1 =b\ndelete 1.p.1\nscript 3.a.1\nsend 1.p.1 =c\nschedule\nend\n",
        histories: "histories 13171427\n",
        least: 11443,
        facts: "\nall\nfacts 62\n",
        outcomes: "\noutcomes 221\n",
    },
    // groups on three sites: to all, to one in turn, and to one at a site
    Race {
        text: "chorus 1\nsites 3\nport 1.p.1 1.a.1 2\nport 2.p.1 2.a.1 2\nport 3.p.1 3.a.1 2\ngroup 1.g.1\nmember 1.g.1 1.p.1\nmember 1.g.1 2.p.1\nmember 1.g.1 3.p.1\nscript 2.a.1\nall 1.g.1 =news\none 1.g.1 =job1\none 1.g.1 =job2\nat 1.g.1 3 =here\nscript 3.a.1\ntake 3.p.1\ntake 3.p.1\nschedule\nend\n",
        histories: "histories 159112724274\n",
        least: 16715,
        facts: "\nall\nfacts 24\n",
        outcomes: "\noutcomes 4\n",
    },
];

/// How many events an exploration says that it carried out.
fn events_in(rt: &impl Abort, told: &str) -> u64 {
    let line = told.lines().nth(1).expect(rt, "a second line");
    let number = line.strip_prefix("events ").expect(rt, "the events");
    number.parse().ok().expect(rt, "a number")
}

/// An exploration tells of each race as many histories, facts and outcomes as another program counts.
#[test]
fn races_have_so_many_histories_and_outcomes(rt: HostRuntime) {
    let alloc = rt.alloc();
    for race in RACES {
        let text = told(&rt, alloc, MANY, race.text);
        assert_same(
            &rt,
            text.as_str().starts_with(race.histories),
            true,
            race.text,
        );
        assert_same(&rt, text.as_str().contains(race.facts), true, race.text);
        assert_same(&rt, text.as_str().contains(race.outcomes), true, race.text);
        let events = events_in(&rt, text.as_str());
        assert_same(&rt, race.least <= events, true, race.text);
        let most = race.least.saturating_add(race.least / 4);
        assert_same(&rt, events <= most, true, race.text);
    }
}

/// What an exploration tells of two scripts of so many commands, each of which answers that there is no call.
fn told_of_two(rt: &impl Abort, alloc: Global, commands: u64) -> String {
    let mut text = String::new(alloc);
    text.push_str("chorus 2\nsites 1\n").expect(rt, "memory");
    for _script in 0..2 {
        text.push_str("script 1.a.1\n").expect(rt, "memory");
        for _command in 0..commands {
            text.push_str("retry\n").expect(rt, "memory");
        }
    }
    text.push_str("schedule\nend\n").expect(rt, "memory");
    told(rt, alloc, MANY, text.as_str())
}

/// Of 33 commands each there are 66! / (33! * 33!) schedules, and of 34 more than 2^64.
#[test]
fn more_histories_than_can_be_told(rt: HostRuntime) {
    let alloc = rt.alloc();
    for (commands, front, histories) in [
        (
            33,
            "histories 7219428434016265740\nevents 2244\nall\nfacts 66\n",
            "\n\noutcome 1\nhistories 7219428434016265740\n",
        ),
        (
            34,
            "histories 18446744073709551615\nevents 2380\nall\nfacts 68\n",
            "\n\noutcome 1\nhistories 18446744073709551615\n",
        ),
    ] {
        let text = told_of_two(&rt, alloc, commands);
        assert_same(&rt, text.as_str().starts_with(front), true, front);
        assert_same(&rt, text.as_str().contains(histories), true, histories);
    }
}
