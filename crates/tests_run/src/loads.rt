//! What loads write.

use crate::running::{Run, assert_done, assert_ended, assert_same, run_of, sink_of};
use chorus_io::Sink;
use chorus_net::Sites;
use chorus_replay::{LOAD_LIMIT, LOAD_SITES, load};
use chorus_show::Status;
use chorus_ui::Layout;
use std::alloc::Global;
use std::process::Abort;

const POSTS_NOTHING: &str =
    "summary\nposted 0\naccepted 0\ntaken 0\nqueued 0\nmoving 0\nrefused 0\nstale 0\ndeparts 0\nend\n";

const POSTS_ONE: &str =
    "summary\nposted 1\naccepted 1\ntaken 0\nqueued 1\nmoving 0\nrefused 0\nstale 0\ndeparts 0\nend\n";

/// The load of 14 commands from 15768 on, worked out by hand from the draws: a is `(r / 512) mod 8 + 1`, b is `(r /
/// 4096) mod 8 + 1`, and a delivery that finds no packet does nothing. A Try, and each packet that comes back, waits
/// for a delivery or for the drain.
///
/// | i | r mod 8 | p | q | a | b | seat and command | what it does, and what is delivered |
/// |---|---|---|---|---|---|---|---|
/// | 1 | 2 | 3 | 4 | 1 | 3 | 1 sends to `3.p.1` | 1:1 is tried at 3, delivered from 1 to 3, and accepted |
/// | 2 | 0 | 3 | 2 | 3 | 2 | 2 sends to `3.p.1` | 2:1 is tried at 3; nothing waits from 3 to 2 |
/// | 3 | 2 | 8 | 5 | 4 | 4 | 3 sends to `8.p.1` | 3:1 is tried at 8; a and b do not differ |
/// | 4 | 6 | 7 | 8 | 3 | 3 | 4 sends to one of the group | place 4 asks place 1 |
/// | 5 | 0 | 2 | 3 | 4 | 2 | 5 sends to `2.p.1` | 5:1 is tried at 2; nothing waits from 4 to 2 |
/// | 6 | 2 | 7 | 8 | 3 | 1 | 6 sends to `7.p.1` | 6:1 is tried at 7; from 3 to 1 the verdict on 1:1 |
/// | 7 | 6 | 5 | 5 | 7 | 4 | 7 sends to one of the group | place 7 asks place 1; nothing waits from 7 to 4 |
/// | 8 | 7 | 8 | 1 | 5 | 7 | 8 moves `8.p.1` to `1.a.1` | it holds the port, which departs by hop 1; nothing waits from 5 to 7 |
/// | 9 | 7 | 8 | 8 | 6 | 4 | 1 moves `8.p.1` to `8.a.1` | not here: the port has not come; nothing waits from 6 to 4 |
/// | 10 | 2 | 4 | 6 | 2 | 3 | 2 sends to `4.p.1` | 2:2 is tried at 4; from 2 to 3 goes 2:1, and is accepted |
/// | 11 | 4 | 3 | 6 | 3 | 8 | 3 takes of `3.p.1` | it receives 1:1; from 3 to 8 goes 3:1, which is stale: the port went to 1 |
/// | 12 | 2 | 5 | 8 | 8 | 3 | 4 sends to `5.p.1` | 4:2 is tried at 5; from 8 to 3 the stale verdict: 3:1 is tried at 1, by hop 1 |
/// | 13 | 7 | 6 | 8 | 4 | 8 | 5 moves `6.p.1` to `8.a.1` | not here: `6.a.1` holds it; nothing waits from 4 to 8 |
/// | 14 | 5 | 3 | 2 | 5 | 1 | 6 takes of `3.p.1` | not here: `3.a.1` holds it; nothing waits from 5 to 1 |
///
/// The drain goes from place 1 on. In its first round 3:1 comes from 3 to 1 before the port comes from 8 to 1: it is
/// early, and refused. The others are accepted: 2:2, 4:2, 5:1, 6:1, and of the two posts to the group 4:1 by its first
/// member `1.p.1` and 7:1 by `2.p.1`. Nine were posted; eight were accepted, of which one was taken.
const POSTS_NINE: &str =
    "summary\nposted 9\naccepted 8\ntaken 1\nqueued 7\nmoving 0\nrefused 1\nstale 1\ndeparts 1\nend\n";

/// The load of 2,000 commands from 7 on, by an independent simulator: all eight ports are full at the end, with 64
/// messages each.
const FILLS_ALL_PORTS: &str =
    "summary\nposted 1276\naccepted 555\ntaken 43\nqueued 512\nmoving 0\nrefused 721\nstale 140\ndeparts 20\nend\n";

/// Performs a load on sites that are started for it. Gives how that ended, and whether it handed out what it closed.
fn load_on<K: Sink>(
    rt: &impl Abort,
    alloc: Global,
    first: u64,
    commands: u32,
    sink: &mut K,
) -> (Status, bool) {
    assert!(rt; commands <= LOAD_LIMIT);
    let Some(layout) = Layout::new(LOAD_SITES, 1) else {
        panic!(rt; "a layout")
    };
    let Ok(sites) = Sites::start(alloc, layout) else {
        panic!(rt; "memory")
    };
    let finished = load(alloc, first, commands, sink, sites);
    (finished.status, finished.closed.is_some())
}

/// Performs a load, with writes that fail as listed.
fn loaded(rt: &impl Abort, alloc: Global, first: u64, commands: u32, writes: &[u64]) -> Run {
    let mut sink = sink_of(rt, alloc, 4096, writes);
    let (status, closed) = load_on(rt, alloc, first, commands, &mut sink);
    run_of(rt, alloc, status, closed, &sink)
}

/// Loads, each with its name, its first number and how many commands are drawn, and the summary that it writes.
const LOADS: [(&str, u64, u32, &str); 4] = [
    ("of nothing", 7, 0, POSTS_NOTHING),
    ("of one command", 7, 1, POSTS_ONE),
    ("worked out by hand", 15_768, 14, POSTS_NINE),
    ("load_fills_its_ports", 7, 2_000, FILLS_ALL_PORTS),
];

/// A load writes its summary alone, and ends where its write fails.
#[test]
fn load_writes_its_summary(rt: HostRuntime) {
    let alloc = rt.alloc();
    for (name, first, commands, summary) in LOADS {
        let run = loaded(&rt, alloc, first, commands, &[]);
        assert_done(&rt, &run, summary, name);
    }
    let run = loaded(&rt, alloc, 7, 1, &[1]);
    assert_ended(&rt, &run, Status::WriteFault, "", "a sink that fails");
    assert_same(&rt, run.closed, true, "a sink that fails");
}

/// The number behind the word, with its blank, in the summary of a load.
fn number(rt: &impl Abort, summary: &str, word: &str) -> u64 {
    for line in summary.lines() {
        if let Some(text) = line.strip_prefix(word) {
            return text.parse().ok().expect(rt, "a number");
        }
    }
    panic!(rt; "no line {word}")
}

/// Asserts of a load's summary that what was accepted or refused was posted, that what was accepted waits or was taken,
/// and that nothing moves.
fn assert_adds_up(rt: &impl Abort, summary: &str) {
    let accepted = number(rt, summary, "accepted ");
    let settled = accepted.saturating_add(number(rt, summary, "refused "));
    assert_same(rt, number(rt, summary, "posted "), settled, "posted");
    let received = number(rt, summary, "queued ").saturating_add(number(rt, summary, "taken "));
    assert_same(rt, accepted, received, "accepted");
    assert_same(rt, number(rt, summary, "moving "), 0, "moving");
}

/// A load of 65536 commands writes the same summary twice, whose counts add up.
#[test]
fn load_is_repeatable(rt: HostRuntime) {
    let run = loaded(&rt, rt.alloc(), 1, 65_536, &[]);
    let again = loaded(&rt, rt.alloc(), 1, 65_536, &[]);
    assert_same(&rt, run.status, Status::Done, "a load");
    assert_ended(&rt, &again, Status::Done, run.written.as_str(), "again");
    assert_adds_up(&rt, run.written.as_str());
}
