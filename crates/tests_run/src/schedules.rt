//! Each schedule that an exploration prints is replayed: as many messages are accepted, received, left waiting, refused and told `stale`
//! as its outcome tells.

use crate::exploring::{MANY, told};
use crate::running::{assert_same, replayed, sixteen};
use chorus_show::Status;
use std::alloc::Global;
use std::process::Abort;

/// Scenarios, each without what ends it: `schedule` and `end`.
const RACES: [&str; 4] = [
    "chorus 2\nsites 2\nport 1.p.1 1.a.1 1\nscript 1.a.1\nsend 1.p.1 =near\nscript 2.a.1\nsend 1.p.1 =far\n",
    "chorus 2\nsites 2\nport 1.p.1 1.a.1 1\nscript 2.a.1\nsend 1.p.1 =one\nscript 1.a.1\nmove 1.p.1 2.a.1\nscript 2.a.1\ntake 1.p.1\n",
    "chorus 1\nsites 2\nport 1.p.1 1.a.1 2\nscript 1.a.1\nsend 1.p.1 =a\nmove 1.p.1 2.a.1\nsend 1.p.1 =b\nscript 2.a.1\ntake 1.p.1\ntake 1.p.1\n",
    "chorus 1\nsites 2\nport 1.p.1 1.a.1 1\nport 2.p.1 2.a.1 1\ngroup 2.g.1\nmember 2.g.1 1.p.1\nmember 2.g.1 2.p.1\nscript 1.a.1\nall 2.g.1 =a\ntake 1.p.1\nscript 2.a.1\ntake 2.p.1\n",
];

/// Each schedule that an exploration prints is replayed to the counts of its outcome.
#[test]
fn each_schedule_replays_to_its_outcome(rt: HostRuntime) {
    let alloc = rt.alloc();
    for race in RACES {
        let scenario = format!(in alloc; "{race}schedule\nend\n").expect(&rt, "memory");
        let text = told(&rt, alloc, MANY, scenario.as_str());
        let mut schedules = text.as_str().split("\n\nschedule ");
        let outcomes = schedules.next().expect(&rt, "a text");
        for schedule in schedules {
            assert_replays(&rt, alloc, race, outcomes, schedule);
        }
    }
}

/// Asserts that the race with this schedule, behind whose number its steps stand, replays to the outcome of that number.
fn assert_replays(rt: &impl Abort, alloc: Global, race: &str, outcomes: &str, schedule: &str) {
    let (number, steps) = schedule.split_once("\n").expect(rt, "a number");
    let steps = steps.strip_suffix("\nend\n").unwrap_or(steps);
    let scenario = format!(in alloc; "{race}schedule\n{steps}\nend\n").expect(rt, "memory");
    let run = replayed(rt, alloc, sixteen(rt), scenario.as_bytes(), &[], 4096, &[]);
    assert_same(rt, run.status, Status::Done, scenario.as_str());
    let summary = summary_of(rt, alloc, outcomes, number);
    assert!(rt;
        run.written.as_str().contains(summary.as_str()),
        "{scenario}{summary}"
    );
}

/// The lines of a summary that say how many messages are accepted, received, left waiting, refused and told `stale` in the outcome of this
/// number; a port moves once at most, so each is told that once at most, and no port is under way at the end.
fn summary_of(rt: &impl Abort, alloc: Global, outcomes: &str, number: &str) -> String {
    let mut accepted: u64 = 0;
    let mut taken: u64 = 0;
    let mut queued: u64 = 0;
    let mut refused: u64 = 0;
    let mut stale: u64 = 0;
    let mut is_there = false;
    for line in outcomes.lines() {
        if let Some(found) = line.strip_prefix("outcome ") {
            is_there = found == number;
        } else if line.starts_with("always ") {
            is_there = true;
        } else if is_there {
            accepted = accepted.wrapping_add(u64::from(line.ends_with(" accepted")));
            taken = taken.wrapping_add(u64::from(
                line.starts_with("answer ") && line.contains(" take "),
            ));
            queued = queued.wrapping_add(waiting_in(line));
            refused = refused.wrapping_add(u64::from(is_refusal(line)));
            stale = stale.wrapping_add(u64::from(line.starts_with("stale ")));
        }
    }
    format!(in alloc;
        "\naccepted {accepted}\ntaken {taken}\nqueued {queued}\nmoving 0\nrefused {refused}\nstale {stale}\n"
    ).expect(rt, "memory")
}

/// Whether the line of an explored outcome is a verdict that refuses its message.
fn is_refusal(line: &str) -> bool {
    line.starts_with("verdict ") && !line.ends_with(" accepted") && !line.ends_with(" chosen")
}

/// How many messages wait in the port of an explored outcome's line, if it has one: their ids stand behind the port and its actor.
fn waiting_in(line: &str) -> u64 {
    match line.strip_prefix("port ") {
        Some(words) => words.split(" ").skip(2).count() as u64,
        None => 0,
    }
}
