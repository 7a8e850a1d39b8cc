//! Senders to a port that is moved while they send.

use crate::journals::{counted, printed_by_run};
use std::alloc::Global;
use std::process::Abort;
use std::sync::Wait;
use std::thread::Threads;

/// How often each sender sends.
const SENDS: u64 = 50;

/// How often each mover takes, and moves the port on.
const ROUNDS: u64 = 40;

/// Four scripts send to `1.p.1`, and three scripts, on three sites, take from it and move it to the next of the three. In version 2 the
/// first mover then deletes it.
fn movers_and_senders(rt: &impl Abort, alloc: Global, with_delete: bool) -> String {
    let (version, deletion) = if with_delete {
        (2, "delete 1.p.1\n")
    } else {
        (1, "")
    };
    let mut text = String::new(alloc);
    writeln!(text, "chorus {version}\nsites 7\nport 1.p.1 1.a.1 64").expect(rt, "memory");
    for (site, next, last) in [(1, 2, deletion), (2, 3, ""), (3, 1, "")] {
        push_mover(rt, &mut text, site, next);
        text.push_str(last).expect(rt, "memory");
    }
    for site in 4..=7 {
        push_sender(rt, &mut text, site);
    }
    text.push_str("schedule\nend\n").expect(rt, "memory");
    text
}

/// Appends the script of a mover, which takes from `1.p.1` and moves it on.
fn push_mover(rt: &impl Abort, text: &mut String, site: u64, next: u64) {
    writeln!(text, "script {site}.a.1").expect(rt, "memory");
    for _ in 0..ROUNDS {
        writeln!(text, "take 1.p.1\nmove 1.p.1 {next}.a.1").expect(rt, "memory");
    }
}

/// Appends the script of a sender to `1.p.1`, which is moved meanwhile.
fn push_sender(rt: &impl Abort, text: &mut String, site: u64) {
    writeln!(text, "script {site}.a.1").expect(rt, "memory");
    for _ in 0..SENDS {
        text.push_str("send 1.p.1 =x\n").expect(rt, "memory");
    }
}

/// Asserts that the scenario of movers and senders is performed with so many places a site, and that what is printed is lawful and
/// counts each message once.
fn assert_moves_and_sends(
    rt: &(impl Abort + Threads + Wait + Sync),
    alloc: Global,
    turns: &str,
    with_delete: bool,
) {
    let text = movers_and_senders(rt, alloc, with_delete);
    let printed = printed_by_run(rt, alloc, turns, text.as_str());
    assert_counted(rt, printed.as_str());
}

/// Asserts that each message of the senders was accepted or refused, and each one that was accepted was received, discarded or
/// waits.
fn assert_counted(rt: &impl Abort, printed: &str) {
    let accepted = counted(rt, printed, "accepted ");
    let refused = counted(rt, printed, "refused ");
    let gone = counted(rt, printed, "taken ").saturating_add(counted(rt, printed, "discarded "));
    assert_eq!(rt; counted(rt, printed, "posted "), 4 * SENDS);
    assert_eq!(rt; accepted.saturating_add(refused), 4 * SENDS);
    assert_eq!(rt;
        gone.saturating_add(counted(rt, printed, "queued ")),
        accepted
    );
}

/// The program's word `run` counts each message once while senders race a moving port.
#[test]
fn movers_and_senders_run(rt: HostRuntime) {
    for turns in ["1", "2", "4"] {
        assert_moves_and_sends(&rt, rt.alloc(), turns, false);
        assert_moves_and_sends(&rt, rt.alloc(), turns, true);
    }
}
