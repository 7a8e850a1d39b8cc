//! Two scripts that wait for each other: their threads run at the same time.
//!
//! The contract of `run` is long, so it is called in one function, which is generic in its source and sink.

use crate::ground::{assert_same, sink_of, source_of};
use crate::handed_in::started;
use chorus_io::{Sink, Source};
use chorus_run::{Gate, run};
use chorus_show::Status;
use std::alloc::Global;
use std::process::Abort;
use std::sync::Wait;
use std::sync::atomic::{AtomicBool, AtomicU32, Ordering};
use std::thread::{self, Threads};

/// How often a script looks whether the other has come, at most.
const LOOKS: u32 = 1_000_000_000;

/// Holds the first script until the second was about to perform its second command, and that one until the first was.
#[derive(Drop)]
struct Meeting {
    first_came: AtomicBool,
    second_came: AtomicBool,
    missed: AtomicU32,
}

impl Meeting {
    /// Yields the script's thread until the other script set this mark, and counts a miss if it never does.
    fn hold(&self, until: &AtomicBool) {
        for _ in 0..LOOKS {
            if until.load(Ordering::SeqCst) {
                return;
            }
            thread::yield_now();
        }
        self.missed.fetch_add(1, Ordering::SeqCst);
    }
}

impl Gate for Meeting {
    /// Holds each of two scripts at the gate until the other has come.
    fn pass(&self, script: u32, step: u32) {
        match (script, step) {
            (1, 0) => self.hold(&self.second_came),
            (2, 1) => {
                self.second_came.store(true, Ordering::SeqCst);
                self.hold(&self.first_came);
            }
            (1, 1) => self.first_came.store(true, Ordering::SeqCst),
            _ => {}
        }
    }
}

const TWO_SENDERS: &str = "\
chorus 1
sites 2
port 1.p.1 1.a.1 4
port 2.p.1 2.a.1 4
script 1.a.1
send 2.p.1 =a
send 2.p.1 =b
script 2.a.1
send 1.p.1 =c
send 1.p.1 =d
schedule
end
";

/// Performs what the source gives over this gate, on a nucleus of 16 sites with one place each. Gives how that ended, and whether
/// it handed out what it closed.
fn run_on<R: Abort + Threads + Wait + Sync, S: Source, K: Sink, G: Gate>(
    rt: &R,
    alloc: Global,
    source: &mut S,
    sink: &mut K,
    gate: &G,
) -> (Status, bool) {
    let (nucleus, pass) = started(rt, alloc, 16, 1);
    let finished = run(alloc, rt, source, sink, nucleus, pass, gate);
    (finished.status, finished.closed.is_some())
}

/// Runs the scenario over this gate, and asserts that it ends well and closes its nucleus.
fn assert_performed<R: Abort + Threads + Wait + Sync, G: Gate>(
    rt: &R,
    alloc: Global,
    text: &str,
    gate: &G,
) {
    let mut source = source_of(rt, alloc, text);
    let mut sink = sink_of(rt, alloc, 4096, &[]);
    let (status, closed) = run_on(rt, alloc, &mut source, &mut sink, gate);
    assert_same(rt, status, Status::Done, text);
    assert!(rt; closed);
}

/// Asserts that two scripts, each held at the gate until the other comes, both come: their threads overlap.
fn assert_meets<R: Abort + Threads + Wait + Sync>(rt: &R, alloc: Global) {
    let gate = Meeting {
        first_came: AtomicBool::new(false),
        second_came: AtomicBool::new(false),
        missed: AtomicU32::new(0),
    };
    assert_performed(rt, alloc, TWO_SENDERS, &gate);
    assert_eq!(rt; gate.missed.load(Ordering::SeqCst), 0);
}

/// Two scripts that wait for each other at a gate both come.
#[test]
fn row_gate(rt: HostRuntime) {
    assert_meets(&rt, rt.alloc());
}
