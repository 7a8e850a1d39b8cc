//! How the program ends where a write fails, byte by byte, one fault a run, and what it wrote: the front of the whole output that comes
//! before.

use crate::crews::FEW;
use crate::ground::{Run, assert_same, run_over};
use chorus_show::Status;
use std::alloc::Global;
use std::process::Abort;
use std::sync::Wait;
use std::thread::Threads;

/// What a load of 100 commands from 7 writes, worked out by another program.
const LOADED: &str =
    "summary\nposted 69\naccepted 69\ntaken 3\nqueued 66\nmoving 0\nrefused 0\nstale 5\ndeparts 1\nend\n";

/// What the program does for these words, which read nothing, where it writes byte by byte and the write of this number fails.
fn run_with_fault(
    rt: &(impl Abort + Threads + Wait + Sync),
    alloc: Global,
    words: &[&str],
    write: u64,
) -> Run {
    run_over(rt, alloc, words, "", 1, &[write])
}

/// Asserts that a run with a fault ended with this status and a front of the whole output, of so many bytes.
fn assert_ended(rt: &impl Abort, run: &Run, status: Status, whole: &str, count: u64) {
    let written = run.written.as_bytes();
    assert_same(rt, run.status, status, count);
    assert_same(rt, written.len() as u64, count, "bytes");
    assert!(rt;
        whole.as_bytes().starts_with(written),
        "another text of {count} bytes"
    );
}

/// Asserts that the program writes the whole for the words, and where a write fails, all before it.
fn assert_each_write_fails(
    rt: &(impl Abort + Threads + Wait + Sync),
    alloc: Global,
    words: &[&str],
    whole: &str,
) {
    let count = whole.len() as u64;
    for written in 0..count {
        let run = run_with_fault(rt, alloc, words, written + 1);
        assert_ended(rt, &run, Status::WriteFault, whole, written);
    }
    let run = run_with_fault(rt, alloc, words, count.saturating_add(1));
    assert_ended(rt, &run, Status::Done, whole, count);
}

/// The program's words `load` and `crew` end at the write that fails, behind what they wrote.
#[test]
fn each_write_of_a_load_and_a_crew_fails(rt: HostRuntime) {
    for (words, whole) in [(["load", "7", "100"], LOADED), (["crew", "42", "100"], FEW)] {
        assert_each_write_fails(&rt, rt.alloc(), &words, whole);
    }
}
