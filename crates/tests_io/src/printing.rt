//! What `lossy` writes, and how sources and sinks end it. The counts are those of another program, which follows the rounds
//! over lists.
//!
//! The contract of `lossy` is long, so it is called in one function, which is generic in its source and sink.

use crate::bytes::{copied, sink_of, source_of};
use crate::carrying::bytes_of;
use chorus_io::{Sink, Source};
use chorus_lossy::{INPUT_LIMIT, WINDOW, lossy};
use chorus_show::Status;
use chorus_transport::{Receiver, Sender};
use std::alloc::Global;
use std::process::Abort;

/// What `lossy` writes for `hello`.
const HELLO: &str = "hello\nwire 1 0\n";

/// How `lossy` ended, and what it wrote.
#[derive(Drop)]
struct Run {
    status: Status,
    written: Vec<u8>,
}

/// Calls `lossy` once, from the draw 7 on, over this source and sink with fresh windows, and gives its status.
fn lossy_on<S: Source, K: Sink>(
    rt: &impl Abort,
    alloc: Global,
    source: &mut S,
    sink: &mut K,
) -> Status {
    let Some(mut sender) = Sender::new(alloc, WINDOW) else {
        panic!(rt; "a window")
    };
    let Some(mut receiver) = Receiver::new(alloc, WINDOW) else {
        panic!(rt; "a window")
    };
    lossy(alloc, 7, source, sink, &mut sender, &mut receiver)
}

/// Runs `lossy` from 7 on, with reads and writes that fail as listed and writes of at most `most` bytes.
fn run_on(
    rt: &impl Abort,
    alloc: Global,
    bytes: &[u8],
    reads: &[u64],
    most: usize,
    writes: &[u64],
) -> Run {
    let mut source = source_of(rt, alloc, bytes, reads);
    let mut sink = sink_of(rt, alloc, most, writes);
    let status = lossy_on(rt, alloc, &mut source, &mut sink);
    Run {
        status,
        written: copied(rt, alloc, sink.bytes()),
    }
}

/// Asserts that the run of `lossy` with this name ended so and wrote this.
fn assert_ended(rt: &impl Abort, run: &Run, status: Status, written: &str, name: &str) {
    assert_eq!(rt; run.status, status, "{name}");
    assert!(rt; run.written.as_slice() == written.as_bytes(), "{name}");
}

/// Asserts what `lossy` writes for the text, whatever a write takes.
fn assert_writes(rt: &impl Abort, alloc: Global, text: &str, written: &str) {
    for most in [1, 4, 64] {
        let run = run_on(rt, alloc, text.as_bytes(), &[], most, &[]);
        assert_ended(rt, &run, Status::Done, written, text);
    }
}

/// `lossy` writes its input and the line `wire`, whatever a write takes.
#[test]
fn lossy_writes_hello(rt: HostRuntime) {
    assert_writes(&rt, rt.alloc(), "hello", HELLO);
    assert_writes(&rt, rt.alloc(), "", "\nwire 0 0\n");
}

/// Asserts how `lossy` ends where this read fails, and what it wrote.
fn assert_read_fails(rt: &impl Abort, alloc: Global, read: u64, status: Status, written: &str) {
    let run = run_on(rt, alloc, b"hello", &[read], 64, &[]);
    assert_ended(rt, &run, status, written, "a source that fails");
}

/// Asserts how `lossy` ends where this write of one byte fails, and how many bytes it wrote.
fn assert_write_fails(rt: &impl Abort, alloc: Global, write: u64, status: Status, count: u64) {
    let run = run_on(rt, alloc, b"hello", &[], 1, &[write]);
    assert_eq!(rt; run.status, status, "at {write}");
    assert_eq!(rt; run.written.len() as u64, count, "at {write}");
    assert!(rt; HELLO.as_bytes().starts_with(&run.written), "at {write}");
}

/// Asserts that each of the 15 one-byte writes of `lossy` for `hello`, when it fails, ends the run behind those before it.
fn assert_each_write_fails(rt: &impl Abort, alloc: Global) {
    for count in 0..15_u64 {
        assert_write_fails(rt, alloc, count + 1, Status::WriteFault, count);
    }
    assert_write_fails(rt, alloc, 16, Status::Done, 15);
}

/// `lossy` ends by a read or a write that fails, behind what it wrote.
#[test]
fn faults_end_it(rt: HostRuntime) {
    assert_read_fails(&rt, rt.alloc(), 1, Status::ReadFault, "");
    assert_read_fails(&rt, rt.alloc(), 2, Status::ReadFault, "");
    assert_read_fails(&rt, rt.alloc(), 3, Status::Done, HELLO);
    assert_each_write_fails(&rt, rt.alloc());
}

/// Asserts that `lossy` prints an input of the greatest length whole, and how many chunks it emitted and lost.
fn assert_longest(rt: &impl Abort, alloc: Global) {
    let bytes = bytes_of(rt, alloc, INPUT_LIMIT);
    let run = run_on(rt, alloc, &bytes, &[], 65_536, &[]);
    assert_eq!(rt; run.status, Status::Done);
    assert!(rt; run.written.starts_with(&bytes));
    assert!(rt; run.written.ends_with(b"\nwire 123001 25987\n"));
}

/// Asserts that `lossy` refuses an input one byte over its limit (line 0, reason 6) and writes nothing.
fn assert_longer(rt: &impl Abort, alloc: Global) {
    let mut bytes = bytes_of(rt, alloc, INPUT_LIMIT);
    bytes.push(b'x').expect(rt, "memory");
    let run = run_on(rt, alloc, &bytes, &[], 65_536, &[]);
    let refused = Status::Scenario { line: 0, reason: 6 };
    assert_ended(rt, &run, refused, "", "a longer input");
}

/// `lossy` writes an input of the greatest length, and refuses a longer one.
#[test]
fn inputs_up_to_the_limit(rt: HostRuntime) {
    assert_longest(&rt, rt.alloc());
    assert_longer(&rt, rt.alloc());
}
