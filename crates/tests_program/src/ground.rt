//! Runs of the program over memory, of which plain values are kept. What is not as it is to be ends the test.
//!
//! The contract of `start_program` is long, so it is called in one function, which is generic in its source and sink.

use chorus_io::{MemSink, MemSource, Sink, Source};
use chorus_program::{Verdict, start_program};
use chorus_show::Status;
use std::alloc::Global;
use std::fmt::Debug;
use std::process::Abort;
use std::sync::Wait;
use std::thread::Threads;

/// How the program ended, what was found, and what it wrote.
#[derive(Drop)]
pub(crate) struct Run {
    pub(crate) status: Status,
    pub(crate) verdict: Option<Verdict>,
    pub(crate) written: String,
}

/// Starts the program with these words over this source and sink, and gives how it ends.
fn end_of<R: Abort + Threads + Wait + Sync, S: Source, K: Sink>(
    rt: &R,
    alloc: Global,
    words: &[&str],
    source: &mut S,
    sink: &mut K,
) -> (Status, Option<Verdict>) {
    let end = start_program(alloc, rt, words, source, sink);
    (end.finished.status, end.verdict)
}

/// A source of the text for a test of the program, of which no read fails.
pub(crate) fn source_of(rt: &impl Abort, alloc: Global, text: &str) -> MemSource {
    let bytes = Vec::from_slice(alloc, text.as_bytes()).expect(rt, "memory");
    MemSource::new(bytes, Vec::new(alloc))
}

/// An empty sink for a test of the program, which takes so many bytes at a write. `failing` lists the writes that fail.
pub(crate) fn sink_of(rt: &impl Abort, alloc: Global, most: usize, failing: &[u64]) -> MemSink {
    assert!(rt; most > 0);
    let failing = Vec::from_slice(alloc, failing).expect(rt, "memory");
    MemSink::new(alloc, most, failing)
}

/// What the sink holds of the program's output.
pub(crate) fn text_in(rt: &impl Abort, alloc: Global, sink: &MemSink) -> String {
    let bytes = Vec::from_slice(alloc, sink.bytes()).expect(rt, "memory");
    String::from_utf8(bytes).ok().expect(rt, "a text")
}

/// Asserts that what a test of the program is told of this is what is wanted.
pub(crate) fn assert_same<T: PartialEq + Debug + Copy, W: Debug + Copy>(
    rt: &impl Abort,
    told: T,
    wanted: T,
    of: W,
) {
    assert_eq!(rt; told, wanted, "{of:?}");
}

/// What the program does for these words and this input, over a sink that takes so many bytes at a write and fails at these writes.
pub(crate) fn run_over(
    rt: &(impl Abort + Threads + Wait + Sync),
    alloc: Global,
    words: &[&str],
    input: &str,
    most: usize,
    failing: &[u64],
) -> Run {
    let mut source = source_of(rt, alloc, input);
    let mut sink = sink_of(rt, alloc, most, failing);
    let (status, verdict) = end_of(rt, alloc, words, &mut source, &mut sink);
    Run {
        status,
        verdict,
        written: text_in(rt, alloc, &sink),
    }
}

/// What the program does for these words and this input.
pub(crate) fn run_on(
    rt: &(impl Abort + Threads + Wait + Sync),
    alloc: Global,
    words: &[&str],
    input: &str,
) -> Run {
    run_over(rt, alloc, words, input, 64, &[])
}

/// Asserts that for these words and this input the program does all, and writes this.
pub(crate) fn assert_prints(
    rt: &(impl Abort + Threads + Wait + Sync),
    alloc: Global,
    words: &[&str],
    input: &str,
    printed: &str,
) {
    let run = run_on(rt, alloc, words, input);
    assert_same(rt, run.status, Status::Done, words);
    assert_same(rt, run.written.as_str(), printed, words);
}
