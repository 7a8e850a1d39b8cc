//! Runs of `replay` over memory, and what is asserted of them. What is not as it is to be ends the test.
//!
//! The contract of `replay` is long, so it is called in one function, which is generic in its source and sink, and what
//! it did is kept as plain values ([`Run`]), of which nothing is known.

use chorus_io::{MemSink, MemSource, Sink, Source};
use chorus_net::Sites;
use chorus_replay::replay;
use chorus_show::Status;
use chorus_ui::Layout;
use std::alloc::Global;
use std::fmt::Debug;
use std::process::Abort;

/// How a run ended, whether it handed out what it closed, and what it wrote.
#[derive(Drop)]
pub(crate) struct Run {
    pub(crate) status: Status,
    pub(crate) closed: bool,
    pub(crate) written: String,
}

/// A source of the bytes of a scenario to be replayed or explored. `failing` lists the reads that fail.
pub(crate) fn source_of(
    rt: &impl Abort,
    alloc: Global,
    bytes: &[u8],
    failing: &[u64],
) -> MemSource {
    let bytes = Vec::from_slice(alloc, bytes).expect(rt, "memory");
    MemSource::new(bytes, Vec::from_slice(alloc, failing).expect(rt, "memory"))
}

/// A sink for a replay, a load or an exploration, of which one write takes at most `most` bytes. `failing` lists the writes that fail.
pub(crate) fn sink_of(rt: &impl Abort, alloc: Global, most: usize, failing: &[u64]) -> MemSink {
    assert!(rt; most > 0);
    MemSink::new(
        alloc,
        most,
        Vec::from_slice(alloc, failing).expect(rt, "memory"),
    )
}

/// The run of a replay, a load or an exploration that ended so and wrote what the sink holds.
pub(crate) fn run_of(
    rt: &impl Abort,
    alloc: Global,
    status: Status,
    closed: bool,
    sink: &MemSink,
) -> Run {
    let bytes = Vec::from_slice(alloc, sink.bytes()).expect(rt, "memory");
    let written = String::from_utf8(bytes).ok().expect(rt, "a text");
    Run {
        status,
        closed,
        written,
    }
}

/// Sixteen sites for a replay or an exploration, each with one place.
pub(crate) fn sixteen(rt: &impl Abort) -> Layout {
    Layout::new(16, 1).expect(rt, "a layout")
}

/// Replays what the source gives on sites of this layout. Gives how that ended, and whether it handed out what it closed.
fn replay_on<S: Source, K: Sink>(
    rt: &impl Abort,
    alloc: Global,
    layout: Layout,
    source: &mut S,
    sink: &mut K,
) -> (Status, bool) {
    let Ok(sites) = Sites::start(alloc, layout) else {
        panic!(rt; "memory")
    };
    let finished = replay(alloc, source, sink, sites);
    (finished.status, finished.closed.is_some())
}

/// Replays the text on sites of this layout, with reads and writes that fail as listed and writes of at most `most` bytes.
pub(crate) fn replayed(
    rt: &impl Abort,
    alloc: Global,
    layout: Layout,
    text: &[u8],
    reads: &[u64],
    most: usize,
    writes: &[u64],
) -> Run {
    let mut source = source_of(rt, alloc, text, reads);
    let mut sink = sink_of(rt, alloc, most, writes);
    let (status, closed) = replay_on(rt, alloc, layout, &mut source, &mut sink);
    run_of(rt, alloc, status, closed, &sink)
}

/// Asserts that what is told of this replay, load or exploration is what is wanted.
pub(crate) fn assert_same<T: PartialEq + Debug + Copy, W: Debug + Copy>(
    rt: &impl Abort,
    told: T,
    wanted: T,
    of: W,
) {
    assert_eq!(rt; told, wanted, "{of:?}");
}

/// Asserts that the replay or load of this name ended so and wrote this.
pub(crate) fn assert_ended(rt: &impl Abort, run: &Run, status: Status, written: &str, name: &str) {
    assert_same(rt, run.status, status, name);
    assert_same(rt, run.written.as_str(), written, name);
}

/// Asserts that the replay or load of this name did all, wrote this, and handed out what it closed.
pub(crate) fn assert_done(rt: &impl Abort, run: &Run, written: &str, name: &str) {
    assert_ended(rt, run, Status::Done, written, name);
    assert!(rt; run.closed, "{name}");
}

/// Asserts that the text of this name is replayed on sites of this layout and this is printed, whatever a write takes.
pub(crate) fn assert_prints(
    rt: &impl Abort,
    alloc: Global,
    layout: Layout,
    name: &str,
    text: &str,
    printed: &str,
) {
    for most in [1, 64, 4096] {
        let run = replayed(rt, alloc, layout, text.as_bytes(), &[], most, &[]);
        assert_done(rt, &run, printed, name);
    }
}

/// Asserts that the replay of the text of this name is refused with this line and reason, and nothing is written or closed.
pub(crate) fn assert_refused(
    rt: &impl Abort,
    alloc: Global,
    name: &str,
    text: &str,
    line: u32,
    reason: u8,
) {
    let run = replayed(rt, alloc, sixteen(rt), text.as_bytes(), &[], 4096, &[]);
    assert_ended(rt, &run, Status::Scenario { line, reason }, "", name);
    assert!(rt; !run.closed, "{name}");
}
