//! Runs in memory, where a single read or write may fail.

use chorus_io::{MemSink, MemSource};
use chorus_show::Status;
use std::alloc::Global;
use std::process::Abort;

/// How an audit or a picture ended, and what was written.
#[derive(Drop)]
pub(crate) struct Run {
    pub(crate) status: Status,
    pub(crate) written: String,
}

impl Run {
    /// The run that ended with this status, and wrote what the sink holds.
    pub(crate) fn of(rt: &impl Abort, alloc: Global, status: Status, sink: &MemSink) -> Run {
        let bytes = Vec::from_slice(alloc, sink.bytes()).expect(rt, "memory");
        let written = String::from_utf8(bytes).ok().expect(rt, "a text");
        Run { status, written }
    }
}

/// The list, for a source or a sink, by which the call of this number alone fails; by 0 none does.
fn failing_at(rt: &impl Abort, alloc: Global, call: u64) -> Vec<u64> {
    Vec::from_slice(alloc, &[call]).expect(rt, "memory")
}

/// A source of the journal's text, of which the read of this number fails. None is numbered 0.
pub(crate) fn source_of(rt: &impl Abort, alloc: Global, text: &str, read: u64) -> MemSource {
    let bytes = Vec::from_slice(alloc, text.as_bytes()).expect(rt, "memory");
    MemSource::new(bytes, failing_at(rt, alloc, read))
}

/// A sink that takes at most `most` bytes at a write, of which the write of this number fails. None is numbered 0.
pub(crate) fn sink_of(rt: &impl Abort, alloc: Global, most: usize, write: u64) -> MemSink {
    assert!(rt; most > 0);
    MemSink::new(alloc, most, failing_at(rt, alloc, write))
}
