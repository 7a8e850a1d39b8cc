//! How sources and sinks end an audit: each read and each write fails in turn, and a text is longer than the limit.

use crate::ground::{Run, sink_of, source_of};
use chorus_audit::audit;
use chorus_io::{Failed, Sink, Source};
use chorus_show::Status;
use chorus_ui::Layout;
use std::alloc::Global;
use std::process::Abort;

/// A journal with one entry, and its summary.
const MADE: &str = "\
journal 1
1 1 0 make 1.p.1 1.a.1 1
summary
posted 0
accepted 0
taken 0
queued 0
moving 0
refused 0
stale 0
departs 0
end
";

/// What an audit writes for it.
const LEGAL: &str = "legal 1\n";

/// Calls `audit` for eight sites of one place over this source and sink, and gives its status.
fn audit_on<S: Source, K: Sink>(
    rt: &impl Abort,
    alloc: Global,
    source: &mut S,
    sink: &mut K,
) -> Status {
    let layout = Layout::new(8, 1).expect(rt, "a layout");
    audit(alloc, layout, source, sink)
}

/// Audits the journal, where this read and this write of one byte fail. None is numbered 0.
fn run_on(rt: &impl Abort, alloc: Global, read: u64, write: u64) -> Run {
    let mut source = source_of(rt, alloc, MADE, read);
    let mut sink = sink_of(rt, alloc, 1, write);
    let status = audit_on(rt, alloc, &mut source, &mut sink);
    Run::of(rt, alloc, status, &sink)
}

/// Asserts an audit's status and all that it wrote, and tells by `name` which source or sink it had.
fn assert_ended(rt: &impl Abort, run: &Run, status: Status, written: &[u8], name: &str) {
    assert_eq!(rt; run.status, status, "{name}");
    assert!(rt; run.written.as_str().as_bytes() == written, "{name}");
}

/// An audit ends by the read that fails, and writes nothing then. The first read gives the journal, the second finds its end.
#[test]
fn each_read_fails(rt: HostRuntime) {
    for (read, status, written) in [
        (1, Status::ReadFault, ""),
        (2, Status::ReadFault, ""),
        (3, Status::Done, LEGAL),
    ] {
        let run = run_on(&rt, rt.alloc(), read, 0);
        let name = "a source that fails";
        assert_ended(&rt, &run, status, written.as_bytes(), name);
    }
}

/// An audit ends by the write that fails, behind what it wrote.
#[test]
fn each_write_fails(rt: HostRuntime) {
    let whole = LEGAL.as_bytes();
    for written in 0..whole.len() {
        let run = run_on(&rt, rt.alloc(), 0, written as u64 + 1);
        let name = "a sink that fails";
        assert_ended(&rt, &run, Status::WriteFault, &whole[..written], name);
    }
    let run = run_on(&rt, rt.alloc(), 0, whole.len() as u64 + 1);
    assert_ended(&rt, &run, Status::Done, whole, "a sink that fails later");
}

/// A source with no end.
#[derive(Drop)]
struct Endless;

impl Source for Endless {
    ghost faults = { λ _. 0 };

    fn read(&mut self, buf: &mut [u8]) -> Result<usize, Failed> {
        Ok(buf.len())
    }

    fn faults(&self) -> u64 {
        0
    }
}

/// An audit refuses a text without end as line 0 and reason 6, and writes nothing.
#[test]
fn a_longer_text_is_refused(rt: HostRuntime) {
    let mut sink = sink_of(&rt, rt.alloc(), 64, 0);
    let status = audit_on(&rt, rt.alloc(), &mut Endless, &mut sink);
    let run = Run::of(&rt, rt.alloc(), status, &sink);
    let refused = Status::Scenario { line: 0, reason: 6 };
    assert_ended(&rt, &run, refused, b"", "a text without end");
}
