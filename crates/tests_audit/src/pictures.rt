//! Pictures of whole journals, and how sources and sinks end them.
//!
//! The contract of `picture` is long, so it is called in one function, which is generic in its source and sink.

use crate::drawings::{
    NO_MESSAGE, NOTHING, NOTHING_DRAWN, STALE, STALE_DRAWN, UNLAWFUL, UNLAWFUL_DRAWN,
};
use crate::ground::{Run, sink_of, source_of};
use chorus_io::{Sink, Source};
use chorus_picture::picture;
use chorus_show::Status;
use chorus_ui::Layout;
use std::alloc::Global;
use std::process::Abort;

/// Calls `picture` for sixteen sites of one place over this source and sink, and gives its status.
fn picture_on<S: Source, K: Sink>(
    rt: &impl Abort,
    alloc: Global,
    source: &mut S,
    sink: &mut K,
) -> Status {
    let layout = Layout::new(16, 1).expect(rt, "a layout");
    picture(alloc, layout, source, sink)
}

/// Draws the picture of the text, where this read and this write of at most `most` bytes fail. None is numbered 0.
fn run_on(rt: &impl Abort, alloc: Global, text: &str, read: u64, most: usize, write: u64) -> Run {
    let mut source = source_of(rt, alloc, text, read);
    let mut sink = sink_of(rt, alloc, most, write);
    let status = picture_on(rt, alloc, &mut source, &mut sink);
    Run::of(rt, alloc, status, &sink)
}

/// Asserts what stands in the picture of the journal.
fn assert_drawn(rt: &impl Abort, alloc: Global, text: &str, middle: &str) {
    let run = run_on(rt, alloc, text, 0, 4096, 0);
    assert_eq!(rt; run.status, Status::Done, "{text}");
    let drawn = run.written.as_str();
    let front = "<svg xmlns='http://www.w3.org/2000/svg' ";
    assert!(rt; drawn.starts_with(front), "{text}");
    assert!(rt; drawn.contains(middle), "{text}");
    assert!(rt; drawn.ends_with("</g>\n</svg>\n"), "{text}");
}

/// The picture of a journal is drawn, whether lawful, unlawful or without entries.
#[test]
fn journals_are_drawn(rt: HostRuntime) {
    for (text, middle) in [
        (NOTHING, NOTHING_DRAWN),
        (STALE, STALE_DRAWN),
        (UNLAWFUL, UNLAWFUL_DRAWN),
    ] {
        assert_drawn(&rt, rt.alloc(), text, middle);
    }
}

/// Asserts that the picture ended so, and that so many bytes were written.
fn assert_ended(rt: &impl Abort, run: &Run, status: Status, count: u64) {
    assert_eq!(rt; run.status, status);
    assert_eq!(rt; run.written.len() as u64, count);
}

/// A picture ends by a read or a write that fails, behind what was written.
#[test]
fn faults_end_pictures(rt: HostRuntime) {
    for (read, write, status, count) in [
        (1, 0, Status::ReadFault, 0),
        (0, 1, Status::WriteFault, 0),
        (0, 3, Status::WriteFault, 128),
    ] {
        let run = run_on(&rt, rt.alloc(), STALE, read, 64, write);
        assert_ended(&rt, &run, status, count);
    }
}

/// Draws the picture of the report of so many entries, each of which says that there is no site 17.
fn run_long(rt: &impl Abort, alloc: Global, count: u64) -> Run {
    let mut text = String::new(alloc);
    writeln!(text, "journal {count}").expect(rt, "memory");
    for clock in 1..=count {
        writeln!(text, "{clock} 1 0 no-site 17").expect(rt, "memory");
    }
    text.push_str(NO_MESSAGE).expect(rt, "memory");
    run_on(rt, alloc, text.as_str(), 0, 65_536, 0)
}

/// The picture of 2000 entries is as high as they need and has the last of them, and one of 10001 is refused.
#[test]
fn long_journals_are_drawn_or_refused(rt: HostRuntime) {
    let run = run_long(&rt, rt.alloc(), 2_000);
    assert_eq!(rt; run.status, Status::Done);
    for piece in [
        "<rect class='paper' width='812' height='38763'/>",
        "<rect class='band' y='38192' width='812' height='40'/>",
        "<use href='#denied' x='128' y='38511'/><text x='8' y='38515'>2000</text>",
    ] {
        assert!(rt; run.written.as_str().contains(piece), "{piece}");
    }
    let run = run_long(&rt, rt.alloc(), 10_001);
    assert_ended(&rt, &run, Status::Scenario { line: 0, reason: 6 }, 0);
}
