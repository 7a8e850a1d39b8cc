//! How texts, sources and sinks end a run.

use crate::replays::{NOTHING, PRINTS_NOTHING, letters};
use crate::running::{assert_ended, assert_refused, assert_same, replayed, sixteen};
use chorus_show::Status;
use std::alloc::Global;
use std::process::Abort;
use tests_rows::FULL_THEN_TAKEN_THEN_EMPTY;

/// A scenario to be replayed, with a body of 241 bytes, one more than version 1 takes.
fn with_long_body(rt: &impl Abort, alloc: Global) -> String {
    let body = letters(rt, alloc, 'b', 241);
    format!(in alloc; "chorus 1\nsites 1\nscript 1.a.1\nsend 1.p.1 ={body}\nschedule\nend").expect(
        rt, "memory",
    )
}

/// A replay refuses a text for a body, a capacity or bytes beyond the limit, and the longest as unfinished, by line and reason.
#[test]
fn refused_texts(rt: HostRuntime) {
    let alloc = rt.alloc();
    let long_body = with_long_body(&rt, alloc);
    let unfinished = letters(&rt, alloc, '\n', 4_194_304);
    let too_long = letters(&rt, alloc, '\n', 4_194_305);
    let limits = "limits_are_refused_with_line_and_reason";
    for (name, text, line, reason) in [
        (limits, long_body.as_str(), 4, 6),
        (
            limits,
            "chorus 1\nsites 1\nport 1.p.1 1.a.1 0\nschedule\nend",
            3,
            6,
        ),
        (
            limits,
            "chorus 1\nsites 1\nport 1.p.1 1.a.1 65\nschedule\nend",
            3,
            6,
        ),
        ("as many bytes as may be", unfinished.as_str(), 4_194_305, 9),
        ("one byte more", too_long.as_str(), 0, 6),
    ] {
        assert_refused(&rt, alloc, name, text, line, reason);
    }
}

/// A replay whose second write fails, with five bytes a write, has written the first, and closes its sites.
#[test]
fn short_sink_fails_midway(rt: HostRuntime) {
    let text = FULL_THEN_TAKEN_THEN_EMPTY.text.as_bytes();
    let run = replayed(&rt, rt.alloc(), sixteen(&rt), text, &[], 5, &[2]);
    assert_ended(&rt, &run, Status::WriteFault, "journ", "a short sink");
    assert_same(&rt, run.closed, true, "a short sink");
}

/// Asserts how a replay ends where this read fails, and what it wrote.
fn assert_read_fails(rt: &impl Abort, alloc: Global, call: u64, status: Status, written: &str) {
    let text = FULL_THEN_TAKEN_THEN_EMPTY.text.as_bytes();
    let run = replayed(rt, alloc, sixteen(rt), text, &[call], 4096, &[]);
    assert_ended(rt, &run, status, written, "a source that fails");
}

/// Asserts how a replay ends where this write of one byte fails, and how many bytes it wrote.
fn assert_write_fails(rt: &impl Abort, alloc: Global, call: u64, status: Status, count: u64) {
    let text = NOTHING.as_bytes();
    let run = replayed(rt, alloc, sixteen(rt), text, &[], 1, &[call]);
    assert_same(rt, run.status, status, call);
    assert_same(rt, run.written.len() as u64, count, call);
    assert!(rt;
        PRINTS_NOTHING.starts_with(run.written.as_str()),
        "at {call}"
    );
}

/// Asserts that each of the 96 one-byte writes of a replay, when it fails, ends it behind those before it.
fn assert_each_write_fails(rt: &impl Abort, alloc: Global) {
    for count in 0..96_u64 {
        assert_write_fails(rt, alloc, count + 1, Status::WriteFault, count);
    }
    assert_write_fails(rt, alloc, 97, Status::Done, 96);
}

/// A replay ends by a read or a write that fails, behind what went out.
#[test]
fn faults_of_source_and_sink(rt: HostRuntime) {
    for (call, status, written) in [
        (1, Status::ReadFault, ""),
        (2, Status::ReadFault, ""),
        (1_000_000, Status::Done, FULL_THEN_TAKEN_THEN_EMPTY.printed),
    ] {
        assert_read_fails(&rt, rt.alloc(), call, status, written);
    }
    assert_each_write_fails(&rt, rt.alloc());
}
