//! The program with a nucleus that is handed in: words that it does there, words that need none, and words for which the nucleus has
//! not the places.
//!
//! The contracts of `program` and `conclude` are long, so each is called in one function, which is generic in its source and sink.

ghost use Rattle.chorus_nucleus.specs.Passes.{IsPassOf};
ghost use Rattle.chorus_perform.specs.Scripts.{IsOpening};

use crate::audits::{LEFT_OPEN, WHAT_IS_LEFT_OPEN};
use crate::crews::FEW;
use crate::ground::{Run, assert_same, sink_of, source_of, text_in};
use crate::words::LOADS_ONE_COMMAND;
use chorus_io::{Sink, Source};
use chorus_judge::Judgement;
use chorus_nucleus::{Nucleus, Pass};
use chorus_program::{Verdict, conclude, program};
use chorus_run::OpenGate;
use chorus_show::Status;
use chorus_ui::Layout;
use std::alloc::Global;
use std::process::Abort;
use std::sync::Wait;
use std::thread::Threads;
use tests_rows::FULL_THEN_TAKEN_THEN_EMPTY;

/// A nucleus of so many sites, of so many places each, which was just started for a test of the program, and its opening pass.
pub(crate) fn started<R: Abort + Threads + Wait + Sync>(
    rt: &R,
    alloc: Global,
    sites: u16,
    turns: u16,
) -> (Nucleus, Pass)
    ensures pass { IsPassOf result.0 result.1 }
    ensures opening { IsOpening result.1 }
{
    let layout = Layout::new(sites, turns).expect(rt, "a layout");
    let Ok((nucleus, pass)) = Nucleus::start(alloc, rt, layout) else {
        panic!(rt; "memory")
    };
    (nucleus, pass)
}

/// Hands such a nucleus to the program, with these words over this source and sink, and gives the status with which it ends.
fn status_with<R: Abort + Threads + Wait + Sync, S: Source, K: Sink>(
    rt: &R,
    alloc: Global,
    places: (u16, u16),
    words: &[&str],
    source: &mut S,
    sink: &mut K,
) -> Status {
    let (nucleus, pass) = started(rt, alloc, places.0, places.1);
    program(alloc, rt, words, source, sink, nucleus, pass, &OpenGate).status
}

/// The same, and what was found.
fn end_with<R: Abort + Threads + Wait + Sync, S: Source, K: Sink>(
    rt: &R,
    alloc: Global,
    places: (u16, u16),
    words: &[&str],
    source: &mut S,
    sink: &mut K,
) -> (Status, Option<Verdict>) {
    let (nucleus, pass) = started(rt, alloc, places.0, places.1);
    let end = conclude(alloc, rt, words, source, sink, nucleus, pass, &OpenGate);
    (end.finished.status, end.verdict)
}

/// What the program does for these words and this input with a nucleus of so many sites and places.
fn run_with(
    rt: &(impl Abort + Threads + Wait + Sync),
    alloc: Global,
    places: (u16, u16),
    words: &[&str],
    input: &str,
) -> Run {
    let mut source = source_of(rt, alloc, input);
    let mut sink = sink_of(rt, alloc, 64, &[]);
    let (status, verdict) = end_with(rt, alloc, places, words, &mut source, &mut sink);
    Run {
        status,
        verdict,
        written: text_in(rt, alloc, &sink),
    }
}

/// Asserts that the program does what it does on a nucleus of its own, or without one, on one that has the places for it.
fn assert_done(rt: &(impl Abort + Threads + Wait + Sync), alloc: Global) {
    let row = FULL_THEN_TAKEN_THEN_EMPTY;
    let each: [((u16, u16), &[&str], &str, &str); 5] = [
        ((1, 1), &["replay"], row.text, row.printed),
        ((1, 2), &["run"], row.text, row.printed),
        ((2, 4), &["run", "4"], row.text, row.printed),
        ((8, 1), &["crew", "42", "100"], "", FEW),
        ((1, 1), &["load", "7", "1"], "", LOADS_ONE_COMMAND),
    ];
    for (places, words, input, printed) in each {
        let run = run_with(rt, alloc, places, words, input);
        assert_same(rt, run.status, Status::Done, words);
        assert_same(rt, run.written.as_str(), printed, words);
    }
}

/// Asserts that words for which the nucleus has not the places, and words that the program has not, are Usage, and write nothing.
fn assert_turned_away(rt: &(impl Abort + Threads + Wait + Sync), alloc: Global) {
    let each: [((u16, u16), &[&str]); 4] = [
        ((2, 2), &["run", "1"]),
        ((2, 2), &["run", "4"]),
        ((7, 1), &["crew", "42", "100"]),
        ((1, 1), &["load", "7"]),
    ];
    for (places, words) in each {
        let run = run_with(rt, alloc, places, words, "");
        assert_same(rt, run.status, Status::Usage, words);
        assert!(rt; run.written.is_empty(), "{words:?}");
    }
}

/// Asserts that a journal is judged whatever nucleus is handed in, and that the end without the judgement is the same.
fn assert_judged(rt: &(impl Abort + Threads + Wait + Sync), alloc: Global) {
    let words: &[&str] = &["judge"];
    let run = run_with(rt, alloc, (1, 2), words, LEFT_OPEN);
    let open = (Status::Done, Some(Verdict::Judged(Judgement::Open)));
    assert_same(rt, (run.status, run.verdict), open, words);
    assert_same(rt, run.written.as_str(), WHAT_IS_LEFT_OPEN, words);
    let mut source = source_of(rt, alloc, LEFT_OPEN);
    let mut sink = sink_of(rt, alloc, 64, &[]);
    let status = status_with(rt, alloc, (1, 2), words, &mut source, &mut sink);
    assert_same(rt, status, Status::Done, words);
    let written = text_in(rt, alloc, &sink);
    assert_same(rt, written.as_str(), WHAT_IS_LEFT_OPEN, words);
}

/// The program is handed a nucleus, uses it where it has the places that the words ask, and else is Usage.
#[test]
fn a_nucleus_is_handed_in(rt: HostRuntime) {
    assert_done(&rt, rt.alloc());
    assert_judged(&rt, rt.alloc());
    assert_turned_away(&rt, rt.alloc());
}
