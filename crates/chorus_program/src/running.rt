//! What the program does, by its words.

ghost use Rattle.std.specs.Prelude.{◌≡◌, map, IfOk, IfSome, None, Some};
ghost use Rattle.chorus_words.specs.declared.words.Words.{Words};
ghost use Rattle.chorus_words.specs.Words.{IsWithin};
ghost use Rattle.chorus_nucleus.specs.Passes.{IsPassOf};
ghost use Rattle.chorus_perform.specs.Scripts.{IsOpening};
ghost use Rattle.chorus_program.specs.Running.{AskNothingOf, AskOf, Does, EndsWithCause, IsTurnedAway, Suits};
ghost use Rattle.chorus_program.specs.Concluding.{end_as, inquiry_in, Concludes};

use crate::conclusion::{Conclusion, end_as, without_verdict};
use crate::inquiries::{answer, inquiry_in};
use crate::one_thread::does_on_one_thread;
use chorus_io::{Sink, Source};
use chorus_nucleus::{Nucleus, Pass};
use chorus_report::Finished;
use chorus_run::{CREW_PORTS, Gate, close_unused, handle_drawn, run};
use chorus_show::Status;
use chorus_words::{Words, read_words};
use std::alloc::{AllocError, Global};
use std::sync::Wait;
use std::thread::Threads;

/// The sites of a replay, each with one place, and of the nucleus that the program starts.
pub const PROGRAM_SITES: u16 = 16;

/// Does what the words say: `replay` replays the scenario that the source gives, and `load FIRST COMMANDS` performs the
/// commands that are drawn, both on sites that are started for it; `run` performs the scenario on the running threads of the nucleus,
/// and so does `run TURNS` where its sites have so many places; `audit SITES TURNS` audits the printed journal that the source gives,
/// `judge SITES TURNS` judges it, `judge` alone does for the sites that its head names, or those of a replay, `promises SITES TURNS` and
/// `promises` judge it so by promises, and `picture SITES TURNS` draws it;
/// `lossy FIRST` carries what the source gives over a line that loses; `crew FIRST COMMANDS` sends what the draws give to ports of the
/// nucleus, where it has at least 8 sites, and prints what a crew handled there; `explore` tells what may come of the scenario that the
/// source gives, by any schedule, with at most [`EXPLORE_MOST`](chorus_words::EXPLORE_MOST) events carried out, and `explore MOST` with at
/// most so many, and where that is not enough also by schedules that are drawn, with `explore MOST FIRST` from the state FIRST on;
/// `check` and `check MOST` tell so what is so of the scenario's claims, and `drawn COUNT FIRST` what is so of them on so many schedules
/// that are drawn. Any other words are Usage, and then nothing is read or written.
///
/// The nucleus was just started, and the pass is its opening one. It is closed in any case. Want of memory is the one ending without a
/// cause; by `run` it is told too where a thread that waits gave up too early.
pub fn program<'a, R: Threads + Wait + Sync, S: Source, K: Sink, G: Gate>(
    alloc: Global,
    rt: &R,
    words: &'a [&'a str],
    source: &mut S,
    sink: &mut K,
    nucleus: Nucleus,
    pass: Pass,
    gate: &G,
) -> Finished
    requires pass { IsPassOf nucleus pass }
    requires opening { IsOpening pass }
    ensures usage { result.status ≡ Status.Usage →
        AskNothingOf nucleus (map (λ word. word.now) words.now) }
    ensures unlisted { AskNothingOf nucleus (map (λ word. word.now) words.now) →
        IsTurnedAway result.status × (source.new ≡ source.old) × (sink.new ≡ sink.old) }
    ensures does { (asked : Words) → AskOf nucleus (map (λ word. word.now) words.now) asked →
        Does nucleus asked result S.left S.faults S.reliable source.old source.new
        K.held K.faults sink.old sink.new }
    ensures causes { EndsWithCause result S.faults S.reliable source.old source.new
        K.faults sink.old sink.new }
{
    conclude(alloc, rt, words, source, sink, nucleus, pass, gate).finished
}

/// Does what [`program`] does, and gives beside how it ended what was found of a journal that was judged, or of claims that were checked.
pub fn conclude<'a, R: Threads + Wait + Sync, S: Source, K: Sink, G: Gate>(
    alloc: Global,
    rt: &R,
    words: &'a [&'a str],
    source: &mut S,
    sink: &mut K,
    nucleus: Nucleus,
    pass: Pass,
    gate: &G,
) -> Conclusion
    requires pass { IsPassOf nucleus pass }
    requires opening { IsOpening pass }
    ensures usage { result.finished.status ≡ Status.Usage →
        AskNothingOf nucleus (map (λ word. word.now) words.now) }
    ensures unlisted { AskNothingOf nucleus (map (λ word. word.now) words.now) →
        IsTurnedAway result.finished.status × (result.verdict ≡ None)
        × (source.new ≡ source.old) × (sink.new ≡ sink.old) }
    ensures concludes { (asked : Words) → AskOf nucleus (map (λ word. word.now) words.now) asked →
        Concludes nucleus asked result S.left S.faults S.reliable source.old source.new
        K.held K.faults sink.old sink.new }
    ensures causes { EndsWithCause result.finished S.faults S.reliable source.old source.new
        K.faults sink.old sink.new }
{
    match asked_of(alloc, words, &nucleus) {
        Ok(Some(asked)) => conclude_asked(alloc, rt, asked, source, sink, nucleus, pass, gate),
        Ok(None) => turn_away(rt, nucleus, pass, Status::Usage),
        Err(_) => turn_away(rt, nucleus, pass, Status::Memory),
    }
}

/// What the words ask of a program with the nucleus. None exactly where they ask nothing of it; want of memory is the one error.
fn asked_of<'a>(
    alloc: Global,
    words: &'a [&'a str],
    nucleus: &Nucleus,
) -> Result<Option<Words>, AllocError>
    ensures some { IfOk result (λ read.
        IfSome read (AskOf nucleus.now (map (λ word. word.now) words.now))) }
    ensures listed { (asked : Words) → AskOf nucleus.now (map (λ word. word.now) words.now) asked →
        IfOk result (λ read. read ≡ Some asked) }
{
    match read_words(alloc, words)? {
        Some(asked) => Ok(if_it_suits(nucleus, asked)),
        None => Ok(None),
    }
}

/// What is asked, where the nucleus has the places for it.
fn if_it_suits(nucleus: &Nucleus, asked: Words) -> Option<Words>
    ensures some { IfSome result (λ read. (read ≡ asked) × Suits nucleus.now read) }
    ensures suits { Suits nucleus.now asked → result ≡ Some asked }
{
    match asked {
        Words::RunOn { turns } => {
            if turns == nucleus.layout().turns() {
                Some(asked)
            } else {
                None
            }
        }
        Words::Crew { .. } => {
            if CREW_PORTS <= nucleus.layout().sites() {
                Some(asked)
            } else {
                None
            }
        }
        _ => Some(asked),
    }
}

/// Closes the nucleus, and ends with this status before anything was read.
fn turn_away<R: Wait>(rt: &R, nucleus: Nucleus, pass: Pass, status: Status) -> Conclusion
    requires pass { IsPassOf nucleus pass }
    requires opening { IsOpening pass }
    ensures { result ≡ end_as status }
{
    close_unused(rt, nucleus, pass);
    end_as(status)
}

/// Ends as the program's words ask: what they ask about a text is answered, for which this nucleus is closed first, or what they ask is
/// done.
fn conclude_asked<R: Threads + Wait + Sync, S: Source, K: Sink, G: Gate>(
    alloc: Global,
    rt: &R,
    asked: Words,
    source: &mut S,
    sink: &mut K,
    nucleus: Nucleus,
    pass: Pass,
    gate: &G,
) -> Conclusion
    requires within { IsWithin asked }
    requires suits { Suits nucleus asked }
    requires pass { IsPassOf nucleus pass }
    requires opening { IsOpening pass }
    ensures concludes { Concludes nucleus asked result S.left S.faults S.reliable source.old source.new
        K.held K.faults sink.old sink.new }
    ensures causes { EndsWithCause result.finished S.faults S.reliable source.old source.new
        K.faults sink.old sink.new }
{
    match inquiry_in(asked) {
        Some(asks) => {
            close_unused(rt, nucleus, pass);
            answer(alloc, asks, source, sink)
        }
        None => without_verdict(does(alloc, rt, asked, source, sink, nucleus, pass, gate)),
    }
}

/// Does what the program's words ask, where they ask nothing about a text. Where that uses no nucleus, this one is closed first.
pub(crate) fn does<R: Threads + Wait + Sync, S: Source, K: Sink, G: Gate>(
    alloc: Global,
    rt: &R,
    asked: Words,
    source: &mut S,
    sink: &mut K,
    nucleus: Nucleus,
    pass: Pass,
    gate: &G,
) -> Finished
    requires within { IsWithin asked }
    requires suits { Suits nucleus asked }
    requires unjudged { inquiry_in asked ≡ None }
    requires pass { IsPassOf nucleus pass }
    requires opening { IsOpening pass }
    ensures does { Does nucleus asked result S.left S.faults S.reliable source.old source.new
        K.held K.faults sink.old sink.new }
    ensures causes { EndsWithCause result S.faults S.reliable source.old source.new
        K.faults sink.old sink.new }
{
    match asked {
        Words::Run | Words::RunOn { .. } => run(alloc, rt, source, sink, nucleus, pass, gate),
        Words::Crew { first, commands } => {
            handle_drawn(alloc, rt, first, commands, sink, nucleus, pass)
        }
        _ => {
            close_unused(rt, nucleus, pass);
            does_on_one_thread(alloc, asked, source, sink)
        }
    }
}
