//! The program with a nucleus that is started for the words that use one.

ghost use Rattle.std.specs.Prelude.{◌≡◌, map, None};
ghost use Rattle.chorus_words.specs.declared.words.Words.{Words};
ghost use Rattle.chorus_words.specs.Words.{Ask, IsTurns, IsWithin};
ghost use Rattle.chorus_program.specs.declared.running.TheConstants.{PROGRAM_SITES};
ghost use Rattle.chorus_program.specs.Running.{layout_asked, places_each, EndsWithCause, IsTurnedAway};
ghost use Rattle.chorus_program.specs.Started.{AskNothing, DoesOnOwn};
ghost use Rattle.chorus_program.specs.Concluding.{inquiry_in, ConcludesOnOwn};

use crate::conclusion::{Conclusion, end_as, without_verdict};
use crate::inquiries::{answer, inquiry_in};
use crate::one_thread::{closed_nothing, does_on_one_thread};
use crate::running::{PROGRAM_SITES, does};
use chorus_io::{Sink, Source};
use chorus_nucleus::Nucleus;
use chorus_report::Finished;
use chorus_run::OpenGate;
use chorus_show::Status;
use chorus_ui::Layout;
use chorus_words::{Words, read_words};
use std::alloc::Global;
use std::sync::Wait;
use std::thread::Threads;

/// Does what the words say, as [`conclude`](crate::conclude) does, without a nucleus that is handed in: `run`, `run TURNS` and `crew` are
/// done on one that is started for them, of [`PROGRAM_SITES`] sites with as many places each as `run TURNS` asks, and one place each for
/// the others; all other words use none, and none is started. Where there is no memory for it, nothing was read or written.
pub fn start_program<'a, R: Threads + Wait + Sync, S: Source, K: Sink>(
    alloc: Global,
    rt: &R,
    words: &'a [&'a str],
    source: &mut S,
    sink: &mut K,
) -> Conclusion
    ensures usage { result.finished.status ≡ Status.Usage →
        AskNothing (map (λ word. word.now) words.now) }
    ensures unlisted { AskNothing (map (λ word. word.now) words.now) →
        IsTurnedAway result.finished.status × (result.verdict ≡ None)
        × (source.new ≡ source.old) × (sink.new ≡ sink.old) }
    ensures concludes { (asked : Words) → Ask (map (λ word. word.now) words.now) asked →
        ConcludesOnOwn asked result S.left S.faults S.reliable source.old source.new
        K.held K.faults sink.old sink.new }
    ensures causes { EndsWithCause result.finished S.faults S.reliable source.old source.new
        K.faults sink.old sink.new }
{
    match read_words(alloc, words) {
        Ok(Some(asked)) => conclude_on_own(alloc, rt, asked, source, sink),
        Ok(None) => end_as(Status::Usage),
        Err(_) => end_as(Status::Memory),
    }
}

/// Ends as the program's words ask: what they ask about a text is answered, or what they ask is done on what is started for it.
fn conclude_on_own<R: Threads + Wait + Sync, S: Source, K: Sink>(
    alloc: Global,
    rt: &R,
    asked: Words,
    source: &mut S,
    sink: &mut K,
) -> Conclusion
    requires { IsWithin asked }
    ensures concludes { ConcludesOnOwn asked result S.left S.faults S.reliable source.old source.new
        K.held K.faults sink.old sink.new }
    ensures causes { EndsWithCause result.finished S.faults S.reliable source.old source.new
        K.faults sink.old sink.new }
{
    match inquiry_in(asked) {
        Some(asks) => answer(alloc, asks, source, sink),
        None => without_verdict(does_on_own(alloc, rt, asked, source, sink)),
    }
}

/// Does what the program's words ask, on a nucleus that is started for it where it uses one.
fn does_on_own<R: Threads + Wait + Sync, S: Source, K: Sink>(
    alloc: Global,
    rt: &R,
    asked: Words,
    source: &mut S,
    sink: &mut K,
) -> Finished
    requires within { IsWithin asked }
    requires unjudged { inquiry_in asked ≡ None }
    ensures does { DoesOnOwn asked result S.left S.faults S.reliable source.old source.new
        K.held K.faults sink.old sink.new }
    ensures causes { EndsWithCause result S.faults S.reliable source.old source.new
        K.faults sink.old sink.new }
{
    let Some(layout) = layout_asked(asked) else {
        return does_on_one_thread(alloc, asked, source, sink);
    };
    match Nucleus::start(alloc, rt, layout) {
        Ok((nucleus, pass)) => does(alloc, rt, asked, source, sink, nucleus, pass, &OpenGate),
        Err(_) => closed_nothing(Status::Memory),
    }
}

/// The layout of the nucleus that is started for what the program's words ask. None where that uses none.
fn layout_asked(asked: Words) -> Option<Layout>
    requires { IsWithin asked }
    ensures { result ≡ layout_asked asked }
{
    match asked {
        Words::RunOn { turns } => Some(with_places(turns)),
        Words::Run | Words::Crew { .. } => Some(with_places(1)),
        _ => None,
    }
}

/// The layout of a started nucleus: the sites of the program, with so many places each.
fn with_places(turns: u16) -> Layout
    requires { IsTurns turns }
    ensures { result ≡ places_each PROGRAM_SITES turns }
{
    Layout::new(PROGRAM_SITES, turns).unwrap()
}
