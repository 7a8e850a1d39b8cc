//! What the words do that ask what is to be found of a text.

ghost use Rattle.std.specs.Prelude.{◌≡◌, None, Some};
ghost use Rattle.chorus_ui.specs.Layout.{IsLayout};
ghost use Rattle.chorus_words.specs.Words.{IsWithin};
ghost use Rattle.chorus_judge.specs.Output as judging;
ghost use Rattle.chorus_program.specs.declared.inquiries.Inquiry.TheVariants as Inquiry;
ghost use Rattle.chorus_check.specs.Ends as checking;
ghost use Rattle.chorus_program.specs.Concluding.{checked_in, inquiry_in, judged_in, Answers, ConcludesAsCheck, ConcludesAsJudge};
ghost use Rattle.chorus_program.specs.Running.{asked_by, places_each, EndsWithCause};

use crate::conclusion::{Conclusion, Verdict, end_as};
use crate::one_thread::closed_nothing;
use crate::running::PROGRAM_SITES;
use chorus_check::{Checked, Schedules, check};
use chorus_io::{Sink, Source};
use chorus_judge::{Asked, Judgement, Measure, judge};
use chorus_show::Status;
use chorus_ui::Layout;
use chorus_words::{CHECK_MOST, Words};
use std::alloc::Global;

/// What is asked about a text.
#[derive(Clone, Copy)]
pub(crate) enum Inquiry {
    /// What a journal is, by this measure, and for this layout, or where none is asked for, for the one that it names.
    Judge { asked: Asked },
    /// What is so of the claims of a scenario, by these schedules.
    Check { schedules: Schedules },
}

/// What the program's words ask about a text. None where they ask nothing.
pub(crate) fn inquiry_in(asked: Words) -> Option<Inquiry>
    requires { IsWithin asked }
    ensures { result ≡ inquiry_in asked }
{
    match asked {
        Words::Judge => Some(judge_by(Measure::Rules, None)),
        Words::JudgeFor { sites, turns } => Some(judge_on(Measure::Rules, sites, turns)),
        Words::Promises => Some(judge_by(Measure::Promises, None)),
        Words::PromisesFor { sites, turns } => Some(judge_on(Measure::Promises, sites, turns)),
        Words::Check => Some(Inquiry::Check {
            schedules: Schedules::All { most: CHECK_MOST },
        }),
        Words::CheckMost { most } => Some(Inquiry::Check {
            schedules: Schedules::All { most },
        }),
        Words::CheckDrawn { count, first } => Some(Inquiry::Check {
            schedules: Schedules::Drawn { count, first },
        }),
        _ => None,
    }
}

/// The question what a journal is, by this measure, and for this layout, if one is asked for.
fn judge_by(measure: Measure, layout: Option<Layout>) -> Inquiry
    ensures { result ≡ Inquiry.Judge (asked_by measure layout) }
{
    Inquiry::Judge {
        asked: Asked { measure, layout },
    }
}

/// The question what a journal is, by this measure, on so many sites with so many places each: a layout that exists.
fn judge_on(measure: Measure, sites: u16, turns: u16) -> Inquiry
    requires { IsLayout (places_each sites turns) }
    ensures { result ≡ Inquiry.Judge (asked_by measure (Some (places_each sites turns))) }
{
    judge_by(measure, Some(Layout::new(sites, turns).unwrap()))
}

/// Answers what the program's words ask about the text that the source gives.
pub(crate) fn answer<S: Source, K: Sink>(
    alloc: Global,
    inquiry: Inquiry,
    source: &mut S,
    sink: &mut K,
) -> Conclusion
    ensures answers { Answers inquiry result S.left S.faults S.reliable source.old source.new
        K.held K.faults sink.old sink.new }
    ensures causes { EndsWithCause result.finished S.faults S.reliable source.old source.new
        K.faults sink.old sink.new }
{
    match inquiry {
        Inquiry::Judge { asked } => judge_for(alloc, asked, source, sink),
        Inquiry::Check { schedules } => check_for(alloc, schedules, source, sink),
    }
}

/// Does the program's words `judge` and `promises`: judges what the source gives, as it is asked.
fn judge_for<S: Source, K: Sink>(
    alloc: Global,
    asked: Asked,
    source: &mut S,
    sink: &mut K,
) -> Conclusion
    ensures judges { ConcludesAsJudge asked result
        (S.left source.old) (S.left source.new) (K.held sink.old) (K.held sink.new) }
    ensures causes { EndsWithCause result.finished S.faults S.reliable source.old source.new
        K.faults sink.old sink.new }
{
    judged(judge(alloc, asked, source, sink))
}

/// Does the program's words `check` and `drawn`: checks the claims of the scenario that the source gives, by these schedules.
fn check_for<S: Source, K: Sink>(
    alloc: Global,
    schedules: Schedules,
    source: &mut S,
    sink: &mut K,
) -> Conclusion
    ensures checks { ConcludesAsCheck schedules result S.left S.faults S.reliable source.old source.new
        K.held K.faults sink.old sink.new }
    ensures causes { EndsWithCause result.finished S.faults S.reliable source.old source.new
        K.faults sink.old sink.new }
{
    let layout = Layout::new(PROGRAM_SITES, 1).unwrap();
    checked(check(alloc, layout, schedules, source, sink))
}

/// The end of the program by what a judgement gives.
fn judged(given: Result<Judgement, Status>) -> Conclusion
    ensures finished { result.finished
        ≡ record { status = judging.status_of given; closed = None } }
    ensures verdict { result.verdict ≡ judged_in given }
{
    match given {
        Ok(judgement) => found(Verdict::Judged(judgement)),
        Err(status) => end_as(status),
    }
}

/// The end of the program by what a check gives.
fn checked(given: Result<Checked, Status>) -> Conclusion
    ensures finished { result.finished
        ≡ record { status = checking.status_of given; closed = None } }
    ensures verdict { result.verdict ≡ checked_in given }
{
    match given {
        Ok(checked) => found(Verdict::Checked(checked)),
        Err(status) => end_as(status),
    }
}

/// The end of the program where this was found, and all was done.
fn found(verdict: Verdict) -> Conclusion
    ensures { result ≡ record {
      finished = record { status = Status.Done; closed = None };
      verdict = Some verdict;
    } }
{
    Conclusion {
        finished: closed_nothing(Status::Done),
        verdict: Some(verdict),
    }
}
