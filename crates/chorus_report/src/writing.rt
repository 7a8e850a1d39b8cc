//! The end of a call that played something: what was closed is written.

ghost use Rattle.std.specs.Prelude.{◌≡◌, ◌⊎◌, ◌++◌, ℕ, List, Some, Ok, IfOk, IfSome, OnOk, codes};
ghost use Rattle.std.specs.List.{flat_map};
ghost use Rattle.chorus_io.specs.Count.{Rose};
ghost use Rattle.chorus_show.specs.Bounds.{AreWithin};
ghost use Rattle.chorus_report.specs.Headline.{AreWithinUnless};
ghost use Rattle.chorus_net.specs.Closing.{merge_of};
ghost use Rattle.chorus_show.specs.Report.{report_with, stuck_line};
ghost use Rattle.chorus_report.specs.Output.{EndsUnread, HandsOut, Writes, IsEnded, summary, text_as};
ghost use Rattle.chorus_report.specs.Ending.{EndsWriting, HasWorn, IsFinished};

use crate::finished::{Finished, gave_up};
use crate::played::Played;
use chorus_io::{Sink, write_all};
use chorus_merge::merge_lent;
use chorus_net::Closed;
use chorus_show::{Status, Stuck, journal_text, lent_summary_text, push_stuck};
use std::alloc::{AllocError, Global};

/// The last line of a report.
const END: &[u8] = b"end\n";

/// What is written of what was played.
#[derive(Clone, Copy, Debug, PartialEq, Eq)]
pub enum Text {
    /// The journal text and the summary text.
    Report,
    /// The summary text alone.
    Summary,
}

/// Ends a call by what it played: writes the text of what was closed, a report with a line for each script that is stuck, where it
/// played all; ends with the clock that was worn, where one was, and with want of memory, where it could not play for that.
pub fn finish<K: Sink>(
    alloc: Global,
    sink: &mut K,
    played: Result<Played, AllocError>,
    text: Text,
    stuck: &[Stuck],
) -> Finished
    requires { IfOk played HasWorn }
    ensures status { EndsUnread result.status }
    ensures writes { EndsWriting (text_as text stuck.now result.closed) result
        K.held K.faults sink.old sink.new }
    ensures finished { IfSome result.closed (IsFinished played result.status) }
    ensures worn { (whole : Played) (clock : ℕ) → played ≡ Ok whole → whole.worn ≡ Some clock →
        result.status ≡ Status.Worn clock }
    ensures within { text ≡ Text.Report →
        IfSome result.closed (AreWithinUnless result.status) }
{
    let Ok(played) = played else {
        return gave_up(Status::Memory);
    };
    if let Some(clock) = played.worn {
        return Finished {
            status: Status::Worn { clock },
            closed: Some(played.closed),
        };
    }
    let Ok(bytes) = text_as(alloc, &played.closed, text, stuck) else {
        return gave_up(Status::Memory);
    };
    print(sink, &bytes, played.closed)
}

/// The text, report or summary, that is written of what was closed.
fn text_as(
    alloc: Global,
    closed: &Closed,
    text: Text,
    stuck: &[Stuck],
) -> Result<Vec<u8>, AllocError>
    ensures text { IfOk result
        (λ bytes. bytes.items ≡ text_as text stuck.now (Some closed.now)) }
    ensures within { text ≡ Text.Report → IfOk result (λ bytes. AreWithin (merge_of closed.now)) }
{
    match text {
        Text::Report => report_of(alloc, closed, stuck),
        Text::Summary => summary_of(alloc, closed),
    }
}

/// The journal text and the summary text of what was closed, with the lines of what is stuck. No entry is copied.
fn report_of(alloc: Global, closed: &Closed, stuck: &[Stuck]) -> Result<Vec<u8>, AllocError>
    ensures text { IfOk result
        (λ text. text.items ≡ report_with stuck.now (merge_of closed.now)) }
    ensures within { IfOk result (λ text. AreWithin (merge_of closed.now)) }
{
    let entries = merge_lent(alloc, &closed.journals)?;
    let mut text = Vec::new(alloc);
    journal_text(&entries, &mut text)?;
    lent_summary_text(&entries, &mut text)?;
    push_stuck_lines(stuck, &mut text)?;
    Ok(text)
}

/// Puts the lines of what is stuck before the end of a report.
pub fn push_stuck_lines(stuck: &[Stuck], text: &mut Vec<u8>) -> Result<(), AllocError>
    requires { IsEnded text.old.items }
    ensures { OnOk result ((front : List ℕ) → text.old.items ≡ front ++ codes "end\n" →
        text.new.items ≡ front ++ (flat_map stuck_line stuck.now ++ codes "end\n")) }
{
    text.truncate(text.len() - END.len());
    for script in stuck {
        push_stuck(script, text)?;
    }
    text.extend_from_slice(END)
}

/// The summary text of what was closed. No entry is copied.
fn summary_of(alloc: Global, closed: &Closed) -> Result<Vec<u8>, AllocError>
    ensures { IfOk result (λ text. text.items ≡ summary closed.now) }
{
    let entries = merge_lent(alloc, &closed.journals)?;
    let mut summary = Vec::new(alloc);
    lent_summary_text(&entries, &mut summary)?;
    Ok(summary)
}

/// Writes the text of what was closed, and hands that out: `Done` where the sink took all of the text, else `WriteFault`.
pub fn print<K: Sink>(sink: &mut K, text: &[u8], closed: Closed) -> Finished
    ensures status { (result.status ≡ Status.Done) ⊎ (result.status ≡ Status.WriteFault) }
    ensures write_fault { result.status ≡ Status.WriteFault →
        Rose (K.faults sink.old) (K.faults sink.new) }
    ensures closed { result.closed ≡ Some closed }
    ensures hands_out { HandsOut result.status }
    ensures prints { Writes result.status (K.held sink.old) (K.held sink.new) text.now }
{
    let status = match write_all(sink, text) {
        Ok(()) => Status::Done,
        Err(_) => Status::WriteFault,
    };
    Finished {
        status,
        closed: Some(closed),
    }
}
