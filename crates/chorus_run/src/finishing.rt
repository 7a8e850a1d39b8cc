//! The end of a run: what was closed is printed in parts, and written.

ghost use Rattle.std.specs.Prelude.{◌≡◌, ◌⊎◌, ℕ, Some, Ok, IfOk, IfSome, OnOk};
ghost use Rattle.chorus_io.specs.Count.{Rose};
ghost use Rattle.chorus_net.specs.Closing.{merge_of};
ghost use Rattle.chorus_report.specs.Ending.{EndsWriting, HasWorn, IsFinished};
ghost use Rattle.chorus_report.specs.Headline.{AreWithinUnless};
ghost use Rattle.chorus_report.specs.Output.{EndsUnread, HandsOut, Writes, text_with};
ghost use Rattle.chorus_run.specs.ReportParts.Parts.{whole};
ghost use Rattle.chorus_show.specs.Bounds.{AreWithin};
ghost use Rattle.chorus_show.specs.Report.{report_with};

use crate::report_parts::{report_parts, write_parts};
use chorus_io::Sink;
use chorus_net::Closed;
use chorus_report::{Finished, Played, gave_up};
use chorus_show::{Status, Stuck};
use std::alloc::{AllocError, Global};
use std::thread::Threads;

/// Ends a run by what it played, as [`chorus_report::finish`] ends a replay, but that threads print the report in parts.
pub(crate) fn finish<R: Threads + Sync, K: Sink>(
    alloc: Global,
    rt: &R,
    sink: &mut K,
    played: Result<Played, AllocError>,
    stuck: &[Stuck],
) -> Finished
    requires { IfOk played HasWorn }
    ensures status { EndsUnread result.status }
    ensures writes { EndsWriting (text_with stuck.now result.closed) result
        K.held K.faults sink.old sink.new }
    ensures finished { IfSome result.closed (IsFinished played result.status) }
    ensures worn { (whole : Played) (clock : ℕ) → played ≡ Ok whole → whole.worn ≡ Some clock →
        result.status ≡ Status.Worn clock }
    ensures within { IfSome result.closed (AreWithinUnless result.status) }
{
    let Ok(played) = played else {
        return gave_up(Status::Memory);
    };
    if let Some(clock) = played.worn {
        return Finished {
            status: Status::Worn { clock },
            closed: Some(played.closed),
        };
    }
    let Ok(parts) = parts_of(alloc, rt, &played.closed, stuck) else {
        return gave_up(Status::Memory);
    };
    print(sink, &parts, played.closed)
}

/// The report of what a run closed, with the lines of what is stuck, in parts.
fn parts_of<R: Threads + Sync>(
    alloc: Global,
    rt: &R,
    closed: &Closed,
    stuck: &[Stuck],
) -> Result<Vec<Vec<u8>>, AllocError>
    ensures text { IfOk result (λ parts. whole parts.items ≡ report_with stuck.now (merge_of closed.now)) }
    ensures within { OnOk result (AreWithin (merge_of closed.now)) }
{
    report_parts(alloc, rt, &closed.journals, stuck)
}

/// Ends a run: writes the parts of the report of what it closed, and hands that out.
fn print<K: Sink>(sink: &mut K, parts: &[Vec<u8>], closed: Closed) -> Finished
    ensures status { (result.status ≡ Status.Done) ⊎ (result.status ≡ Status.WriteFault) }
    ensures write_fault { result.status ≡ Status.WriteFault →
        Rose (K.faults sink.old) (K.faults sink.new) }
    ensures closed { result.closed ≡ Some closed }
    ensures hands_out { HandsOut result.status }
    ensures prints { Writes result.status (K.held sink.old) (K.held sink.new) (whole parts.now) }
{
    let status = match write_parts(sink, parts) {
        Ok(()) => Status::Done,
        Err(_) => Status::WriteFault,
    };
    Finished {
        status,
        closed: Some(closed),
    }
}
