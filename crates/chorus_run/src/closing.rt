//! The nucleus is closed.

ghost use Rattle.std.specs.Prelude.{◌≡◌, ◌≤◌, ◌+◌, Some, Ok, true, length, IfOk};
ghost use Rattle.chorus_ui.specs.declared.limits.TheConstants.{CLOCK_LIMIT};
ghost use Rattle.chorus_merge.specs.Steps.{lent};
ghost use Rattle.chorus_nucleus.specs.Closing.{IsClosed};
ghost use Rattle.chorus_nucleus.specs.Passes.{known, IsPassOf};
ghost use Rattle.chorus_perform.specs.Scripts.{IsOpening};
ghost use Rattle.chorus_report.specs.Headline.{HasClock};
ghost use Rattle.chorus_net.specs.Closing.{merge_of};
ghost use Rattle.chorus_run.specs.Threads.{StopsAt};

use chorus_entry::Entry;
use chorus_merge::merge_lent;
use chorus_net::Closed;
use chorus_nucleus::{CloseFault, Nucleus, Pass};
use chorus_perform::Stopped;
use chorus_report::Played;
use chorus_ui::CLOCK_LIMIT;
use std::alloc::{AllocError, Global};
use std::sync::Wait;

/// Closes the nucleus at the end of a top call, when its other passes have all ended.
pub fn close<R: Wait>(rt: &R, nucleus: Nucleus, pass: Pass) -> Result<Closed, AllocError>
    requires pass { IsPassOf nucleus pass }
    requires keeper { (known pass).keeper ≡ true }
    requires ended { (known pass).made ≡ length (known pass).notes + 1 }
    ensures { IfOk result (λ closed. IsClosed nucleus pass closed) }
{
    match nucleus.close(rt, pass) {
        Ok(closed) => Ok(closed),
        Err(CloseFault::Memory(error)) => Err(error),
        Err(CloseFault::PassesOut(..)) => unreachable!(),
    }
}

/// Closes a nucleus that was just started, for which there is no use, and lets go of what that gives.
pub fn close_unused<R: Wait>(rt: &R, nucleus: Nucleus, pass: Pass)
    requires pass { IsPassOf nucleus pass }
    requires opening { IsOpening pass }
{
    let _closed = close(rt, nucleus, pass);
}

/// What is left of a run or a crew that stopped: what was closed, where all stopped for a clock that an entry of it
/// has. Else, and for want of memory, the error is that of memory, and what was closed is dropped.
pub fn stop(alloc: Global, closed: Closed, why: Stopped) -> Result<Played, AllocError>
    ensures { IfOk result (λ played. StopsAt why closed played) }
{
    match why {
        Stopped::Memory(error) => Err(error),
        Stopped::Worn { clock } => worn(alloc, closed, clock),
    }
}

/// What is left of a run or a crew that stopped: what was closed, where an entry has the clock that was worn.
fn worn(alloc: Global, closed: Closed, clock: u64) -> Result<Played, AllocError>
    ensures closed { IfOk result (λ played. played.closed ≡ closed) }
    ensures worn { IfOk result (λ played. played.worn ≡ Some clock) }
    ensures entry { IfOk result (λ played. HasClock clock (merge_of closed)) }
    ensures high { IfOk result (λ played. CLOCK_LIMIT ≤ clock) }
{
    if clock >= CLOCK_LIMIT && has_entry(alloc, &closed, clock)? {
        Ok(Played {
            closed,
            worn: Some(clock),
        })
    } else {
        Err(AllocError)
    }
}

/// Whether an entry of the closed journals of a run or a crew has the clock for which all stopped.
fn has_entry(alloc: Global, closed: &Closed, clock: u64) -> Result<bool, AllocError>
    ensures { result ≡ Ok true → HasClock clock (merge_of closed.now) }
{
    let entries = merge_lent(alloc, &closed.journals)?;
    Ok(has_clock(&entries, clock))
}

/// Whether one of the merged entries of a run or a crew that was closed has the clock for which all stopped.
fn has_clock(entries: &[&Entry], clock: u64) -> bool
    ensures { result ≡ true → HasClock clock (lent entries.now) }
{
    for index in 0..entries.len() {
        if entries[index].clock == clock {
            return true;
        }
    }
    false
}
