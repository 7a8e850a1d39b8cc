//! A crew on messages that are drawn, from the first send to the text.
ghost use Rattle.std.specs.Prelude.{◌≡◌, ◌≤◌, ◌⊎◌, ℕ, None, length};
ghost use Rattle.chorus_nucleus.specs.Passes.{layout_of, IsPassOf};
ghost use Rattle.chorus_perform.specs.Scripts.{IsOpening};
ghost use Rattle.chorus_run.specs.declared.drawn_crew.draws.TheConstants.{DRAWS_LIMIT};
ghost use Rattle.chorus_run.specs.declared.drawn_crew.names.TheConstants.{CREW_PORTS};
ghost use Rattle.chorus_nucleus.specs.declared.nucleus.Nucleus.{Nucleus};
ghost use Rattle.chorus_nucleus.specs.declared.pass.Pass.{Pass};
ghost use Rattle.chorus_run.specs.Threads.{IsClosedBy};
ghost use Rattle.chorus_run.specs.DrawnCrew.Takes.{HasCrewed};
ghost use Rattle.chorus_run.specs.DrawnCrew.Ends.{EndsAsCrew, EndsWorn};

use crate::closing::{close, stop};
use crate::drawn_crew::handling::fill_and_handle;
use crate::drawn_crew::text::text_of;
use chorus_crew::Handled;
use chorus_io::Sink;
use chorus_net::Closed;
use chorus_nucleus::{Nucleus, Pass};
use chorus_perform::Stopped;
use chorus_report::{Finished, gave_up, print};
use chorus_show::Status;
use std::alloc::Global;
use std::sync::Wait;
use std::thread::Threads;

/// Makes the eight ports, performs those of so many drawn commands that send to one of them, lets a crew handle all
/// that waits, closes the nucleus, and writes for each port how many messages the crew handled and the sum of their
/// values.
///
/// The nucleus was just started, and the pass is its opening one. How many messages a crew finds at a port, and the sum
/// of their values, are those of the draws: the port holds the first 64 of the messages that are sent to it. Where a
/// clock is worn before all is done, nothing is written. Want of memory is the one ending without a cause; it is told
/// too where no entry of what was closed has the clock that was worn.
pub fn handle_drawn<R: Threads + Wait + Sync, K: Sink>(
    alloc: Global,
    rt: &R,
    first: u64,
    commands: u32,
    sink: &mut K,
    nucleus: Nucleus,
    mut pass: Pass,
) -> Finished
    requires pass { IsPassOf nucleus pass }
    requires opening { IsOpening pass }
    requires sites { CREW_PORTS ≤ (layout_of nucleus).sites }
    requires commands { commands ≤ DRAWS_LIMIT }
    ensures { EndsAsCrew nucleus first commands result K.held K.faults sink.old sink.new }
{
    let handled = fill_and_handle(alloc, rt, &nucleus, &mut pass, first, commands);
    let Ok(closed) = close(rt, nucleus, pass) else {
        return gave_up(Status::Memory);
    };
    match handled {
        Ok(handled) => print_counts(alloc, &handled, closed, sink),
        Err(why) => stopped(alloc, closed, why),
    }
}

/// Ends the crew on drawn messages by writing what it counted.
fn print_counts<K: Sink>(
    alloc: Global,
    handled: &[Handled],
    closed: Closed,
    sink: &mut K,
) -> Finished
    requires { length handled.now ≡ CREW_PORTS }
    ensures { (n : Nucleus) (last : Pass) (first commands : ℕ) → CREW_PORTS ≤ (layout_of n).sites →
        commands ≤ DRAWS_LIMIT → IsClosedBy n last closed →
        HasCrewed n first commands handled.now last →
        EndsAsCrew n first commands result K.held K.faults sink.old sink.new }
{
    let Ok(text) = text_of(alloc, handled) else {
        return gave_up(Status::Memory);
    };
    print(sink, &text, closed)
}

/// Ends the crew on drawn messages with the clock that was worn, where an entry of what was closed has it, else for
/// want of memory.
fn stopped(alloc: Global, closed: Closed, why: Stopped) -> Finished
    ensures { (result ≡ record { status = Status.Memory; closed = None }) ⊎
        EndsWorn why closed result }
{
    let Ok(played) = stop(alloc, closed, why) else {
        return gave_up(Status::Memory);
    };
    match played.worn {
        Some(clock) => Finished {
            status: Status::Worn { clock },
            closed: Some(played.closed),
        },
        None => unreachable!(),
    }
}
