//! A scenario on running threads, from the bytes read to the bytes written.

ghost use Rattle.std.specs.Prelude.{◌≡◌, IfOk};
ghost use Rattle.chorus_nucleus.specs.Passes.{layout_of, IsPassOf};
ghost use Rattle.chorus_perform.specs.Scripts.{IsOpening};
ghost use Rattle.chorus_run.specs.Ends.{EndsAsRun};
ghost use Rattle.chorus_run.specs.Threads.{IsPlayedOn};

use crate::closing::{close, close_unused, stop};
use crate::finishing::finish;
use crate::standing::stuck_in;
use chorus_io::{Sink, Source};
use chorus_nucleus::{Nucleus, Pass};
use chorus_perform::{Gate, perform};
use chorus_report::{Finished, Played, gave_up, read_scenario};
use chorus_scene::Scenario;
use chorus_show::Stuck;
use std::alloc::{AllocError, Global};
use std::sync::Wait;
use std::thread::Threads;

/// Reads the source to its end, performs the scenario that it gives on the nucleus, each script in a thread of its own where one can be
/// made, closes the nucleus, and writes the journal and the summary.
///
/// The nucleus was just started, and the pass is its opening one. Where a clock is worn before all is done, nothing is written. Want of
/// memory is the one ending without a cause; it is told too where a script that waits gave up before what it waits for came, as may be where
/// no thread could be made for another.
pub fn run<R: Threads + Wait + Sync, S: Source, K: Sink, G: Gate>(
    alloc: Global,
    rt: &R,
    source: &mut S,
    sink: &mut K,
    nucleus: Nucleus,
    pass: Pass,
    gate: &G,
) -> Finished
    requires pass { IsPassOf nucleus pass }
    requires opening { IsOpening pass }
    ensures { EndsAsRun nucleus result S.left S.faults S.reliable
        source.old source.new K.held K.faults sink.old sink.new }
{
    let scenario = match read_scenario(alloc, source, nucleus.layout()) {
        Ok(scenario) => scenario,
        Err(status) => {
            close_unused(rt, nucleus, pass);
            return gave_up(status);
        }
    };
    match play(alloc, rt, nucleus, pass, &scenario, gate) {
        Ok((played, stuck)) => finish(alloc, rt, sink, Ok(played), &stuck),
        Err(error) => finish(alloc, rt, sink, Err(error), &[]),
    }
}

/// Performs the scenario, and closes the nucleus. Gives also which scripts are stuck, where no clock was worn.
fn play<R: Threads + Wait + Sync, G: Gate>(
    alloc: Global,
    rt: &R,
    nucleus: Nucleus,
    mut pass: Pass,
    scenario: &Scenario,
    gate: &G,
) -> Result<(Played, Vec<Stuck>), AllocError>
    requires pass { IsPassOf nucleus pass }
    requires opening { IsOpening pass }
    requires layout { scenario.now.layout ≡ layout_of nucleus }
    ensures { IfOk result
        (λ r. IsPlayedOn nucleus scenario.now r.0.worn r.1.items r.0.closed) }
{
    let _layout = scenario.layout(); // tells what a scenario keeps
    let performed = perform(alloc, rt, &nucleus, &mut pass, scenario, gate);
    let closed = close(rt, nucleus, pass)?;
    match performed {
        Ok(_) => {
            let stuck = stuck_in(alloc, scenario, &closed)?;
            Ok((Played { closed, worn: None }, stuck))
        }
        Err(why) => Ok((stop(alloc, closed, why)?, Vec::new(alloc))),
    }
}
