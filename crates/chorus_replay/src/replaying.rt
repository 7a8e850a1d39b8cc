//! A scenario on one thread.

ghost use Rattle.std.specs.Prelude.{◌≡◌, length, IfOk, IfSome};
ghost use Rattle.chorus_ui.specs.Layout.{IsLayout};
ghost use Rattle.chorus_scene.specs.Limits.{Keeps};
ghost use Rattle.chorus_net.specs.Closing.{HasMark};
ghost use Rattle.chorus_net.specs.Sites.{net};
ghost use Rattle.chorus_replay.specs.Ends.{EndsAsReplay};
ghost use Rattle.chorus_replay.specs.Ordered.{AreJustStarted};
ghost use Rattle.chorus_report.specs.Awaiting.{stuck_of};
ghost use Rattle.chorus_replay.specs.Performing.{HasPlayed};

use crate::closing::close;
use crate::performing::perform;
use chorus_io::{Sink, Source};
use chorus_net::Sites;
use chorus_report::{Finished, Played, Text, finish, gave_up, read_scenario};
use chorus_scene::Scenario;
use chorus_show::Stuck;
use std::alloc::{AllocError, Global};

/// Reads the source to its end, replays the scenario that it gives on the sites, and writes the journal and the summary.
///
/// The sites were just started. Where a clock is worn before all is done, the sites are closed and nothing is written. Want of
/// memory is the one ending without a cause.
pub fn replay<S: Source, K: Sink>(
    alloc: Global,
    source: &mut S,
    sink: &mut K,
    sites: Sites,
) -> Finished
    requires { AreJustStarted (net sites) }
    ensures ends { EndsAsReplay (net sites).layout result S.left S.faults S.reliable
        source.old source.new K.held K.faults sink.old sink.new }
    ensures mark { IfSome result.closed (HasMark sites.mark) }
{
    let scenario = match read_scenario(alloc, source, sites.layout()) {
        Ok(scenario) => scenario,
        Err(status) => return gave_up(status),
    };
    match play(alloc, sites, &scenario) {
        Ok((played, stuck)) => finish(alloc, sink, Ok(played), Text::Report, &stuck),
        Err(error) => finish(alloc, sink, Err(error), Text::Report, &[]),
    }
}

/// Replays the scenario, and closes the sites. Gives also which scripts are stuck, where no clock was worn.
fn play(
    alloc: Global,
    mut sites: Sites,
    scenario: &Scenario,
) -> Result<(Played, Vec<Stuck>), AllocError>
    requires just_started { AreJustStarted (net sites) }
    requires layout { scenario.now.layout ≡ (net sites).layout }
    requires keeps { Keeps scenario.now }
    requires shape { IsLayout scenario.now.layout }
    ensures played { IfOk result
        (λ r. HasPlayed scenario.now r.0.worn r.1.items r.0.closed) }
    ensures mark { IfOk result (λ r. HasMark sites.mark r.0.closed) }
{
    let performed = perform(alloc, &mut sites, scenario)?;
    let stuck = match performed.worn {
        Some(_) => Vec::new(alloc),
        None => stuck_of(alloc, scenario, &performed.done)?,
    };
    let played = close(alloc, sites, performed.worn)?;
    Ok((played, stuck))
}

/// The scripts that are stuck, where so many commands of each were done.
fn stuck_of(alloc: Global, scenario: &Scenario, done: &[usize]) -> Result<Vec<Stuck>, AllocError>
    requires counted { length done.now ≡ length scenario.now.scripts }
    requires keeps { Keeps scenario.now }
    ensures { IfOk result (λ stuck. stuck.items ≡ stuck_of scenario.now done.now) }
{
    let mut stuck = Vec::new(alloc);
    for index in 0..scenario.scripts().len() {
        let next = done[index];
        if next < scenario.scripts()[index].commands().len() {
            stuck.push(Stuck {
                script: index as u32 + 1,
                command: next as u32 + 1,
            })?;
        }
    }
    Ok(stuck)
}
