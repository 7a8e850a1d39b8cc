//! What may come of the scenario that a source gives, written to a sink.

ghost use Rattle.std.specs.Prelude.{◌≡◌, ◌⊎◌};
ghost use Rattle.chorus_io.specs.Count.{Rose};
ghost use Rattle.chorus_report.specs.Output.{Writes};
ghost use Rattle.chorus_explore.specs.Ends.{EndsAsExplore};

use crate::exploration::{ExploreFault, explore_scenario};
use chorus_io::{Sink, Source, write_all};
use chorus_report::read_scenario;
use chorus_show::Status;
use chorus_ui::Layout;
use std::alloc::Global;

/// Reads the source to its end, goes over the schedules of the scenario that it gives for this layout, and writes what
/// may come of them, as [`explore_scenario`] tells it; `most` is how many events are carried out at most, those apart that are done again,
/// and `first` the state from which schedules are drawn where a limit was met.
///
/// A text that is refused ends it with its line and reason, a clock that some schedule wears with that clock; then
/// nothing is written. Want of memory is the one ending without a cause.
pub fn explore<S: Source, K: Sink>(
    alloc: Global,
    layout: Layout,
    most: u32,
    first: u64,
    source: &mut S,
    sink: &mut K,
) -> Status
    ensures { EndsAsExplore layout most first result S.left S.faults S.reliable source.old source.new
        K.held K.faults sink.old sink.new }
{
    let scenario = match read_scenario(alloc, source, layout) {
        Ok(scenario) => scenario,
        Err(status) => return status,
    };
    match explore_scenario(alloc, &scenario, most, first) {
        Ok(text) => write(sink, &text),
        Err(ExploreFault::Memory) => Status::Memory,
        Err(ExploreFault::Worn { clock }) => Status::Worn { clock },
    }
}

/// Writes the text of what may come of a scenario.
fn write<K: Sink>(sink: &mut K, text: &[u8]) -> Status
    ensures status { (result ≡ Status.Done) ⊎ (result ≡ Status.WriteFault) }
    ensures written { Writes result (K.held sink.old) (K.held sink.new) text.now }
    ensures write_fault { result ≡ Status.WriteFault →
        Rose (K.faults sink.old) (K.faults sink.new) }
{
    match write_all(sink, text) {
        Ok(()) => Status::Done,
        Err(_) => Status::WriteFault,
    }
}
