//! The crew handles what waits.
ghost use Rattle.std.specs.Prelude.{◌≡◌, ◌≤◌, ◌+◌, ℕ, None, Some, IfOk, IsErrOf};
ghost use Rattle.chorus_nucleus.specs.Passes.{layout_of, worn_by, IsPassOf};
ghost use Rattle.chorus_perform.specs.Scripts.{IsKeeper, IsOpening};
ghost use Rattle.chorus_crew.specs.Crews.{HasHandled};
ghost use Rattle.chorus_crew.specs.Retiring.{IsRetired};
ghost use Rattle.chorus_run.specs.declared.drawn_crew.draws.TheConstants.{DRAWS_LIMIT};
ghost use Rattle.chorus_run.specs.declared.drawn_crew.names.TheConstants.{CREW_PORTS};
ghost use Rattle.chorus_run.specs.DrawnCrew.Names.{crew_pairs};
ghost use Rattle.chorus_run.specs.DrawnCrew.Value.{message_value};
ghost use Rattle.chorus_run.specs.DrawnCrew.Takes.{HasAllNotes, HasCrewed};

use crate::drawn_crew::decimals::Decimals;
use crate::drawn_crew::filling::fill;
use crate::drawn_crew::names::crew_pairs;
use chorus_crew::{CrewFault, Handled, crew};
use chorus_nucleus::{Nucleus, Pass};
use chorus_perform::{Halted, Stopped};
use std::alloc::{AllocError, Global};
use std::sync::Wait;
use std::thread::Threads;

/// How many workers the crew has.
const CREW_WORKERS: u16 = 4;

/// Fills the ports, and lets a crew handle all that waits in them. Whatever comes of it, all passes are retired into
/// this one.
pub(crate) fn fill_and_handle<R: Threads + Wait + Sync>(
    alloc: Global,
    rt: &R,
    nucleus: &Nucleus,
    pass: &mut Pass,
    first: u64,
    commands: u32,
) -> Result<Vec<Handled>, Stopped>
    requires pass { IsPassOf nucleus.now pass.old }
    requires opening { IsOpening pass.old }
    requires sites { CREW_PORTS ≤ (layout_of nucleus.now).sites }
    requires commands { commands ≤ DRAWS_LIMIT }
    ensures back { HasAllNotes nucleus.now pass.new }
    ensures ok { IfOk result (λ handled.
        HasCrewed nucleus.now first commands handled.items pass.new) }
    ensures worn { (clock : ℕ) → IsErrOf result (Stopped.Worn clock) →
        worn_by pass.new ≡ Some clock }
{
    let filled = fill(alloc, rt, nucleus, pass, first, commands);
    if let Some(clock) = pass.worn() {
        return Err(Stopped::Worn { clock });
    }
    match filled {
        Ok(()) => handle(alloc, rt, nucleus, pass),
        Err(Halted) => Err(Stopped::Memory(AllocError)),
    }
}

/// Lets a crew handle what waits in the ports that were filled with drawn messages.
fn handle<R: Threads + Wait + Sync>(
    alloc: Global,
    rt: &R,
    nucleus: &Nucleus,
    pass: &mut Pass,
) -> Result<Vec<Handled>, Stopped>
    requires pass { IsPassOf nucleus.now pass.old }
    requires keeper { IsKeeper 0 pass.old }
    requires unworn { worn_by pass.old ≡ None }
    requires sites { CREW_PORTS ≤ (layout_of nucleus.now).sites }
    ensures retired { IsRetired nucleus.now pass.old pass.new }
    ensures ok { IfOk result (λ handled.
        HasHandled message_value nucleus.now crew_pairs handled.items pass.old pass.new) }
    ensures worn { (clock : ℕ) → IsErrOf result (Stopped.Worn clock) →
        worn_by pass.new ≡ Some clock }
{
    let pairs = crew_pairs();
    match crew(rt, alloc, nucleus, pass, &pairs, CREW_WORKERS, &Decimals) {
        Ok(handled) => Ok(handled),
        Err(CrewFault::Memory(error)) => Err(Stopped::Memory(error)),
        Err(CrewFault::Worn { clock }) => Err(Stopped::Worn { clock }),
        Err(CrewFault::NoSeat { .. }) => unreachable!(),
    }
}
