//! What may come of a scenario.

ghost use Rattle.std.specs.Prelude.{ℕ, ◌<◌, ◌^◌, IfOk, OnOk, IsErrOf};
ghost use Rattle.chorus_explore.specs.declared.exploration.ExploreFault.TheVariants as ExploreFault;
ghost use Rattle.law_replay.specs.Shown.{race_of};
ghost use Rattle.chorus_explore.specs.Events.{CarriesOut};
ghost use Rattle.chorus_explore.specs.DrawnOutcomes.{AddsDrawnIfCut};
ghost use Rattle.chorus_explore.specs.Explored.{IsExploration};
ghost use Rattle.explore_report.specs.Findings.{HaveSums};
ghost use Rattle.chorus_explore.specs.Searches.{IsOver, asks_of};
ghost use Rattle.chorus_explore.specs.Stages.{MayWear};

use crate::drawn_outcomes::add_drawn;
use crate::level_search::{Asked, go_over};
use chorus_place::PlaceFault;
use chorus_scene::Scenario;
use explore_report::{Explored, report};
use std::alloc::Global;

/// How many schedules are drawn, and followed to their ends, where a limit was met.
pub const HISTORIES_DRAWN: u32 = 200;

/// Why a scenario was not explored.
#[derive(Clone, Copy, Debug, PartialEq, Eq)]
pub enum ExploreFault {
    /// There was no memory.
    Memory,
    /// A clock came to its limit.
    Worn { clock: u64 },
}

/// Goes over the schedules of the scenario, and carries out so many events at most: gives the text of what may come. Events that are
/// done again, to come back to a position or to compare two, do not count. Where a limit was met, of the events or of the moves of a
/// history, [`HISTORIES_DRAWN`] schedules are drawn from this first state on, and what those come to that end behind the bound is told
/// too; their moves are not among the events.
///
/// At `all` nothing is missing; at `some`, where a limit was met, what is told may come all the same, and nothing is missing to which
/// a schedule of fewer moves than the bound comes. Worn comes only where a schedule wears that clock; want of memory is free.
pub fn explore_scenario(
    alloc: Global,
    scenario: &Scenario,
    most: u32,
    first: u64,
) -> Result<Vec<u8>, ExploreFault>
    ensures explored { IfOk result (λ text.
        IsExploration scenario.now most first text.items) }
    ensures worn { (clock : ℕ) → IsErrOf result (ExploreFault.Worn clock) →
        MayWear scenario.now clock }
{
    let asked = Asked {
        most: u64::from(most),
        claims: &[],
        tells: true,
    };
    let mut explored = search(alloc, scenario, &asked)?;
    tell_drawn(alloc, scenario, first, &mut explored)?;
    match report(alloc, &explored) {
        Ok(text) => Ok(text),
        Err(_) => Err(ExploreFault::Memory),
    }
}

/// Adds what the schedules come to that are drawn from this first state on, where a limit was met.
fn tell_drawn(
    alloc: Global,
    scenario: &Scenario,
    first: u64,
    explored: &mut Explored,
) -> Result<(), ExploreFault>
    requires { HaveSums explored.old.findings.items.items }
    ensures told { OnOk result (AddsDrawnIfCut scenario.now first explored.old explored.new) }
    ensures worn { (clock : ℕ) → IsErrOf result (ExploreFault.Worn clock) →
        MayWear scenario.now clock }
{
    if !explored.is_cut {
        return Ok(());
    }
    match add_drawn(alloc, scenario, first, explored) {
        Ok(()) => Ok(()),
        Err(PlaceFault::Memory(_)) => Err(ExploreFault::Memory),
        Err(PlaceFault::Worn { clock }) => Err(ExploreFault::Worn { clock }),
    }
}

/// Goes over the schedules of the scenario, for what is asked of it.
pub(crate) fn search(
    alloc: Global,
    scenario: &Scenario,
    asked: &Asked<'_>,
) -> Result<Explored, ExploreFault>
    requires { asked.now.most < 2 ^ 32 }
    ensures over { IfOk result (λ explored. IsOver scenario.now asked.now explored) }
    ensures sums { IfOk result (λ explored. HaveSums explored.findings.items.items) }
    ensures carried { IfOk result (λ explored.
        CarriesOut (asks_of asked.now) (race_of scenario.now) explored) }
    ensures worn { (clock : ℕ) → IsErrOf result (ExploreFault.Worn clock) →
        MayWear scenario.now clock }
{
    match go_over(alloc, scenario, asked) {
        Ok(explored) => Ok(explored),
        Err(PlaceFault::Memory(_)) => Err(ExploreFault::Memory),
        Err(PlaceFault::Worn { clock }) => Err(ExploreFault::Worn { clock }),
    }
}
