//! Whether claims hold of what may come of a scenario.

ghost use Rattle.std.specs.Prelude.{ℕ, IfOk, IsErrOf};
ghost use Rattle.chorus_explore.specs.declared.exploration.ExploreFault.TheVariants as ExploreFault;
ghost use Rattle.chorus_explore.specs.Checked.{Checks};
ghost use Rattle.chorus_explore.specs.Stages.{MayWear};

use crate::exploration::{ExploreFault, search};
use crate::level_search::Asked;
use chorus_claims::Claim;
use chorus_scene::Scenario;
use explore_report::Explored;
use std::alloc::Global;

/// Goes over the schedules of the scenario, and carries out so many events at most: gives what was found of each claim, which is asked
/// at the end of each schedule, or, with `throughout`, at each moment. Nothing is kept but the first moment at which a claim is not met,
/// a claim that failed is not asked again, and where all have failed the search ends.
///
/// Worn comes only where a schedule wears that clock; want of memory is free.
pub fn check_scenario(
    alloc: Global,
    scenario: &Scenario,
    claims: &[Claim],
    most: u32,
) -> Result<Explored, ExploreFault>
    ensures checks { IfOk result (λ explored.
        Checks scenario.now claims.now most explored) }
    ensures worn { (clock : ℕ) → IsErrOf result (ExploreFault.Worn clock) →
        MayWear scenario.now clock }
{
    let asked = Asked {
        most: u64::from(most),
        claims,
        tells: false,
    };
    search(alloc, scenario, &asked)
}
