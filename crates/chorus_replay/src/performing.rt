//! Performing a scenario on sites.

ghost use Rattle.std.specs.Prelude.{◌≡◌, ℕ, IfOk, OnOk, IsErrOf};
ghost use Rattle.chorus_ui.specs.Layout.{IsLayout};
ghost use Rattle.chorus_scene.specs.Limits.{Keeps};
ghost use Rattle.law_network.specs.Calls.{just_started};
ghost use Rattle.chorus_replay.specs.Order.{set_up};
ghost use Rattle.chorus_replay.specs.Ordered.{AreJustStarted};
ghost use Rattle.chorus_replay.specs.Performing.{HasCome, IsAt, IsBefore, IsWornAt, NoneGoes, OpensWorn, StopsAt, to_enter, to_follow};
ghost use Rattle.chorus_replay.specs.Waiting.{BehindRound};
ghost use Rattle.chorus_net.specs.Sites.{net};

use crate::following::{finish, follow};
use chorus_net::{EnterFault, Sites};
use chorus_place::PlaceFault;
use chorus_report::setup_command;
use chorus_scene::Scenario;
use std::alloc::{AllocError, Global};

/// How a scenario was performed.
#[derive(Drop)]
pub(crate) struct Performed {
    /// The clock that was worn before all was done, if one was.
    pub(crate) worn: Option<u64>,
    /// How many commands of each script were done, where no clock was worn.
    pub(crate) done: Vec<usize>,
}

/// Performs the scenario on the sites, which were just started. Room is taken as it is needed: each place would take that of all
/// commands ahead.
pub(crate) fn perform(
    alloc: Global,
    sites: &mut Sites,
    scenario: &Scenario,
) -> Result<Performed, AllocError>
    requires just_started { AreJustStarted (net sites.old) }
    requires layout { scenario.now.layout ≡ (net sites.old).layout }
    requires keeps { Keeps scenario.now }
    requires shape { IsLayout scenario.now.layout }
    ensures ok { IfOk result
        (λ r. HasCome scenario.now r.worn r.done.items (net sites.new)) }
    ensures mark { sites.new.mark ≡ sites.old.mark }
{
    match perform_tasks(alloc, sites, scenario) {
        Ok(done) => Ok(Performed { worn: None, done }),
        Err(PlaceFault::Worn { clock }) => Ok(Performed {
            worn: Some(clock),
            done: Vec::new(alloc),
        }),
        Err(PlaceFault::Memory(error)) => Err(error),
    }
}

/// Performs the setup by seat 0, enters the callers of the scripts, does the steps of the schedule, and lets the scripts go on. Gives for
/// each script how many of its commands were done.
fn perform_tasks(
    alloc: Global,
    sites: &mut Sites,
    scenario: &Scenario,
) -> Result<Vec<usize>, PlaceFault>
    requires start { net sites.old ≡ just_started scenario.now.layout }
    requires keeps { Keeps scenario.now }
    requires shape { IsLayout scenario.now.layout }
    ensures at { IfOk result
        (λ done. IsAt scenario.now BehindRound done.items (net sites.new)) }
    ensures none { IfOk result (λ done. NoneGoes scenario.now done.items (net sites.new)) }
    ensures worn { (clock : ℕ) → IsErrOf result (PlaceFault.Worn clock) →
        StopsAt scenario.now clock (net sites.new) }
    ensures mark { sites.new.mark ≡ sites.old.mark }
{
    set_up(sites, scenario)?;
    enter(sites, scenario)?;
    let mut done = follow(alloc, sites, scenario)?;
    finish(sites, scenario, &mut done)?;
    Ok(done)
}

/// Performs the scenario's setup by seat 0, on sites that were just started: the first part of a replay.
///
/// A clock that is worn ends it with the commands before done; of want of memory nothing is said.
pub fn set_up(sites: &mut Sites, scenario: &Scenario) -> Result<(), PlaceFault>
    requires start { net sites.old ≡ just_started scenario.now.layout }
    requires keeps { Keeps scenario.now }
    requires shape { IsLayout scenario.now.layout }
    ensures ok { OnOk result (IsBefore scenario.now (to_enter scenario.now) (net sites.new)) }
    ensures now { OnOk result (net sites.new ≡ set_up scenario.now) }
    ensures worn { (clock : ℕ) → IsErrOf result (PlaceFault.Worn clock) →
        IsWornAt scenario.now clock (net sites.new) }
    ensures early { (clock : ℕ) → IsErrOf result (PlaceFault.Worn clock) →
        OpensWorn scenario.now clock (net sites.new) }
    ensures mark { sites.new.mark ≡ sites.old.mark }
{
    for line in scenario.setup() {
        sites.act(0, setup_command(line))?;
    }
    Ok(())
}

/// Enters a seat for each script behind [`set_up`], so that script k has seat k: the second part of a replay.
///
/// Want of memory is the one error, with the scripts before entered.
pub fn enter(sites: &mut Sites, scenario: &Scenario) -> Result<(), AllocError>
    requires before { IsBefore scenario.now (to_enter scenario.now) (net sites.old) }
    requires now { net sites.old ≡ set_up scenario.now }
    requires keeps { Keeps scenario.now }
    requires shape { IsLayout scenario.now.layout }
    ensures ok { OnOk result (IsBefore scenario.now (to_follow scenario.now) (net sites.new)) }
    ensures mark { sites.new.mark ≡ sites.old.mark }
{
    for script in scenario.scripts() {
        match sites.enter(script.actor()) {
            Ok(_) => {}
            Err(EnterFault::Memory(error)) => return Err(error),
            Err(EnterFault::NoActor) => unreachable!(),
            Err(EnterFault::NoSeat { .. }) => unreachable!(),
        }
    }
    Ok(())
}
