//! The passes of the scripts come and go.

ghost use Rattle.std.specs.Prelude.{◌≡◌, ◌≤◌, [], length, OnOk};
ghost use Rattle.std.specs.Vec.{vec_len, vec_capacity};
ghost use Rattle.chorus_nucleus.specs.Passes.{caller_of, known, IsPassOf};
ghost use Rattle.chorus_nucleus.specs.Coming.{Retires};
ghost use Rattle.chorus_perform.specs.Scripts.{IsKeeper, IsScenarioOf};
ghost use Rattle.chorus_perform.specs.Runners.{AreEnding, AreEntered, HasEntered, HasRetired, both};

use crate::runner::Runner;
use crate::stopped::Halted;
use chorus_net::EnterFault;
use chorus_nucleus::{Nucleus, Pass};
use chorus_scene::Scenario;

/// Enters a pass for each script, in their order, for which there is room.
pub(crate) fn enter(
    nucleus: &Nucleus,
    pass: &mut Pass,
    scenario: &Scenario,
    runners: &mut Vec<Runner>,
) -> Result<(), Halted>
    requires pass { IsPassOf nucleus.now pass.old }
    requires keeper { IsKeeper 0 pass.old }
    requires scenario { IsScenarioOf nucleus.now scenario.now }
    requires room { (runners.old.items ≡ [])
        × (length scenario.now.scripts ≤ vec_capacity runners.old) }
    ensures pass { IsPassOf nucleus.now pass.new }
    ensures entered { HasEntered (vec_len runners.new) pass.old pass.new }
    ensures runners { AreEntered nucleus.now scenario.now (caller_of pass.old).last
        runners.new.items }
    ensures all { OnOk result (vec_len runners.new ≡ length scenario.now.scripts) }
{
    for index in 0..scenario.scripts().len() {
        let entered = match nucleus.enter(pass, scenario.scripts()[index].actor()) {
            Ok(entered) => entered,
            Err(EnterFault::Memory(_)) => return Err(Halted),
            Err(EnterFault::NoActor) => unreachable!(),
            Err(EnterFault::NoSeat { .. }) => unreachable!(),
        };
        let runner = Runner {
            pass: entered,
            ended: Err(Halted),
        };
        match runners.push(runner) {
            Ok(()) => {}
            Err(_) => unreachable!(),
        }
    }
    Ok(())
}

/// Retires the passes of the scripts, that of the last first. Whether each performed all of its script; an error where one halted.
pub(crate) fn retire(
    nucleus: &Nucleus,
    mut runners: Vec<Runner>,
    pass: &mut Pass,
    scenario: &Scenario,
) -> Result<bool, Halted>
    requires pass { IsPassOf nucleus.now pass.old }
    requires notes { (known pass.old).notes ≡ [] }
    requires ending { AreEnding nucleus.now scenario.now (caller_of pass.old).last runners.items }
    ensures pass { IsPassOf nucleus.now pass.new }
    ensures retired { HasRetired result scenario.now 0 (vec_len runners) pass.old pass.new }
{
    let _scenario = scenario; // for what is said of it
    let mut how = Ok(true);
    while let Some(runner) = runners.pop() {
        how = both(retire_one(nucleus, runner, pass), how);
    }
    how
}

/// How two scripts ended: whether both were performed whole, or that one halted.
fn both(one: Result<bool, Halted>, other: Result<bool, Halted>) -> Result<bool, Halted>
    ensures { result ≡ both one other }
{
    match one {
        Ok(whole) => Ok(whole & other?),
        Err(Halted) => Err(Halted),
    }
}

/// Retires the pass of one script. How that ended.
fn retire_one(nucleus: &Nucleus, runner: Runner, pass: &mut Pass) -> Result<bool, Halted>
    requires pass { IsPassOf nucleus.now pass.old }
    requires own { IsPassOf nucleus.now runner.pass }
    ensures retires { Retires nucleus.now runner.pass pass.old pass.new }
    ensures ended { result ≡ runner.ended }
{
    let Runner { pass: own, ended } = runner;
    nucleus.retire(own, pass);
    ended
}
