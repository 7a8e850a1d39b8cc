//! The schedule of a scenario, and the rounds in which scripts go on behind it.

ghost use Rattle.std.specs.Prelude.{◌≡◌, ℕ, ◌+◌, ◌<◌, [], length, drop, sum, IfOk, OnOk, IsErrOf};
ghost use Rattle.chorus_ui.specs.Layout.{IsLayout};
ghost use Rattle.chorus_scene.specs.Limits.{Keeps};
ghost use Rattle.chorus_report.specs.Awaiting.{all_scripts};
ghost use Rattle.chorus_replay.specs.Waiting.{InSchedule, InRound, BehindRound, IsScript};
ghost use Rattle.chorus_replay.specs.Performing.{GoesFarther, GoesIf, IsAt, IsBefore, MayDo, NoneGoes, SomeGoes, StopsAt, Wears, from_script, to_follow};
ghost use Rattle.chorus_net.specs.Sites.{net};

use crate::awaiting::{may_any, may_go_on};
use chorus_net::Sites;
use chorus_place::PlaceFault;
use chorus_scene::{COMMANDS_LIMIT, SCRIPTS_LIMIT, Scenario, Step};
use std::alloc::Global;

/// Does the steps of the schedule, in their order, and gives for each script how many of its commands were done.
pub(crate) fn follow(
    alloc: Global,
    sites: &mut Sites,
    scenario: &Scenario,
) -> Result<Vec<usize>, PlaceFault>
    requires before { IsBefore scenario.now (to_follow scenario.now) (net sites.old) }
    requires keeps { Keeps scenario.now }
    requires shape { IsLayout scenario.now.layout }
    ensures ok { IfOk result
        (λ done. IsAt scenario.now (InSchedule []) done.items (net sites.new)) }
    ensures worn { (clock : ℕ) → IsErrOf result (PlaceFault.Worn clock) →
        StopsAt scenario.now clock (net sites.new) }
    ensures mark { sites.new.mark ≡ sites.old.mark }
{
    let mut done: Vec<usize> = vec![in alloc; 0; scenario.scripts().len()]?;
    for index in 0..scenario.schedule().len() {
        take_step(sites, scenario, index, &mut done)?;
    }
    Ok(done)
}

/// Does the step of the schedule that stands at the index. A step of a script whose await may not come does nothing, as a delivery
/// that finds nothing.
fn take_step(
    sites: &mut Sites,
    scenario: &Scenario,
    index: usize,
    done: &mut Vec<usize>,
) -> Result<(), PlaceFault>
    requires index { index < length scenario.now.schedule }
    requires at { IsAt scenario.now (InSchedule (drop index scenario.now.schedule))
        done.old.items (net sites.old) }
    requires keeps { Keeps scenario.now }
    requires shape { IsLayout scenario.now.layout }
    ensures ok { OnOk result (IsAt scenario.now
        (InSchedule (drop (index + 1) scenario.now.schedule)) done.new.items (net sites.new)) }
    ensures worn { (clock : ℕ) → IsErrOf result (PlaceFault.Worn clock) →
        StopsAt scenario.now clock (net sites.new) }
    ensures mark { sites.new.mark ≡ sites.old.mark }
{
    match scenario.schedule()[index] {
        Step::Step(seat) => {
            go_on(sites, scenario, seat, done)?;
        }
        Step::Deliver(from, to) => {
            sites.deliver(from, to)?;
        }
        Step::Drain => {
            sites.drain()?;
        }
    }
    Ok(())
}

/// Lets the script of this number, from 1, do its next command, if it may go on, and says whether it did.
fn go_on(
    sites: &mut Sites,
    scenario: &Scenario,
    seat: u32,
    done: &mut Vec<usize>,
) -> Result<bool, PlaceFault>
    requires script { IsScript scenario.now seat }
    requires counted { length done.old.items ≡ length scenario.now.scripts }
    requires may { MayDo scenario.now done.old.items seat (net sites.old) }
    requires keeps { Keeps scenario.now }
    ensures ok { IfOk result (λ went. GoesIf went scenario.now seat
        done.old.items done.new.items (net sites.old) (net sites.new)) }
    ensures worn { (clock : ℕ) → IsErrOf result (PlaceFault.Worn clock) → Wears
        scenario.now seat clock done.old.items (net sites.old) (net sites.new) }
    ensures mark { sites.new.mark ≡ sites.old.mark }
{
    if !may_go_on(sites, scenario, seat, done) {
        return Ok(false);
    }
    let index = seat as usize - 1;
    let command = scenario.scripts()[index].commands()[done[index]].copied()?;
    sites.act(seat, command)?;
    done[index] += 1;
    Ok(true)
}

/// One more than the most rounds: behind the first each one does a command.
const ROUNDS_LIMIT: u32 = (SCRIPTS_LIMIT * COMMANDS_LIMIT) as u32 + 2;

/// Lets the scripts go on, round by round, until none may go on.
pub(crate) fn finish(
    sites: &mut Sites,
    scenario: &Scenario,
    done: &mut Vec<usize>,
) -> Result<(), PlaceFault>
    requires at { IsAt scenario.now (InSchedule []) done.old.items (net sites.old) }
    requires keeps { Keeps scenario.now }
    requires shape { IsLayout scenario.now.layout }
    ensures at { OnOk result (IsAt scenario.now BehindRound done.new.items (net sites.new)) }
    ensures none { OnOk result (NoneGoes scenario.now done.new.items (net sites.new)) }
    ensures worn { (clock : ℕ) → IsErrOf result (PlaceFault.Worn clock) →
        StopsAt scenario.now clock (net sites.new) }
    ensures mark { sites.new.mark ≡ sites.old.mark }
{
    for _round in 0..ROUNDS_LIMIT {
        round(sites, scenario, done)?;
        if !may_any(sites, scenario, done) {
            return Ok(());
        }
    }
    unreachable!()
}

/// One round: script by script, each goes on until it is done or its await may not come; then packets are worked off.
fn round(sites: &mut Sites, scenario: &Scenario, done: &mut Vec<usize>) -> Result<(), PlaceFault>
    requires at { IsAt scenario.now (InRound (all_scripts scenario.now))
        done.old.items (net sites.old) }
    requires keeps { Keeps scenario.now }
    requires shape { IsLayout scenario.now.layout }
    ensures ok { OnOk result (IsAt scenario.now BehindRound done.new.items (net sites.new)) }
    ensures more { OnOk result (SomeGoes scenario.now done.old.items (net sites.old) →
        sum done.old.items < sum done.new.items) }
    ensures worn { (clock : ℕ) → IsErrOf result (PlaceFault.Worn clock) →
        StopsAt scenario.now clock (net sites.new) }
    ensures mark { sites.new.mark ≡ sites.old.mark }
{
    for index in 0..scenario.scripts().len() {
        finish_script(sites, scenario, index as u32 + 1, done)?;
    }
    sites.drain()?;
    Ok(())
}

/// Lets the script of this number, from 1, go on as long as it may, with a drain behind each command.
fn finish_script(
    sites: &mut Sites,
    scenario: &Scenario,
    seat: u32,
    done: &mut Vec<usize>,
) -> Result<(), PlaceFault>
    requires script { IsScript scenario.now seat }
    requires at { IsAt scenario.now (InRound (from_script scenario.now seat))
        done.old.items (net sites.old) }
    requires keeps { Keeps scenario.now }
    requires shape { IsLayout scenario.now.layout }
    ensures ok { OnOk result (IsAt scenario.now (InRound (from_script scenario.now (seat + 1)))
        done.new.items (net sites.new)) }
    ensures more { OnOk result (GoesFarther scenario.now seat
        done.old.items done.new.items (net sites.old) (net sites.new)) }
    ensures worn { (clock : ℕ) → IsErrOf result (PlaceFault.Worn clock) →
        StopsAt scenario.now clock (net sites.new) }
    ensures mark { sites.new.mark ≡ sites.old.mark }
{
    while go_on(sites, scenario, seat, done)? {
        sites.drain()?;
    }
    Ok(())
}
