//! A job is made for each pair of a port and an actor.
ghost use Rattle.std.specs.Prelude.{◌≡◌, ◌+◌, ◌≤◌, ◌<◌, [], true, IfOk, OnOk, OnErr, length, vec_capacity};
ghost use Rattle.chorus_ui.specs.Layout.{has_actor};
ghost use Rattle.chorus_ui.specs.NameKind.{is_actor};
ghost use Rattle.chorus_turn.specs.Knowing.{limit, after_draw};
ghost use Rattle.chorus_nucleus.specs.Passes.{layout_of, known, caller_of, IsPassOf};
ghost use Rattle.chorus_nucleus.specs.Coming.{IsKeptKeeper};
ghost use Rattle.chorus_crew.specs.declared.job.Job.{Job};
ghost use Rattle.chorus_crew.specs.Jobs.{IsEntered, AreEntered, AreTheActors, BeginAt, HasDrawn};
ghost use Rattle.chorus_crew.specs.Retiring.{HasTakenNothing, IsRetired};

use crate::job::Job;
use crate::retiring::retire_jobs;
use chorus_net::EnterFault;
use chorus_nucleus::{Nucleus, Pass};
use chorus_ui::Ui;
use std::alloc::AllocError;

/// Makes the job of a crew for a pair. The only error is want of memory.
fn enter_one(
    nucleus: &Nucleus,
    pass: &mut Pass,
    index: usize,
    port: Ui,
    actor: Ui,
) -> Result<Job, AllocError>
    requires pass { IsPassOf nucleus.now pass.old }
    requires keeper { (known pass.old).keeper ≡ true }
    requires actor { (is_actor actor ≡ true) × (has_actor (layout_of nucleus.now) actor ≡ true) }
    requires seat { (known pass.old).made < limit }
    ensures kept { IsKeptKeeper nucleus.now pass.old pass.new }
    ensures ok { IfOk result (λ j. IsEntered nucleus.now index (known pass.old).made (port, actor) j
        × (known pass.new ≡ after_draw (known pass.old))) }
    ensures last { IfOk result (λ j. (caller_of j.pass).last ≡ (caller_of pass.old).last) }
    ensures refused { OnErr result (known pass.new ≡ known pass.old) }
{
    match nucleus.enter(pass, actor) {
        Ok(entered) => Ok(Job {
            index,
            port,
            pass: entered,
        }),
        Err(EnterFault::Memory(fault)) => Err(fault),
        Err(EnterFault::NoActor) => unreachable!(),
        Err(EnterFault::NoSeat { made: _ }) => unreachable!(),
    }
}

/// Makes a job for each pair, in order. At an error, which is want of memory, those that were made are retired again.
pub(crate) fn enter_all(
    nucleus: &Nucleus,
    pass: &mut Pass,
    ports: &[(Ui, Ui)],
    jobs: &mut Vec<Job>,
) -> Result<(), AllocError>
    requires pass { IsPassOf nucleus.now pass.old }
    requires keeper { (known pass.old).keeper ≡ true }
    requires actors { AreTheActors (layout_of nucleus.now) ports.now }
    requires seats { (known pass.old).made + length ports.now ≤ limit }
    requires room { (jobs.old.items ≡ []) × (length ports.now ≤ vec_capacity jobs.old) }
    ensures ok { OnOk result (HasDrawn nucleus.now (length ports.now) pass.old pass.new
        × AreEntered nucleus.now 0 (known pass.old).made ports.now jobs.new.items
        × BeginAt (caller_of pass.old).last jobs.new.items) }
    ensures retired { OnErr result (IsRetired nucleus.now pass.old pass.new) }
    ensures nothing { OnErr result (HasTakenNothing pass.old pass.new) }
{
    for (index, (port, actor)) in ports.iter().enumerate() {
        match enter_one(nucleus, pass, index, *port, *actor) {
            Ok(job) => jobs.push_reserved(job),
            Err(fault) => {
                retire_jobs(nucleus, pass, jobs);
                return Err(fault);
            }
        }
    }
    Ok(())
}
