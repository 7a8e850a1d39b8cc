//! Passes end in the caller's.
ghost use Rattle.std.specs.Prelude.{◌≡◌, cond, false, is_none, ◌≤◌, [], List, length, reverse, map, vec_capacity};
ghost use Rattle.std.specs.List.{All};
ghost use Rattle.chorus_turn.specs.Lists.{somes};
ghost use Rattle.chorus_nucleus.specs.Passes.{worn_by, IsPassOf};
ghost use Rattle.chorus_crew.specs.declared.job.Job.{Job};
ghost use Rattle.chorus_crew.specs.declared.job.Done.{Done};
ghost use Rattle.chorus_crew.specs.Endings.{fault_of};
ghost use Rattle.chorus_crew.specs.Jobs.{IsPlain};
ghost use Rattle.chorus_crew.specs.Retiring.{IsFullSlot, TakesIn, passes_of, folded_of, folded_with, is_done, worn_of};

use crate::folding::{EndedBy, Folded};
use crate::job::{Done, Job, Tally};
use chorus_nucleus::{Nucleus, Pass};
use chorus_ui::Ui;

/// Retires the passes of all jobs, from the last on.
pub(crate) fn retire_jobs(nucleus: &Nucleus, pass: &mut Pass, jobs: &mut Vec<Job>)
    requires pass { IsPassOf nucleus.now pass.old }
    requires jobs { All (λ (j : Job). IsPlain nucleus.now j.pass) jobs.old.items }
    ensures { TakesIn nucleus.now pass.old pass.new
        (map (λ (j : Job). j.pass) (reverse jobs.old.items)) }
{
    while let Some(job) = jobs.pop() {
        nucleus.retire(job.pass, pass);
    }
}

/// What a job gives.
fn folded_by<S>(port: Ui, tally: Tally<S>) -> Folded<S>
    ensures { result ≡ folded_with port tally }
{
    let Tally {
        from,
        count,
        state,
        ended,
    } = tally;
    Folded {
        port,
        from,
        count,
        state,
        ended,
    }
}

/// Whether all jobs were done to their end, with one more that a fault stopped or not.
fn are_whole(all: bool, ended: EndedBy) -> bool
    ensures { result ≡ cond all (is_none (fault_of ended)) false }
{
    all && ended.fault().is_none()
}

/// Retires the passes of all jobs that are done, in order, collects what they gave, and says whether each was done to
/// its end.
pub(crate) fn retire_done<S: Drop>(
    nucleus: &Nucleus,
    pass: &mut Pass,
    slots: &mut Vec<Option<Done<S>>>,
    folded: &mut Vec<Folded<S>>,
) -> bool
    requires pass { IsPassOf nucleus.now pass.old }
    requires slots { All (IsFullSlot nucleus.now) slots.old.items }
    requires room { (folded.old.items ≡ []) × (length slots.old.items ≤ vec_capacity folded.old) }
    ensures retired { (dones : List (Done S)) → slots.old.items ≡ somes dones →
        TakesIn nucleus.now pass.old pass.new (passes_of dones) }
    ensures worn { (dones : List (Done S)) → slots.old.items ≡ somes dones →
        worn_by pass.new ≡ worn_of (worn_by pass.old) dones }
    ensures folded { (dones : List (Done S)) → slots.old.items ≡ somes dones →
        folded.new.items ≡ folded_of dones }
    ensures done { (dones : List (Done S)) → slots.old.items ≡ somes dones →
        result ≡ is_done dones }
{
    let mut all = true;
    slots.reverse();
    while let Some(slot) = slots.pop() {
        match slot {
            Some(done) => {
                let Done {
                    index: _,
                    port,
                    pass: theirs,
                    tally,
                } = done;
                nucleus.retire(theirs, pass);
                all = are_whole(all, tally.ended);
                folded.push_reserved(folded_by(port, tally));
            }
            None => unreachable!(),
        }
    }
    all
}
