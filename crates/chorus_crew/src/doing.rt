//! The jobs are done, by threads that steal them.
ghost use Rattle.std.specs.Prelude.{◌≡◌, ◌≤◌, ◌<◌, List};
ghost use Rattle.std.specs.List.{All};
ghost use Rattle.chorus_turn.specs.Lists.{somes};
ghost use Rattle.chorus_crew.specs.declared.job.Done.{Done};
ghost use Rattle.chorus_crew.specs.Jobs.{IsJobOf, IsNumbered, AreDoneOf};
ghost use Rattle.chorus_crew.specs.Tools.{AreReadyTools};

use crate::deque_start::{give_passes, put_jobs};
use crate::folding::Fold;
use crate::gather::{do_left, do_refused, take_in};
use crate::job::Done;
use crate::tools::Tools;
use crate::worker::all_steal;
use chorus_nucleus::Nucleus;
use std::sync::Wait;
use std::thread::Threads;

/// Does the jobs of the tools, each in the slot of its number: workers steal them out of the deque, and what they leave
/// there, or what found no room there, the caller does itself.
pub(crate) fn do_jobs<F: Fold, R: Threads + Wait + Sync>(
    rt: &R,
    nucleus: &Nucleus,
    fold: &F,
    tools: Tools<F::State>,
    workers: usize,
) -> Vec<Option<Done<F::State>>>
    requires workers { (0 < workers) × (workers ≤ 16) }
    requires tools { AreReadyTools workers tools }
    requires jobs { All (IsJobOf nucleus.now) tools.jobs.items }
    requires numbers { IsNumbered tools.jobs.items }
    ensures { (dones : List (Done F.State)) × (result.items ≡ somes dones)
        × AreDoneOf (F.way fold.now) nucleus.now tools.jobs.items dones }
{
    let Tools {
        mut owner,
        thief,
        mut rooms,
        mut hands,
        mut jobs,
        mut refused,
        mut slots,
    } = tools;
    put_jobs(&mut owner, &mut jobs, &mut refused);
    give_passes(&mut owner, &mut rooms, &mut hands);
    all_steal(rt, nucleus, &thief, fold, hands.as_mut_slice(), workers);
    take_in(nucleus, fold, &mut owner, &mut hands, &mut slots);
    do_left(rt, nucleus, fold, &mut owner, &mut slots);
    do_refused(rt, nucleus, fold, &mut refused, &mut slots);
    slots
}
