//! All that a crew takes memory for, before the first pass is drawn.
ghost use Rattle.std.specs.Prelude.{◌≡◌, None, Option, [], IfOk, length};
ghost use Rattle.std.specs.List.{All};
ghost use Rattle.std.specs.Global.{Vec};
ghost use Rattle.chorus_crew.specs.declared.job.Done.{Done};
ghost use Rattle.chorus_crew.specs.Tools.{AreTools};

use crate::job::{Done, Job};
use crate::pairs::PAIRS_LIMIT;
use crate::rule::{Owner, Thief};
use crate::worker::Hand;
use std::alloc::{AllocError, Global};

/// What the jobs are shared by, done with and collected in.
#[derive(Drop)]
pub(crate) struct Tools<S> {
    pub(crate) owner: Owner,
    pub(crate) thief: Thief,
    pub(crate) rooms: Vec<Vec<Done<S>>>,
    pub(crate) hands: Vec<Hand<S>>,
    pub(crate) jobs: Vec<Job>,
    pub(crate) refused: Vec<Job>,
    pub(crate) slots: Vec<Option<Done<S>>>,
}

/// One of a crew's tools: for each worker, memory for all jobs that it may do.
fn rooms_for<S: Drop>(
    alloc: Global,
    count: usize,
    workers: usize,
) -> Result<Vec<Vec<Done<S>>>, AllocError>
    ensures { IfOk result (λ r. (length r.items ≡ workers)
        × All (λ (room : Vec (Done S)). room.items ≡ []) r.items) }
{
    let mut rooms = Vec::with_capacity(alloc, workers)?;
    for _ in 0..workers {
        rooms.push(Vec::with_capacity(alloc, count)?)?;
    }
    Ok(rooms)
}

/// One of a crew's tools: a slot for each job.
fn slots_for<S: Drop>(alloc: Global, count: usize) -> Result<Vec<Option<Done<S>>>, AllocError>
    ensures { IfOk result (λ r. (length r.items ≡ count)
        × All (λ (s : Option (Done S)). s ≡ None) r.items) }
{
    let mut slots = Vec::with_capacity(alloc, count)?;
    for _ in 0..count {
        slots.push(None)?;
    }
    Ok(slots)
}

/// The tools of a crew of so many workers for so many jobs.
pub(crate) fn tools_for<S: Drop>(
    alloc: Global,
    count: usize,
    workers: usize,
) -> Result<Tools<S>, AllocError>
    ensures { IfOk result (AreTools count workers) }
{
    let owner = Owner::fifo_as(alloc, PAIRS_LIMIT)?;
    let thief = owner.stealer()?;
    Ok(Tools {
        owner,
        thief,
        rooms: rooms_for(alloc, count, workers)?,
        hands: Vec::with_capacity(alloc, workers)?,
        jobs: Vec::with_capacity(alloc, count)?,
        refused: Vec::with_capacity(alloc, count)?,
        slots: slots_for(alloc, count)?,
    })
}
