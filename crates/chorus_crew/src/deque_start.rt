//! The jobs come into the deque, and the workers get their passes of it.
ghost use Rattle.std.specs.Prelude.{◌≡◌, ◌+◌, ◌≤◌, ◌<◌, [], length, vec_len, vec_capacity};
ghost use Rattle.std.specs.List.{All};
ghost use Rattle.crossbeam_deque.specs.Handles.{worker_deque, worker_flavor, worker_view};
ghost use Rattle.chorus_crew.specs.Rule.{share};
ghost use Rattle.chorus_crew.specs.Deals.{IsDealt, AreReady};

use crate::job::{Done, Job};
use crate::rule::{Deal, Owner, Puts};
use crate::worker::Hand;

/// Puts the jobs into the deque. A job that the deque refuses is kept for the caller.
pub(crate) fn put_jobs(owner: &mut Owner, jobs: &mut Vec<Job>, refused: &mut Vec<Job>)
    requires view { worker_view owner.old ≡ share 1024 [] [] }
    requires room { (refused.old.items ≡ []) × (vec_len jobs.old ≤ vec_capacity refused.old) }
    ensures deque { (worker_deque owner.new ≡ worker_deque owner.old)
        × (worker_flavor owner.new ≡ worker_flavor owner.old) }
    ensures dealt { IsDealt jobs.old.items (worker_view owner.new) refused.new.items [] }
{
    while let Some(job) = jobs.pop() {
        match owner.push_as::<Puts>(job) {
            Ok(()) => {}
            Err(job) => refused.push_reserved(job),
        }
    }
}

/// Gives each worker a pass of the deque, with a part.
pub(crate) fn give_passes<S: Drop>(
    owner: &mut Owner,
    rooms: &mut Vec<Vec<Done<S>>>,
    hands: &mut Vec<Hand<S>>,
)
    requires parts { vec_len rooms.old < (worker_view owner.old).parts }
    requires room { (hands.old.items ≡ []) × (vec_len rooms.old ≤ vec_capacity hands.old) }
    requires empty { All (λ room. room.items ≡ []) rooms.old.items }
    ensures deque { (worker_deque owner.new ≡ worker_deque owner.old)
        × (worker_flavor owner.new ≡ worker_flavor owner.old) }
    ensures hands { AreReady (worker_deque owner.old) (worker_view owner.old).put hands.new.items }
    ensures count { length hands.new.items ≡ length rooms.old.items }
    ensures view { (worker_view owner.new
        ≡ share (worker_view owner.new).parts (worker_view owner.old).put
        (worker_view owner.old).taken)
        × ((worker_view owner.new).parts + length rooms.old.items ≡ (worker_view owner.old).parts) }
{
    while let Some(done) = rooms.pop() {
        let hold = owner.another::<Deal>();
        hands.push_reserved(Hand { hold, done });
    }
}
