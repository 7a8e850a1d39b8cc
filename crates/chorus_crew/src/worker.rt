//! A worker.
ghost use Rattle.std.specs.Prelude.{◌≡◌, ◌<◌, ℕ, length, slice_index_or};
ghost use Rattle.std.specs.List.{All};
ghost use Rattle.chorus_crew.specs.declared.worker.Hand.{Hand};
ghost use Rattle.crossbeam_deque.specs.Handles.{stealer_deque, view};
ghost use Rattle.chorus_crew.specs.Hands.{Begins, Ends};

use crate::folding::Fold;
use crate::job::Done;
use crate::one_job::perform;
use crate::rule::{Hold, Takes, Thief};
use chorus_nucleus::Nucleus;
use crossbeam_deque::Steal;
use std::sync::Wait;
use std::thread;
use std::thread::Threads;

/// A worker: its pass of the deque, and the jobs that it has done. There is room for all.
#[derive(Drop)]
pub struct Hand<S> {
    pub hold: Hold,
    pub done: Vec<Done<S>>,
}

/// Steals jobs and does them, until the deque is found empty.
pub(crate) fn steal_all<F: Fold, R: Wait>(
    rt: &R,
    nucleus: &Nucleus,
    thief: &Thief,
    fold: &F,
    hand: &mut Hand<F::State>,
)
    requires { Begins (stealer_deque thief.now) nucleus.now (view hand.old.hold).put hand.old }
    ensures { Ends (F.way fold.now) (stealer_deque thief.now) nucleus.now
        (view hand.old.hold).put hand.new }
{
    for _ in rt.forever() {
        if hand.done.len() >= hand.done.capacity() {
            return;
        }
        match thief.steal_as::<Takes>(&mut hand.hold) {
            Steal::Success(job) => {
                let done = perform(rt, nucleus, fold, job);
                hand.done.push_reserved(done);
            }
            Steal::Empty => return,
            Steal::Retry => {}
        }
    }
    unreachable!()
}

/// All workers steal and do jobs, in so many threads.
pub(crate) fn all_steal<F: Fold, R: Threads + Wait + Sync>(
    rt: &R,
    nucleus: &Nucleus,
    thief: &Thief,
    fold: &F,
    hands: &mut [Hand<F::State>],
    workers: usize,
)
    requires workers { 0 < workers }
    requires begins { All (λ (h : Hand F.State). Begins (stealer_deque thief.now) nucleus.now
        (view h.hold).put h) hands.old }
    ensures count { length hands.new ≡ length hands.old }
    ensures ends { (i : ℕ) (d : Hand F.State) → i < length hands.old →
        Ends (F.way fold.now) (stealer_deque thief.now) nucleus.now
        (view (slice_index_or hands.old i d).hold).put (slice_index_or hands.new i d) }
{
    thread::for_each_mut(
        rt,
        hands,
        workers,
        &|_, hand: &mut Hand<F::State>|
            requires { Begins (stealer_deque thief.now) nucleus.now (view hand.now.hold).put
                hand.now }
            ensures { Ends (F.way fold.entry.now) (stealer_deque thief.entry.now)
                nucleus.entry.now (view hand.entry.now.hold).put hand.exit.now }
        { steal_all(rt, nucleus, thief, fold, hand) },
    );
}
