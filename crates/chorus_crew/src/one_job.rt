//! What a worker does with a job.
ghost use Rattle.std.specs.Prelude.{◌≡◌, ◌≢◌, ◌+◌, true, false, IfSome};
ghost use Rattle.chorus_ui.specs.NameKind.{is_port};
ghost use Rattle.chorus_nucleus.specs.Passes.{IsPassOf};
ghost use Rattle.chorus_nucleus.specs.Taking.{is_busy};
ghost use Rattle.chorus_crew.specs.Endings.{fault_of};
ghost use Rattle.chorus_crew.specs.Jobs.{IsWork, IsJobOf, IsDoneOf};

use crate::folding::{EndedBy, Fold};
use crate::job::{Done, Job, Tally};
use chorus_nucleus::{Nucleus, Pass, TakeAnswer, take_when_free};
use chorus_ui::Ui;
use std::sync::Wait;

/// One more than the count of messages of a job. No run counts to 2^64 - 1: there it waits for ever.
fn one_more<R: Wait>(rt: &R, count: u64) -> u64
    ensures { result ≡ count + 1 }
{
    match count.checked_add(1) {
        Some(more) => more,
        None => {
            for _ in rt.forever() {}
            unreachable!()
        }
    }
}

/// The position of the first message of a job, where one more is taken behind so many.
fn first_of(count: u64, from: u64, pos: u64) -> u64
    ensures zero { count ≡ 0 → result ≡ pos }
    ensures later { count ≢ 0 → result ≡ from }
{
    if count == 0 { pos } else { from }
}

/// Takes the messages of a job's port, each behind the one before it was handled, until there is none for the caller or
/// a take finds a fault.
#[tactic(auto, using(crate::proofs::Draining::draining))]
fn drain<F: Fold, R: Wait>(
    rt: &R,
    nucleus: &Nucleus,
    fold: &F,
    pass: &mut Pass,
    port: Ui,
) -> Tally<F::State>
    requires pass { IsPassOf nucleus.now pass.old }
    requires port { is_port port ≡ true }
    ensures work { IsWork (F.way fold.now) nucleus.now port result pass.old pass.new }
    ensures free { IfSome (fault_of result.ended) (λ f. is_busy f ≡ false) }
{
    let mut from: u64 = 0;
    let mut count: u64 = 0;
    let mut state = fold.begin(port);
    for _ in rt.forever() {
        match take_when_free(rt, nucleus, pass, port) {
            Ok(TakeAnswer::Took(taken)) => {
                from = first_of(count, from, taken.position);
                count = one_more(rt, count);
                fold.handle(&mut state, port, taken);
            }
            Ok(TakeAnswer::Empty) => {
                return Tally {
                    from,
                    count,
                    state,
                    ended: EndedBy::Empty,
                };
            }
            Ok(TakeAnswer::NotHere) => {
                return Tally {
                    from,
                    count,
                    state,
                    ended: EndedBy::NotHere,
                };
            }
            Err(fault) => {
                return Tally {
                    from,
                    count,
                    state,
                    ended: EndedBy::Fault(fault),
                };
            }
        }
    }
    unreachable!()
}

/// Does a job: drains its port by its pass.
pub(crate) fn perform<F: Fold, R: Wait>(
    rt: &R,
    nucleus: &Nucleus,
    fold: &F,
    job: Job,
) -> Done<F::State>
    requires { IsJobOf nucleus.now job }
    ensures { IsDoneOf (F.way fold.now) nucleus.now job result }
{
    let Job {
        index,
        port,
        mut pass,
    } = job;
    let tally = drain(rt, nucleus, fold, &mut pass, port);
    Done {
        index,
        port,
        pass,
        tally,
    }
}
