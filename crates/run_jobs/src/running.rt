//! A queue of jobs is run.

ghost use Rattle.std.specs.Prelude.{◌≡◌, IfOk, Some};
ghost use Rattle.chorus_net.specs.Closing.{past_of};
ghost use Rattle.chorus_sessions.specs.Hands.{AreHandedOut};
ghost use Rattle.run_jobs.specs.Ending.{KeepsEachJob};
ghost use Rattle.run_jobs.specs.Promise.{queue_at, AlwaysKeepsPromise};

use crate::comers::{CAPACITY, Comer, Party};
use chorus_net::Closed;
use chorus_sessions::{Hand, NewPort, SessionsFault, run_sessions};
use chorus_ui::{Kind, Layout, Ui};
use std::alloc::{AllocError, Global};
use std::sync::Wait;
use std::thread::Threads;

/// What came of a queue of jobs.
#[derive(Drop)]
pub struct Finished {
    /// The queue: a port.
    pub queue: Ui,
    /// What each comer has in hand, that of the last first: a worker the jobs that it took, a client those that it was told are accepted.
    pub hands: Vec<Hand>,
    /// The journals of all places, and what is left: the jobs that wait still.
    pub closed: Closed,
}

/// Those who come to this queue, as they are handed to its run.
fn parties_at(alloc: Global, queue: Ui, comers: &[Comer]) -> Result<Vec<Party>, AllocError> {
    let mut parties = Vec::with_capacity(alloc, comers.len())?;
    for comer in comers {
        parties.push(Party {
            comer: *comer,
            queue,
        })?;
    }
    Ok(parties)
}

/// Runs a queue of jobs on a nucleus of this layout: it is made at the first actor of the site `first`, with room for 64 jobs; each comer
/// comes and runs in a thread of its own where one can be made; when all have run, packets are moved until none is left, and the workers
/// take what is left of the queue. Where not all could come, none runs; where memory is wanting to move packets, the hands are as they
/// were then.
pub fn run_queue<R: Threads + Wait + Sync>(
    alloc: Global,
    rt: &R,
    layout: Layout,
    first: u16,
    comers: &[Comer],
) -> Result<Finished, SessionsFault>
    ensures queue { IfOk result (λ f. Some f.queue ≡ queue_at first) }
    ensures promise { IfOk result (λ f. AlwaysKeepsPromise f.queue (past_of f.closed)) }
    ensures hands { IfOk result (λ f. AreHandedOut (past_of f.closed) f.hands.items) }
    ensures kept { IfOk result (λ f. KeepsEachJob layout f.closed f.hands.items f.queue) }
{
    let Some(actor) = Ui::new(first, Kind::Actor, 1) else {
        return Err(SessionsFault::NoPort);
    };
    let Some(queue) = Ui::new(first, Kind::Port, 1) else {
        return Err(SessionsFault::NoPort);
    };
    let parties = parties_at(alloc, queue, comers)?;
    let made = [NewPort {
        actor,
        capacity: CAPACITY,
    }];
    let finished = run_sessions(alloc, rt, layout, &made, &parties)?;
    Ok(Finished {
        queue,
        hands: finished.hands,
        closed: finished.closed,
    })
}
