//! A counter is run.

ghost use Rattle.std.specs.Prelude.{◌≡◌, IfOk, Some};
ghost use Rattle.chorus_net.specs.Closing.{past_of};
ghost use Rattle.chorus_sessions.specs.Hands.{AreHandedOut};
ghost use Rattle.chorus_sessions.specs.Sessions.{IsRunOf};
ghost use Rattle.run_counter.specs.Counting.{counter_at, value, AlwaysKeepsCount};

use crate::comers::{CAPACITY, Comer, Party, Role};
use crate::counting::value_of;
use chorus_net::Closed;
use chorus_sessions::{Hand, NewPort, SessionsFault, run_sessions};
use chorus_ui::{Kind, Layout, Ui};
use std::alloc::{AllocError, Global};
use std::sync::Wait;
use std::thread::Threads;

/// What came of a counter.
#[derive(Drop)]
pub struct Finished {
    /// The counter: a port.
    pub counter: Ui,
    /// How many it counted.
    pub value: u64,
    /// What each comer has in hand, that of the last first: a server the calls that it took, a client the replies.
    pub hands: Vec<Hand>,
    /// The journals of all places, and what is left.
    pub closed: Closed,
}

/// Those who come to this counter, as they are handed to its run.
fn parties_at(alloc: Global, counter: Ui, comers: &[Comer]) -> Result<Vec<Party>, AllocError> {
    let mut parties = Vec::with_capacity(alloc, comers.len())?;
    for comer in comers {
        parties.push(Party {
            alloc,
            comer: *comer,
            counter,
        })?;
    }
    Ok(parties)
}

/// The ports of a run: the counter, held first by this actor, and of each client one for its replies.
fn ports_for(alloc: Global, holder: Ui, comers: &[Comer]) -> Result<Vec<NewPort>, AllocError> {
    let mut ports = Vec::new(alloc);
    ports.push(NewPort {
        actor: holder,
        capacity: CAPACITY,
    })?;
    for comer in comers {
        if let Role::Client { .. } = comer.role {
            ports.push(NewPort {
                actor: comer.actor,
                capacity: CAPACITY,
            })?;
        }
    }
    Ok(ports)
}

/// Runs a counter on a nucleus of this layout: it is made at the first actor of the site `first`, with room for 64 messages; each comer
/// comes and runs in a thread of its own where one can be made; when all have run, packets are moved until none is left, and the servers
/// take what is left in the counter. Where not all could come, none runs; where memory is wanting to move packets, the hands are as they
/// were then.
pub fn run_counter<R: Threads + Wait + Sync>(
    alloc: Global,
    rt: &R,
    layout: Layout,
    first: u16,
    comers: &[Comer],
) -> Result<Finished, SessionsFault>
    ensures counter { IfOk result (λ f. Some f.counter ≡ counter_at first) }
    ensures run { IfOk result (λ f. IsRunOf layout f.closed) }
    ensures promise { IfOk result (λ f. AlwaysKeepsCount f.counter (past_of f.closed)) }
    ensures value { IfOk result (λ f. f.value ≡ value f.counter (past_of f.closed)) }
    ensures hands { IfOk result (λ f. AreHandedOut (past_of f.closed) f.hands.items) }
{
    let Some(actor) = Ui::new(first, Kind::Actor, 1) else {
        return Err(SessionsFault::NoPort);
    };
    let Some(counter) = Ui::new(first, Kind::Port, 1) else {
        return Err(SessionsFault::NoPort);
    };
    let parties = parties_at(alloc, counter, comers)?;
    let ports = ports_for(alloc, actor, comers)?;
    let finished = run_sessions(alloc, rt, layout, &ports, &parties)?;
    let value = value_of(alloc, counter, &finished.closed)?;
    Ok(Finished {
        counter,
        value,
        hands: finished.hands,
        closed: finished.closed,
    })
}
