//! How many messages wait at the ports that are held, and at those that move.

ghost use Rattle.std.specs.Prelude.{◌≡◌, ◌+◌, ◌<◌, ◌^◌, List, [], ◌∷◌, length, OnOk, OnErr};
ghost use Rattle.chorus_entry.specs.declared.entry.Entry.{Entry};
ghost use Rattle.chorus_show.specs.Tally.{news_of, put};

use chorus_entry::{Act, Entry};
use chorus_ui::Ui;
use std::alloc::{AllocError, Global};
use std::collections::BTreeMap;

/// Where a port is.
#[derive(Clone, Copy, Debug, PartialEq, Eq)]
pub enum Spot {
    /// At an actor.
    Held,
    /// Under way to another site.
    Moving,
    /// Nowhere: it is deleted.
    Ended,
}

/// What entries say of one port's queue.
#[derive(Clone, Copy)]
pub(crate) struct Queue {
    pub accepted: u64,
    pub taken: u64,
    /// Where the last of them that puts the port somewhere puts it.
    pub spot: Option<Spot>,
}

/// What no entry says.
const NO_QUEUE: Queue = Queue {
    accepted: 0,
    taken: 0,
    spot: None,
};

impl Queue {
    ghost use Rattle.chorus_show.specs.Tally.{share, with_later};

    /// How many messages wait in the port's queue, where the port is at the spot: accepted less taken, and 0 where more
    /// were taken.
    fn share(self, spot: Spot) -> u64
        ensures { result ≡ share spot self }
    {
        if self.spot == Some(spot) {
            self.accepted.saturating_sub(self.taken)
        } else {
            0
        }
    }

    /// What entries say of the port's queue together with what the later entries say.
    fn with_later(self, later: Queue) -> Queue
        requires accepted { self.accepted + later.accepted < 2 ^ 64 }
        requires taken { self.taken + later.taken < 2 ^ 64 }
        ensures { result ≡ with_later self later }
    {
        Queue {
            accepted: self.accepted + later.accepted,
            taken: self.taken + later.taken,
            spot: later.spot.or(self.spot),
        }
    }
}

/// The queues after the entries from some entry to the last.
#[derive(Drop)]
pub(crate) struct Queues {
    pub ports: BTreeMap<Ui, Queue>,
    /// What waits at the ports that are held.
    pub queued: u64,
    /// What waits at the ports that move.
    pub moving: u64,
}

impl Queues {
    ghost use Rattle.chorus_show.specs.Tally.{AreQueues};

    /// The queues after no entry.
    pub(crate) fn new(alloc: Global) -> Queues
        ensures { AreQueues result [] }
    {
        Queues {
            ports: BTreeMap::new(alloc),
            queued: 0,
            moving: 0,
        }
    }

    /// Puts one more entry before those that were seen. An error leaves what the queues tell as it was.
    pub(crate) fn add(&mut self, entry: &Entry) -> Result<(), AllocError>
        requires { (later : List Entry) × AreQueues self.old later × (length later < 2 ^ 63) }
        ensures ok { OnOk result
            ((later : List Entry) → AreQueues self.old later →
            AreQueues self.new (entry.now ∷ later)) }
        ensures err { OnErr result ((later : List Entry) → AreQueues self.old later →
            AreQueues self.new later) }
    {
        let Some((port, news)) = news_of(&entry.act) else {
            return Ok(());
        };
        let later = self.ports.get(&port).copied().unwrap_or(NO_QUEUE);
        let queue = news.with_later(later);
        self.ports.insert(port, queue)?;
        self.queued = self.queued + queue.share(Spot::Held) - later.share(Spot::Held);
        self.moving = self.moving + queue.share(Spot::Moving) - later.share(Spot::Moving);
        Ok(())
    }
}

/// What the act alone says of a port's queue, and of which port.
fn news_of(act: &Act) -> Option<(Ui, Queue)>
    ensures { result ≡ news_of act.now }
{
    let (port, news) = match act {
        Act::Accept { port, .. } => (
            port,
            Queue {
                accepted: 1,
                ..NO_QUEUE
            },
        ),
        Act::Take { port, .. } => (
            port,
            Queue {
                taken: 1,
                ..NO_QUEUE
            },
        ),
        Act::Make { port, .. } | Act::Arrive { port, .. } => (port, put(Spot::Held)),
        Act::Depart { port, .. } => (port, put(Spot::Moving)),
        Act::Delete { port, .. } => (port, put(Spot::Ended)),
        _ => return None,
    };
    Some((*port, news))
}

/// What an entry that puts the port there says of its queue.
fn put(spot: Spot) -> Queue
    ensures { result ≡ put spot }
{
    Queue {
        spot: Some(spot),
        ..NO_QUEUE
    }
}
