//! Handlers that put down what they are called for. The value of each message is 1.

use chorus_crew::{Fold, Handler};
use chorus_entry::Message;
use chorus_nucleus::TakenMessage;
use chorus_ui::Ui;
use std::sync::atomic::{AtomicBool, AtomicU64, Ordering};
use std::thread;

/// How many turns a handler waits for another at most.
const WAIT_LIMIT: u64 = 1_000_000_000;

/// Counts its calls.
#[derive(Drop)]
pub(crate) struct Counts {
    calls: AtomicU64,
}

impl Counts {
    /// A handler that counts its calls, of which none was made yet.
    pub(crate) fn start() -> Counts {
        Counts {
            calls: AtomicU64::new(0),
        }
    }

    /// How many calls of the counting handler were made.
    pub(crate) fn calls(&self) -> u64 {
        self.calls.load(Ordering::SeqCst)
    }
}

impl Handler for Counts {
    ghost value = { λ _ _ _ _. 1 };

    /// Counts the call of the handler.
    fn handle(&self, _port: Ui, _pos: u64, _message: &Message) -> u64 {
        self.calls.fetch_add(1, Ordering::SeqCst);
        1
    }
}

/// Holds the message of each of two ports until that of the other was begun.
#[derive(Drop)]
pub(crate) struct Meets {
    first: AtomicBool,
    second: AtomicBool,
    missed: AtomicBool,
}

impl Meets {
    /// A handler that holds the messages of two ports, of which no call was made yet.
    pub(crate) fn start() -> Meets {
        Meets {
            first: AtomicBool::new(false),
            second: AtomicBool::new(false),
            missed: AtomicBool::new(false),
        }
    }

    /// Whether a call of the handler waited for that of the other port in vain.
    pub(crate) fn missed(&self) -> bool {
        self.missed.load(Ordering::SeqCst)
    }
}

impl Handler for Meets {
    ghost value = { λ _ _ _ _. 1 };

    /// Holds the message until that of the other port was begun, and notes where that does not come.
    fn handle(&self, port: Ui, _pos: u64, _message: &Message) -> u64 {
        let (own, other) = if port.number() == 2 {
            (&self.second, &self.first)
        } else {
            (&self.first, &self.second)
        };
        own.store(true, Ordering::SeqCst);
        for _ in 0..WAIT_LIMIT {
            if other.load(Ordering::SeqCst) {
                return 1;
            }
            thread::yield_now();
        }
        self.missed.store(true, Ordering::SeqCst);
        1
    }
}

/// Counts the calls in which a message came at the position behind that of the one before it, or at 0 as the first. The state of
/// a port is the position that is next.
#[derive(Drop)]
pub(crate) struct InOrder {
    calls: AtomicU64,
}

impl InOrder {
    /// A handler that counts the messages that come in order, of which none came yet.
    pub(crate) fn start() -> InOrder {
        InOrder {
            calls: AtomicU64::new(0),
        }
    }

    /// How many messages came in order.
    pub(crate) fn calls(&self) -> u64 {
        self.calls.load(Ordering::SeqCst)
    }
}

impl Fold for InOrder {
    ghost use Rattle.tests_nucleus.specs.Next.{next};

    type State = u64;

    ghost way = { λ _. next };

    fn begin(&self, _port: Ui) -> u64 {
        0
    }

    /// Counts the call where the message is the next, and puts down the position behind it.
    fn handle(&self, state: &mut u64, _port: Ui, taken: TakenMessage) {
        if taken.position == *state {
            self.calls.fetch_add(1, Ordering::SeqCst);
        }
        *state = taken.position.wrapping_add(1);
    }
}
