//! Whether the threads of a scenario are at work.

use std::sync::atomic::{AtomicBool, AtomicU32, AtomicU64, Ordering};

/// After how many idle sweeps a thread is at work no more, until it finds something again.
const IDLE_SWEEPS: u32 = 4;

/// After how many idle sweeps a thread ends whatever the others do. One of them may not have begun, where no thread could be made for
/// it, and waits then for this one.
const PATIENCE: u32 = 4096;

/// What the threads of a scenario tell one another: how many of them are at work, since they perform commands or found something to
/// do a moment ago, and how many packets are under way. It decides only how long a thread goes on to pump, so nothing is promised
/// of it.
#[derive(Drop)]
pub(crate) struct AtWork {
    count: AtomicU32,
    /// How many threads have commands left.
    left: AtomicU32,
    /// How many packets the places put more than they worked off, as far as the threads have told, modulo 2^64.
    under_way: AtomicU64,
    /// Whether a thread stopped before its end.
    halted: AtomicBool,
}

/// What a thread has told the others.
#[derive(Clone, Copy)]
pub(crate) struct Told {
    /// How many sweeps behind one another found nothing.
    idle: u32,
    /// How many packets the places of its range put more than they worked off, modulo 2^64.
    under_way: u64,
}

impl Told {
    /// What a thread has told at first: nothing.
    pub(crate) fn new() -> Told {
        Told {
            idle: 0,
            under_way: 0,
        }
    }
}

impl AtWork {
    /// What threads share at first: so many of them, all at work.
    pub(crate) fn new(threads: u32) -> AtWork {
        AtWork {
            count: AtomicU32::new(threads),
            left: AtomicU32::new(threads),
            under_way: AtomicU64::new(0),
            halted: AtomicBool::new(false),
        }
    }

    /// Tells the threads at work that one has performed its commands. Gives how many others have commands left.
    pub(crate) fn finish(&self) -> u32 {
        self.left.fetch_sub(1, Ordering::SeqCst).wrapping_sub(1)
    }

    /// A thread is at work no more.
    pub(crate) fn leave(&self) {
        self.count.fetch_sub(1, Ordering::SeqCst);
    }

    /// Tells the threads at work that one has ended. Where it is not done with its script, the others need not wait for what it
    /// would do.
    pub(crate) fn end(&self, is_done: bool) {
        if !is_done {
            self.halted.store(true, Ordering::SeqCst);
        }
    }

    /// Tells the other threads what came of a sweep: whether it worked off a packet, and what the thread's places have
    /// under way, where it saw that of each.
    pub(crate) fn note(&self, told: &mut Told, served: bool, under_way: Option<u64>) {
        if let Some(now) = under_way {
            self.under_way
                .fetch_add(now.wrapping_sub(told.under_way), Ordering::SeqCst);
            told.under_way = now;
        }
        if served {
            if told.idle >= IDLE_SWEEPS {
                self.count.fetch_add(1, Ordering::SeqCst);
            }
            told.idle = 0;
            return;
        }
        told.idle = told.idle.saturating_add(1);
        if told.idle == IDLE_SWEEPS {
            self.leave();
        }
    }

    /// Whether a thread ends that told this: no thread is at work and no packet under way, or one stopped, or it has had patience
    /// enough.
    pub(crate) fn is_over(&self, told: &Told) -> bool {
        told.idle >= PATIENCE || (told.idle >= IDLE_SWEEPS && self.is_quiet())
    }

    /// Whether no thread is at work and no packet under way, or one stopped.
    fn is_quiet(&self) -> bool {
        self.halted.load(Ordering::SeqCst)
            || (self.count.load(Ordering::SeqCst) == 0
                && self.under_way.load(Ordering::SeqCst) == 0)
    }
}
