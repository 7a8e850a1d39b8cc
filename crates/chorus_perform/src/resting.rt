//! Whether the threads of a scenario in which something waits rest.

use std::sync::Wait;
use std::sync::atomic::{AtomicBool, AtomicU64, Ordering};
use std::thread;

/// The part of the word that counts how many threads rest; above it stands how often something was done, modulo 2^32.
const RESTING: u64 = 0xffff_ffff;

/// How often a thread that rests looks at once, before it lets others run between.
const LOOKS: u32 = 64;

/// After how many looks it ends the rest of all whatever the others do. One of them may not have begun, where no thread could be made for
/// it, and waits then for this one.
const PATIENCE: u32 = 1_000_000;

/// What the threads of a scenario in which something waits tell one another: how many rest, since they found nothing to do, and how many
/// packets are under way. It decides only how long a thread waits, so nothing is promised of it.
///
/// A thread reads how often something was done, then looks whether what it waits for has come, and works off what it finds at its
/// places; where it found nothing it rests. Who did something tells so before it rests, and then none rests. So where all rest, nothing was
/// done since the first of them looked: all of them saw one state, in which nothing comes.
#[derive(Drop)]
pub(crate) struct Resting {
    threads: u32,
    /// How often something was done, and how many threads rest since.
    word: AtomicU64,
    /// How many packets the places put more than they worked off, as far as the threads have told, modulo 2^64.
    under_way: AtomicU64,
    /// Whether all are to end.
    ended: AtomicBool,
}

/// What a thread has told, and what it has not told yet.
#[derive(Clone, Copy)]
pub(crate) struct Doings {
    /// Whether it did something that it has not told.
    pub(crate) some: bool,
    /// How many packets its places put more than they worked off, as it told last, modulo 2^64.
    under_way: u64,
}

impl Doings {
    /// What a thread has done at first: nothing.
    pub(crate) fn new() -> Doings {
        Doings {
            some: false,
            under_way: 0,
        }
    }
}

impl Resting {
    /// What so many threads share at first.
    pub(crate) fn new(threads: u32) -> Resting {
        Resting {
            threads,
            word: AtomicU64::new(0),
            under_way: AtomicU64::new(0),
            ended: AtomicBool::new(false),
        }
    }

    /// How many threads there are.
    pub(crate) fn threads(&self) -> u32 {
        self.threads
    }

    /// Tells them that one has ended. Where it halted, the others need not wait for what it would do.
    pub(crate) fn end(&self, is_well: bool) {
        if !is_well {
            self.ended.store(true, Ordering::SeqCst);
        }
    }

    /// How often something was done, which a thread asks before it looks for what it waits for.
    pub(crate) fn moves(&self) -> u64 {
        self.word.load(Ordering::SeqCst) & !RESTING
    }

    /// Whether any thread rests.
    pub(crate) fn any(&self) -> bool {
        self.word.load(Ordering::SeqCst) & RESTING != 0
    }

    /// Tells what the thread did: none rests then.
    pub(crate) fn tell(&self, doings: &mut Doings) {
        let _ = self
            .word
            .fetch_update(Ordering::SeqCst, Ordering::SeqCst, |word| {
                Some((word | RESTING).wrapping_add(1))
            });
        doings.some = false;
    }

    /// A thread asked for `moves`, then looked in vain, and then went over its places: there were so many packets under way, modulo 2^64,
    /// where each of them was idle. It rests where it did nothing that it has not told. True where all end.
    pub(crate) fn rest<R: Wait>(
        &self,
        rt: &R,
        doings: &mut Doings,
        moves: u64,
        under_way: Option<u64>,
    ) -> bool {
        if self.ended.load(Ordering::SeqCst) {
            return true;
        }
        let Some(now) = under_way else {
            if !doings.some {
                thread::yield_now();
            }
            return false;
        };
        self.under_way
            .fetch_add(now.wrapping_sub(doings.under_way), Ordering::SeqCst);
        doings.under_way = now;
        if doings.some {
            self.tell(doings);
            return false;
        }
        self.lie_down(moves) && self.wait(rt, moves)
    }

    /// One more rests, where nothing was done since.
    fn lie_down(&self, moves: u64) -> bool {
        self.word
            .fetch_update(Ordering::SeqCst, Ordering::SeqCst, |word| {
                if word & !RESTING == moves {
                    Some(word.wrapping_add(1))
                } else {
                    None
                }
            })
            .is_ok()
    }

    /// Waits until something is done, or all end, which is told.
    fn wait<R: Wait>(&self, rt: &R, moves: u64) -> bool {
        let mut looks: u32 = 0;
        for _ in rt.forever() {
            let word = self.word.load(Ordering::SeqCst);
            if self.ended.load(Ordering::SeqCst) {
                return true;
            }
            if word & !RESTING != moves {
                return false;
            }
            if word & RESTING == u64::from(self.threads) {
                return self.is_over(word);
            }
            looks = looks.wrapping_add(1);
            self.look_on(looks);
        }
        unreachable!()
    }

    /// All rest, as the word says. Whether nothing is under way: else each goes on once more, since an idle place may have sent what
    /// waited there.
    fn is_over(&self, word: u64) -> bool {
        let under_way = self.under_way.load(Ordering::SeqCst);
        if self.word.load(Ordering::SeqCst) != word {
            return false;
        }
        if under_way == 0 {
            return true;
        }
        let _ = self.word.compare_exchange(
            word,
            (word | RESTING).wrapping_add(1),
            Ordering::SeqCst,
            Ordering::SeqCst,
        );
        false
    }

    /// Lets other threads run, and ends the rest of all where it had patience enough.
    fn look_on(&self, looks: u32) {
        if looks < LOOKS {
            return;
        }
        if looks >= PATIENCE {
            self.end(false);
        }
        thread::yield_now();
    }
}
