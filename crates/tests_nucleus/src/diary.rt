//! What a caller that looks as much as it acts was shown, and what the journals must have behind that.

use chorus_entry::{Act, Answer, Entry, MsgId};
use chorus_net::Closed;
use std::alloc::Global;
use std::process::Abort;

/// What a look showed, of the journal of the caller's home place.
#[derive(Clone, Copy)]
pub(crate) enum Shown {
    /// The caller's message has this verdict.
    Verdict { id: MsgId, answer: Answer },
    /// Its first so many entries: where a port is, is told as of the last of these.
    Entries(u64),
}

/// What one look of a caller in the soak told.
#[derive(Clone, Copy)]
pub(crate) struct Told {
    /// What it showed.
    shown: Shown,
    /// How many commands the caller had given before it.
    commands: usize,
}

/// What a caller in the soak keeps, beside its pass.
#[derive(Drop)]
pub(crate) struct Diary {
    /// Its seat.
    seat: u32,
    /// Its home place, from 1.
    home: u16,
    /// How many commands it has given.
    commands: usize,
    /// What its looks showed, in order.
    looks: Vec<Told>,
    /// From which its next choice is drawn.
    state: u64,
}

impl Diary {
    /// The diary of a caller of the soak that did nothing yet.
    pub(crate) fn start(alloc: Global, seat: u32, home: u16, seed: u64) -> Diary {
        Diary {
            seat,
            home,
            commands: 0,
            looks: Vec::new(alloc),
            state: seed.wrapping_mul(0x9e37_79b9_7f4a_7c15).wrapping_add(1),
        }
    }

    /// Draws the caller's next choice (Knuth's linear congruences, by their upper half): a number below 2^31.
    pub(crate) fn draw(&mut self) -> u64 {
        let state = self.state.wrapping_mul(6_364_136_223_846_793_005);
        self.state = state.wrapping_add(1_442_695_040_888_963_407);
        self.state >> 33
    }

    /// Notes a command of the caller.
    pub(crate) fn note_command(&mut self) {
        self.commands = self.commands.wrapping_add(1);
    }

    /// Notes what a look of the caller showed.
    pub(crate) fn note(&mut self, rt: &impl Abort, shown: Shown) {
        let commands = self.commands;
        self.looks
            .push(Told { shown, commands })
            .expect(rt, "memory");
    }

    /// Holds the journals, and their merge, against what the caller was shown: each look showed what stands at its home place, with a
    /// clock below those of the entries that the caller made behind the look.
    pub(crate) fn assert_kept(
        &self,
        rt: &impl Abort,
        alloc: Global,
        closed: &Closed,
        all: &[Entry],
    ) {
        let clocks = clocks_of(rt, alloc, all, self.seat);
        assert!(rt; clocks.len() == self.commands);
        let Some(journal) = closed.journals.get(usize::from(self.home).wrapping_sub(1)) else {
            panic!(rt; "no journal")
        };
        for look in &self.looks {
            let Some(shown) = clock_of(journal, &look.shown) else {
                panic!(rt; "a look showed what is not so")
            };
            let Some(next) = clocks.get(look.commands) else {
                panic!(rt; "no command stands behind a look")
            };
            assert!(rt; shown < *next, "a caller acts before what it was shown");
        }
    }
}

/// Whether the act answers a command of the soak: it is the first of its call, and no packet leads to one.
fn is_command(act: &Act) -> bool {
    matches!(
        act,
        Act::Make { .. }
            | Act::Post { .. }
            | Act::Take { .. }
            | Act::Empty { .. }
            | Act::NotHere { .. }
            | Act::Rehome { .. }
            | Act::Depart { .. }
            | Act::GroupMake { .. }
            | Act::GroupsFull { .. }
    )
}

/// The clocks of the entries that answer the commands of the caller with this seat, in the order of the merge.
fn clocks_of(rt: &impl Abort, alloc: Global, all: &[Entry], seat: u32) -> Vec<u64> {
    let mut clocks = Vec::new(alloc);
    for entry in all {
        if entry.seat == seat && is_command(&entry.act) {
            clocks.push(entry.clock).expect(rt, "memory");
        }
    }
    clocks
}

/// Whether the entry tells this verdict of the message: the place decided it itself, or was told.
fn tells_verdict(entry: &Entry, id: MsgId, answer: Answer) -> bool {
    let told = match &entry.act {
        Act::Told { answer, .. } => Some(*answer),
        act => act.answer(),
    };
    entry.act.message() == Some(id) && told == Some(answer)
}

/// The clock of the entry that a look showed in this journal of the caller's home place: the verdict, or the last of so many entries.
/// None where it does not stand there.
fn clock_of(journal: &[Entry], shown: &Shown) -> Option<u64> {
    match shown {
        Shown::Verdict { id, answer } => {
            let entry = journal
                .iter()
                .find(|entry| tells_verdict(entry, *id, *answer))?;
            Some(entry.clock)
        }
        Shown::Entries(count) => {
            let last = journal.get((*count as usize).checked_sub(1)?)?;
            Some(last.clock)
        }
    }
}
