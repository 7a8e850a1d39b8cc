//! Four senders and three movers at one named port, in the form of the programs of `bench/peers`.
//!
//! The port has room for 64 messages. Each worker has a site of one place, which it alone pumps, and a thread. A sender sends its
//! messages, and then waits until each has its verdict; a mover that has the port works off what came, takes at most one message, and
//! hands the port on. All end when the last sender has its last verdict, or when one of them can go on no more. What came of the
//! messages is what the journals say.

ghost use Rattle.std.specs.Prelude.{◌≤◌};
ghost use Rattle.std.specs.Thread.{IsSync};
ghost use Rattle.chorus_nucleus.specs.Passes.{IsPassOf};

use crate::measured_nucleus::{actor_of, close, enter, make, port_of, pump, send, start, take};
use chorus_entry::{Act, Entry};
use chorus_nucleus::{Nucleus, Pass};
use chorus_serve::Pump;
use chorus_ui::Ui;
use std::alloc::{AllocError, Global};
use std::io;
use std::sync::Wait;
use std::sync::atomic::{AtomicU32, Ordering};
use std::thread::{self, Threads, join};
use std::time::{Clock, Duration, Instant};

/// The sites of the movers are the first ones, those of the senders come behind them.
const MOVERS: u16 = 3;

const SENDERS: u16 = 4;

/// Behind so many pumps in a row that find nothing a sender waits no more: no thread could be made for a worker that it waits for.
const PATIENCE: u32 = 100_000_000;

const FEW: u32 = 20;

const MANY: u32 = 100_000;

/// What all workers share.
#[derive(Drop)]
struct Shared {
    port: Ui,
    /// How many messages each sender sends.
    sends: u32,
    /// How many senders have all their verdicts; a worker that can go on no more counts as all of them.
    ended: AtomicU32,
}

impl Shared {
    /// Notes that a sender at the shared port has all its verdicts.
    fn leave(&self) {
        self.ended.fetch_add(1, Ordering::SeqCst);
    }

    /// Notes that a sender or mover at the shared port can go on no more.
    fn stop(&self) {
        self.ended.fetch_add(u32::from(SENDERS), Ordering::SeqCst);
    }

    /// Whether all senders have all their verdicts, or a sender or mover can go on no more.
    fn is_over(&self) -> bool {
        self.ended.load(Ordering::SeqCst) >= u32::from(SENDERS)
    }

    /// Whether all senders have all their verdicts, and no worker stopped.
    fn is_whole(&self) -> bool {
        self.ended.load(Ordering::SeqCst) == u32::from(SENDERS)
    }
}

/// Sends all messages of a sender, pumps behind each, and waits for their verdicts.
fn send_all<R: Wait>(
    rt: &R,
    nucleus: &Nucleus,
    pass: &mut Pass,
    site: u16,
    shared: &Shared,
) -> Option<()>
    requires { IsPassOf nucleus.now pass.old }
    ensures { IsPassOf nucleus.now pass.new }
{
    for _ in 0..shared.sends {
        send(nucleus, pass, shared.port)?;
        pump(rt, nucleus, pass, site)?;
    }
    wait_for_verdicts(rt, nucleus, pass, site, shared)?;
    shared.leave();
    Some(())
}

/// Pumps until the sender's place has worked off as many packets as it put: each try was answered, and what waited was tried. None
/// also where that does not come.
fn wait_for_verdicts<R: Wait>(
    rt: &R,
    nucleus: &Nucleus,
    pass: &mut Pass,
    site: u16,
    shared: &Shared,
) -> Option<()>
    requires { IsPassOf nucleus.now pass.old }
    ensures { IsPassOf nucleus.now pass.new }
{
    let mut idle: u32 = 0;
    for _ in rt.forever() {
        match pump(rt, nucleus, pass, site)? {
            Pump::Served { .. } => idle = 0,
            Pump::Idle { put, worked } => {
                if put == worked {
                    return Some(());
                }
                if idle >= PATIENCE || shared.is_over() {
                    return None;
                }
                idle = idle.saturating_add(1);
                thread::yield_now();
            }
        }
    }
    unreachable!()
}

/// Pumps, and hands the port on each time when nothing is left to be worked off while it is here, until all is over. What comes from
/// the place of a mover is the port.
fn move_on<R: Wait>(
    rt: &R,
    nucleus: &Nucleus,
    pass: &mut Pass,
    site: u16,
    shared: &Shared,
) -> Option<()>
    requires { IsPassOf nucleus.now pass.old }
    ensures { IsPassOf nucleus.now pass.new }
{
    let next = actor_of(site % MOVERS + 1)?;
    let mut is_here = site == 1;
    for _ in rt.forever() {
        if let Pump::Served { from } = pump(rt, nucleus, pass, site)? {
            is_here = is_here | (from <= MOVERS);
        } else if shared.is_over() {
            return Some(());
        } else if is_here {
            hand_on(nucleus, pass, shared.port, next)?;
            is_here = false;
        } else {
            thread::yield_now();
        }
    }
    unreachable!()
}

/// Takes at the port, and moves it to the next mover's actor.
fn hand_on(nucleus: &Nucleus, pass: &mut Pass, port: Ui, next: Ui) -> Option<()>
    requires { IsPassOf nucleus.now pass.old }
    ensures { IsPassOf nucleus.now pass.new }
{
    take(nucleus, pass, port)?;
    if !port.is_port() || !next.is_actor() {
        return None;
    }
    nucleus.move_port(pass, port, next).ok()?;
    Some(())
}

/// The sender or mover of this site works to its end.
fn work<R: Wait>(rt: &R, nucleus: &Nucleus, mut pass: Pass, site: u16, shared: &Shared) -> Pass
    requires { IsPassOf nucleus.now pass }
    ensures { IsPassOf nucleus.now result }
{
    let done = if site <= MOVERS {
        move_on(rt, nucleus, &mut pass, site, shared)
    } else {
        send_all(rt, nucleus, &mut pass, site, shared)
    };
    if done.is_none() {
        shared.stop();
    }
    pass
}

/// The movers and senders of this site, from 1 on, and of the next ones enter and work side by side, each in a thread of its own
/// where one can be made, and retire.
#[cycle(workers)]
fn work_from<R: Threads + Sync + Wait>(
    rt: &R,
    nucleus: &Nucleus,
    mut keeper: Pass,
    site: u16,
    shared: &Shared,
) -> Pass
    requires { IsPassOf nucleus.now keeper }
    ensures { IsPassOf nucleus.now result }
{
    if site > MOVERS + SENDERS {
        return keeper;
    }
    let Some(pass) = enter(nucleus, &mut keeper, site) else {
        shared.stop();
        return keeper;
    };
    let this = move || -> Pass
        requires { IsSync R.row × IsPassOf nucleus.now pass }
        ensures { IsPassOf nucleus.entry.now result }
    { work(rt, nucleus, pass, site, shared) };
    let others = move || -> Pass
        requires { IsSync R.row × (site ≤ 7) × IsPassOf nucleus.now keeper }
        ensures { IsPassOf nucleus.entry.now result }
    { work_from(rt, nucleus, keeper, site + 1, shared) };
    let (pass, mut keeper) = join(rt, this, others);
    nucleus.retire(pass, &mut keeper);
    keeper
}

/// All movers and senders work to their end. Gives how long that took.
fn time_all<R: Threads + Sync + Wait + Clock>(
    rt: &R,
    nucleus: &Nucleus,
    keeper: Pass,
    shared: &Shared,
) -> (Pass, io::Result<Duration>)
    requires { IsPassOf nucleus.now keeper }
    ensures { IsPassOf nucleus.now result.0 }
{
    match Instant::now(rt) {
        Ok(began) => {
            let keeper = work_from(rt, nucleus, keeper, 1, shared);
            (keeper, began.elapsed(rt))
        }
        Err(fault) => (keeper, Err(fault)),
    }
}

/// What the journals say of the messages, and how often the port moved.
#[derive(Clone, Copy)]
struct Told {
    posted: u32,
    accepted: u32,
    refused: u32,
    taken: u32,
    moves: u32,
}

impl Told {
    /// Counts an entry of the senders' and movers' journals.
    fn add(&mut self, act: &Act) {
        match act {
            Act::Post { .. } => self.posted = self.posted.saturating_add(1),
            Act::Accept { .. } => self.accepted = self.accepted.saturating_add(1),
            Act::Take { .. } => self.taken = self.taken.saturating_add(1),
            Act::Depart { .. } => self.moves = self.moves.saturating_add(1),
            _ => self.refused = self.refused.saturating_add(u32::from(act.is_verdict())),
        }
    }

    /// Counts the entries of a sender's or mover's journal.
    fn add_all(&mut self, journal: &[Entry]) {
        for entry in journal {
            self.add(&entry.act);
        }
    }

    /// What these journals say of the senders' messages and of the port's moves.
    fn of(journals: &[Vec<Entry>]) -> Told {
        let mut told = Told {
            posted: 0,
            accepted: 0,
            refused: 0,
            taken: 0,
            moves: 0,
        };
        for journal in journals {
            told.add_all(journal);
        }
        told
    }
}

/// All senders and movers at a nucleus of their own, of which each sender sends so many messages. Gives what came of these, and how
/// long that took.
fn measure<R: Threads + Sync + Wait + Clock>(
    rt: &R,
    alloc: Global,
    sends: u32,
) -> io::Result<(Told, Duration)> {
    let shared = Shared {
        port: port_of(1).ok_or(AllocError)?,
        sends,
        ended: AtomicU32::new(0),
    };
    let (nucleus, mut keeper) = start(alloc, rt, MOVERS + SENDERS).ok_or(AllocError)?;
    let made = make(&nucleus, &mut keeper, 1);
    let (keeper, time) = time_all(rt, &nucleus, keeper, &shared);
    let closed = close(rt, nucleus, keeper).ok_or(AllocError)?;
    made.ok_or(AllocError)?;
    if !shared.is_whole() {
        return Err(AllocError.into());
    }
    Ok((Told::of(&closed.journals), time?))
}

/// Prints how many messages came of a few sends of each sender, and how many verdicts.
pub(crate) fn print_few<R: Threads + Sync + Wait + Clock + Print>(
    rt: &R,
    alloc: Global,
) -> io::Result<()> {
    let (told, _) = measure(rt, alloc, FEW)?;
    let verdicts = told.accepted.saturating_add(told.refused);
    println!(rt;
        "4 senders, 3 movers: {} posted, {verdicts} verdicts",
        told.posted
    )
}

/// Prints what came of many sends of each sender, and how many were sent and received a second.
pub(crate) fn print_rates<R: Threads + Sync + Wait + Clock + Print>(
    rt: &R,
    alloc: Global,
) -> io::Result<()> {
    let (told, time) = measure(rt, alloc, MANY)?;
    let seconds = time.as_secs_f64();
    let Told {
        posted,
        accepted,
        refused,
        taken,
        moves,
    } = told;
    let sends = f64::from(posted) / seconds;
    let takes = f64::from(taken) / seconds;
    println!(rt;
        "chorus: {posted} sent, {accepted} accepted, {refused} refused, {taken} taken, {moves} moves, {seconds:.3} s"
    )?;
    println!(rt; "chorus: {sends:.0} sends/s, {takes:.0} taken/s")
}
