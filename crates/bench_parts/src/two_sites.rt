//! What is measured of places: two sites, at which one caller sends.

use crate::sites::{entries_at, send, send_and_take, send_and_tell, start};
use chorus_net::Sites;
use std::alloc::{AllocError, Global};
use std::fmt::{self, Display, Formatter, Write};
use std::io;
use std::time::{Clock, Instant};

/// How many rounds are timed together.
const ROUNDS: u32 = 5_000;

/// How many rounds of a work lead to about a million entries.
const MANY_ROUNDS: u32 = 250_000;

const FEW: u32 = 20;

const TRIES: u32 = 5;

/// What is done again and again at two sites.
#[derive(Clone, Copy)]
pub(crate) enum Work {
    /// A message is sent at its port's place, and taken.
    Takes,
    /// A message is sent to a port of the other place, behind those that wait; the first is decided there, and its verdict lets the
    /// next one go.
    Verdicts,
}

impl Display for Work {
    fn fmt<W: Write>(&self, f: &mut Formatter<W>) -> fmt::Result {
        f.write_str(match self {
            Work::Takes => "sends and takes",
            Work::Verdicts => "tries and verdicts",
        })
    }
}

impl Work {
    /// Does the work so often at two sites.
    fn rounds(self, alloc: Global, sites: &mut Sites, count: u32) -> Option<()> {
        match self {
            Work::Takes => send_and_take(alloc, sites, count),
            Work::Verdicts => send_and_tell(alloc, sites, count),
        }
    }
}

/// Two sites, where so many messages wait for the port of site 2; the first is under way.
fn waiting_at(alloc: Global, waiting: u32) -> Option<Sites> {
    let mut sites = start(alloc, 2)?;
    for _ in 0..waiting {
        send(alloc, &mut sites, 2)?;
    }
    Some(sites)
}

/// How many entries a little of the work at two sites leads to.
fn entries_of(alloc: Global, work: Work) -> Option<usize> {
    let mut sites = waiting_at(alloc, FEW)?;
    work.rounds(alloc, &mut sites, FEW)?;
    Some(entries_at(&sites, 1)?.saturating_add(entries_at(&sites, 2)?))
}

/// Two sites, and the nanoseconds of a round there: the least mean so far.
#[derive(Drop)]
struct Timed {
    work: Work,
    sites: Sites,
    best: f64,
}

impl Timed {
    /// Two sites to be timed, where so many messages wait, and then so many rounds were done.
    fn start(alloc: Global, work: Work, waiting: u32, rounds: u32) -> io::Result<Timed> {
        let mut sites = waiting_at(alloc, waiting).ok_or(AllocError)?;
        work.rounds(alloc, &mut sites, rounds).ok_or(AllocError)?;
        let best = f64::INFINITY;
        Ok(Timed { work, sites, best })
    }

    /// Times some rounds more at the two sites.
    fn time<R: Clock>(&mut self, rt: &R, alloc: Global) -> io::Result<()> {
        let began = Instant::now(rt)?;
        self.work
            .rounds(alloc, &mut self.sites, ROUNDS)
            .ok_or(AllocError)?;
        let seconds = began.elapsed(rt)?.as_secs_f64();
        self.best = self.best.min(seconds / f64::from(ROUNDS) * 1_000_000_000.0);
        Ok(())
    }
}

/// Prints how many entries come of a little of each work at two sites.
pub(crate) fn print_few<R: Print>(rt: &R, alloc: Global) -> io::Result<()> {
    for work in [Work::Takes, Work::Verdicts] {
        let entries = entries_of(alloc, work).ok_or(AllocError)?;
        println!(rt; "{work}: {entries} entries")?;
    }
    Ok(())
}

/// Prints nanoseconds of a round of each work at two sites.
pub(crate) fn print_times<R: Clock + Print>(rt: &R, alloc: Global) -> io::Result<()> {
    for work in [Work::Takes, Work::Verdicts] {
        print_time(rt, alloc, work)?;
    }
    Ok(())
}

/// Prints the best nanoseconds of a round of this work at a place: alone, with many waiting, and behind many rounds.
fn print_time<R: Clock + Print>(rt: &R, alloc: Global, work: Work) -> io::Result<()> {
    let mut one = Timed::start(alloc, work, 1, 0)?;
    let mut many = Timed::start(alloc, work, 100_000, 0)?;
    let mut behind = Timed::start(alloc, work, 1, MANY_ROUNDS)?;
    for _ in 0..TRIES {
        one.time(rt, alloc)?;
        many.time(rt, alloc)?;
        behind.time(rt, alloc)?;
    }
    let (one, many, behind) = (one.best, many.best, behind.best);
    let (waits, grows) = (many / one, behind / one);
    println!(rt;
        "{work}: {one:.0} ns, {many:.0} ns with 100,000 waiting ({waits:.2}), {behind:.0} ns behind {MANY_ROUNDS} rounds ({grows:.2})"
    )
}
