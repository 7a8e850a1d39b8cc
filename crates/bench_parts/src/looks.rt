//! What a caller pays to be told something, and to serve and publish where there is nothing to do.

ghost use Rattle.chorus_nucleus.specs.Passes.{IsPassOf};

use crate::measured_nucleus::{close, enter, make, port_of, pump, send, start, take};
use chorus_entry::MsgId;
use chorus_nucleus::{Nucleus, Pass};
use std::alloc::{AllocError, Global};
use std::io;
use std::sync::Wait;
use std::time::{Clock, Instant};

/// How often each is done, where nothing is measured and where it is.
const FEW: u32 = 20;

const MANY: u32 = 1_000_000;

/// What is done so often at the caller's own place, where nothing is left to be done.
#[derive(Clone, Copy)]
enum Work {
    Serve,
    Pump,
    Publish,
    Outcome,
    Locate,
}

/// Does it once; None where it fails. The message is the first that the measured caller posted.
fn work_once<R: Wait>(rt: &R, nucleus: &Nucleus, pass: &mut Pass, work: Work) -> Option<()>
    requires { IsPassOf nucleus.now pass.old }
    ensures { IsPassOf nucleus.now pass.new }
{
    let port = port_of(1)?;
    if !nucleus.layout().has_place(1) || !nucleus.layout().has_site(port.site()) {
        return None;
    }
    let id = MsgId {
        seat: pass.seat(),
        number: 1,
        copy: 0,
    };
    match work {
        Work::Serve => {
            pump(rt, nucleus, pass, 1)?;
            Some(())
        }
        Work::Pump => {
            nucleus.pump(rt, pass, 1).ok()?;
            Some(())
        }
        Work::Publish => {
            nucleus.publish(rt, pass, 1).ok()?;
            Some(())
        }
        Work::Outcome => {
            nucleus.outcome(pass, id).ok()?;
            Some(())
        }
        Work::Locate => {
            nucleus.locate(pass, port).ok()?;
            Some(())
        }
    }
}

/// Does it so often.
fn work_often<R: Wait>(
    rt: &R,
    nucleus: &Nucleus,
    pass: &mut Pass,
    work: Work,
    count: u32,
) -> Option<()>
    requires { IsPassOf nucleus.now pass.old }
    ensures { IsPassOf nucleus.now pass.new }
{
    for _ in 0..count {
        work_once(rt, nucleus, pass, work)?;
    }
    Some(())
}

/// Nanoseconds of each, done so often; made ready by a message that the caller sends itself and takes.
fn time<R: Wait + Clock>(
    rt: &R,
    nucleus: &Nucleus,
    pass: &mut Pass,
    work: Work,
    count: u32,
) -> io::Result<f64>
    requires { IsPassOf nucleus.now pass.old }
    ensures { IsPassOf nucleus.now pass.new }
{
    let began = Instant::now(rt)?;
    let done = work_often(rt, nucleus, pass, work, count);
    let time = began.elapsed(rt)?;
    done.ok_or(AllocError)?;
    Ok(time.as_secs_f64() / f64::from(count) * 1_000_000_000.0)
}

/// Makes a port, sends a message to it and takes it.
fn make_ready(nucleus: &Nucleus, pass: &mut Pass) -> Option<()>
    requires { IsPassOf nucleus.now pass.old }
    ensures { IsPassOf nucleus.now pass.new }
{
    make(nucleus, pass, 1)?;
    let port = port_of(1)?;
    send(nucleus, pass, port)?;
    take(nucleus, pass, port)
}

/// Makes ready, and does the work so often by a pass of its own. Gives the nanoseconds of each.
fn measure<R: Wait + Clock>(
    rt: &R,
    nucleus: &Nucleus,
    keeper: &mut Pass,
    work: Work,
    count: u32,
) -> io::Result<f64>
    requires { IsPassOf nucleus.now keeper.old }
    ensures { IsPassOf nucleus.now keeper.new }
{
    let mut pass = enter(nucleus, keeper, 1).ok_or(AllocError)?;
    let time = match make_ready(nucleus, &mut pass) {
        Some(()) => time(rt, nucleus, &mut pass, work, count),
        None => Err(io::Error::from(AllocError)),
    };
    nucleus.retire(pass, keeper);
    time
}

/// Does the work so often at a nucleus of its own. Gives the nanoseconds of each, and the entries of the first place.
fn run<R: Wait + Clock>(rt: &R, alloc: Global, work: Work, count: u32) -> io::Result<(f64, usize)> {
    let (nucleus, mut keeper) = start(alloc, rt, 2).ok_or(AllocError)?;
    let time = measure(rt, &nucleus, &mut keeper, work, count);
    let closed = close(rt, nucleus, keeper).ok_or(AllocError)?;
    let entries = match closed.journals.first() {
        Some(journal) => journal.len(),
        None => 0,
    };
    Ok((time?, entries))
}

/// Prints how many entries there are behind a little of each, which appends none.
pub(crate) fn print_few<R: Wait + Clock + Print>(rt: &R, alloc: Global) -> io::Result<()> {
    for work in [
        Work::Serve,
        Work::Pump,
        Work::Publish,
        Work::Outcome,
        Work::Locate,
    ] {
        let (_, entries) = run(rt, alloc, work, FEW)?;
        println!(rt; "{}: {entries} entries", name_of(work))?;
    }
    Ok(())
}

/// Prints what each costs, the best of five tries.
pub(crate) fn print_times<R: Wait + Clock + Print>(rt: &R, alloc: Global) -> io::Result<()> {
    for work in [
        Work::Serve,
        Work::Pump,
        Work::Publish,
        Work::Outcome,
        Work::Locate,
    ] {
        let mut best = f64::INFINITY;
        for _ in 0..5 {
            let (time, _) = run(rt, alloc, work, MANY)?;
            best = best.min(time);
        }
        println!(rt; "{}: {best:.0} ns", name_of(work))?;
    }
    Ok(())
}

fn name_of(work: Work) -> &'static str {
    match work {
        Work::Serve => "an idle serve",
        Work::Pump => "an idle pump",
        Work::Publish => "a publish of nothing new",
        Work::Outcome => "an outcome",
        Work::Locate => "a locate",
    }
}
