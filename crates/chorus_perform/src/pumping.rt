//! A thread pumps.

ghost use Rattle.std.specs.Prelude.{◌≡◌, ◌<◌, ◌≤◌, [], true, IfSome, OnOk, OnErr};
ghost use Rattle.chorus_ui.specs.Layout.{has_place, places};
ghost use Rattle.chorus_nucleus.specs.Passes.{layout_of, worn_by, IsPassOf};
ghost use Rattle.chorus_perform.specs.Going.{Goes};
ghost use Rattle.chorus_perform.specs.Halting.{IsHalted, IsPumped};

use crate::at_work::{AtWork, Told};
use crate::lately::Lately;
use crate::pace::{PUMPS_AT_A_PLACE, Pace};
use crate::share::{Share, Stretch};
use crate::stay::Stay;
use crate::stopped::Halted;
use chorus_nucleus::{CallFault, Nucleus, Pass};
use chorus_serve::Pump;
use chorus_ui::Layout;
use std::sync::Wait;
use std::thread;

/// Behind every so many idle sweeps a thread helps the others.
const HELP: u32 = 4;

/// From how many places a thread goes on to the next one, at most, before it goes back to its sweep.
const HOPS: u32 = 64;

/// What came of a pump.
enum Pumped {
    /// It worked off a packet from this place.
    Served { from: u16 },
    /// Nothing was there. The place put so many packets more than it worked off, modulo 2^64.
    Idle { under_way: u64 },
    /// Another thread has the place.
    Busy,
}

/// What came of pumps at a place.
#[derive(Clone, Copy)]
pub(crate) struct Visit {
    /// How many packets were worked off.
    pub(crate) served: u32,
    /// The place from which the last one came, where it is to be pumped next.
    pub(crate) from: Option<u16>,
    /// How many packets the place put more than it worked off, modulo 2^64, where it was idle at last.
    pub(crate) under_way: Option<u64>,
}

/// Pumps a place once. Where another thread has it, that is not waited for.
fn pump<R: Wait>(rt: &R, nucleus: &Nucleus, pass: &mut Pass, place: u16) -> Result<Pumped, Halted>
    requires pass { IsPassOf nucleus.now pass.old }
    requires place { has_place (layout_of nucleus.now) place ≡ true }
    ensures pass { IsPassOf nucleus.now pass.new }
    ensures goes { Goes [] pass.old pass.new }
    ensures told { IsPumped nucleus.now place pass.old pass.new result }
{
    match nucleus.serve(rt, pass, place) {
        Ok(Pump::Served { from }) => Ok(Pumped::Served { from }),
        Ok(Pump::Idle { put, worked }) => Ok(Pumped::Idle {
            under_way: put.wrapping_sub(worked),
        }),
        Err(CallFault::Busy { .. }) => Ok(Pumped::Busy),
        Err(CallFault::Memory(_)) => Err(Halted),
        Err(CallFault::Worn { .. }) => Err(Halted),
    }
}

/// Pumps the home place behind a command, where its turn has come.
pub(crate) fn pump_behind<R: Wait>(
    rt: &R,
    nucleus: &Nucleus,
    pass: &mut Pass,
    share: &Share,
    pace: &mut Pace,
) -> Result<(), Halted>
    requires pass { IsPassOf nucleus.now pass.old }
    requires share { share.now.places ≡ places (layout_of nucleus.now) }
    ensures pass { IsPassOf nucleus.now pass.new }
    ensures goes { Goes [] pass.old pass.new }
    ensures unworn { OnOk result (worn_by pass.new ≡ worn_by pass.old) }
    ensures halted { OnErr result (IsHalted nucleus.now pass.new) }
{
    if pace.is_due() {
        let visit = pump_at(rt, nucleus, pass, share.home(), PUMPS_AT_A_PLACE)?;
        pace.note(visit.served > 0);
    }
    Ok(())
}

/// Pumps a place until it is idle, or so many times.
pub(crate) fn pump_at<R: Wait>(
    rt: &R,
    nucleus: &Nucleus,
    pass: &mut Pass,
    place: u16,
    most: u32,
) -> Result<Visit, Halted>
    requires pass { IsPassOf nucleus.now pass.old }
    requires place { has_place (layout_of nucleus.now) place ≡ true }
    ensures pass { IsPassOf nucleus.now pass.new }
    ensures goes { Goes [] pass.old pass.new }
    ensures unworn { OnOk result (worn_by pass.new ≡ worn_by pass.old) }
    ensures halted { OnErr result (IsHalted nucleus.now pass.new) }
{
    let mut from = None;
    for count in 0..most {
        match pump(rt, nucleus, pass, place)? {
            Pumped::Served { from: came } => from = Some(came),
            Pumped::Idle { under_way } => {
                return Ok(Visit {
                    served: count,
                    from,
                    under_way: Some(under_way),
                });
            }
            Pumped::Busy => {
                return Ok(Visit {
                    served: count,
                    from: None,
                    under_way: None,
                });
            }
        }
    }
    Ok(Visit {
        served: most,
        from,
        under_way: None,
    })
}

/// Pumps a place as often as the thread stays there.
fn stay_at<R: Wait>(
    rt: &R,
    nucleus: &Nucleus,
    pass: &mut Pass,
    place: u16,
    stay: &mut Stay,
) -> Result<Visit, Halted>
    requires pass { IsPassOf nucleus.now pass.old }
    requires place { has_place (layout_of nucleus.now) place ≡ true }
    ensures pass { IsPassOf nucleus.now pass.new }
    ensures goes { Goes [] pass.old pass.new }
    ensures unworn { OnOk result (worn_by pass.new ≡ worn_by pass.old) }
    ensures halted { OnErr result (IsHalted nucleus.now pass.new) }
{
    let most = stay.pumps_at(place);
    let mut visit = pump_at(rt, nucleus, pass, place, most)?;
    if !stay.note(place, most, visit.served, visit.under_way.is_some()) {
        visit.from = None;
    }
    Ok(visit)
}

/// The place that is pumped behind this visit, if one is.
fn next_place(layout: Layout, visit: Visit) -> Option<u16>
    ensures { IfSome result (λ place. has_place layout place ≡ true) }
{
    let from = visit.from?;
    if layout.has_place(from) {
        Some(from)
    } else {
        None
    }
}

/// Pumps a place, and then each time the one from which the last packet came, since what that led to was sent there: until nothing is
/// found or another thread has the place, or so many times. Gives what came of the first one.
fn follow<R: Wait>(
    rt: &R,
    nucleus: &Nucleus,
    pass: &mut Pass,
    place: u16,
    stay: &mut Stay,
) -> Result<Visit, Halted>
    requires pass { IsPassOf nucleus.now pass.old }
    requires place { has_place (layout_of nucleus.now) place ≡ true }
    ensures pass { IsPassOf nucleus.now pass.new }
    ensures goes { Goes [] pass.old pass.new }
    ensures unworn { OnOk result (worn_by pass.new ≡ worn_by pass.old) }
    ensures halted { OnErr result (IsHalted nucleus.now pass.new) }
{
    let layout = nucleus.layout();
    let first = stay_at(rt, nucleus, pass, place, stay)?;
    let mut visit = first;
    for _hop in 0..HOPS {
        let Some(next) = next_place(layout, visit) else {
            return Ok(first);
        };
        visit = stay_at(rt, nucleus, pass, next, stay)?;
    }
    Ok(first)
}

/// Pumps when all commands are done: the home place, and then the range of places where this thread is one of the last, until no
/// thread is at work and no packet under way, so that seat 0 finds little.
pub(crate) fn pump_on<R: Wait>(
    rt: &R,
    nucleus: &Nucleus,
    pass: &mut Pass,
    share: &Share,
    at_work: &AtWork,
) -> Result<(), Halted>
    requires pass { IsPassOf nucleus.now pass.old }
    requires share { share.now.places ≡ places (layout_of nucleus.now) }
    ensures pass { IsPassOf nucleus.now pass.new }
    ensures goes { Goes [] pass.old pass.new }
    ensures unworn { OnOk result (worn_by pass.new ≡ worn_by pass.old) }
    ensures halted { OnErr result (IsHalted nucleus.now pass.new) }
{
    pump_at(rt, nucleus, pass, share.home(), PUMPS_AT_A_PLACE)?;
    let range = share.range(at_work.finish());
    if range.before == range.last {
        at_work.leave();
        return Ok(());
    }
    sweep_on(rt, nucleus, pass, share, range, at_work)
}

/// Sweeps over the range of places until no thread is at work and no packet under way. Where it finds nothing it looks round.
fn sweep_on<R: Wait>(
    rt: &R,
    nucleus: &Nucleus,
    pass: &mut Pass,
    share: &Share,
    range: Stretch,
    at_work: &AtWork,
) -> Result<(), Halted>
    requires pass { IsPassOf nucleus.now pass.old }
    requires share { share.now.places ≡ places (layout_of nucleus.now) }
    requires range { range.last ≤ places (layout_of nucleus.now) }
    ensures pass { IsPassOf nucleus.now pass.new }
    ensures goes { Goes [] pass.old pass.new }
    ensures unworn { OnOk result (worn_by pass.new ≡ worn_by pass.old) }
    ensures halted { OnErr result (IsHalted nucleus.now pass.new) }
{
    let mut told = Told::new();
    let mut lately = Lately::new();
    let mut stay = Stay::new();
    let mut idle: u32 = 0;
    for _ in rt.forever() {
        let under_way = sweep(rt, nucleus, pass, range, &mut lately, &mut stay)?;
        let goes_on = lately.end_sweep();
        at_work.note(&mut told, goes_on, under_way);
        if at_work.is_over(&told) {
            return Ok(());
        }
        if !goes_on {
            idle = idle.wrapping_add(1);
            look_round(rt, nucleus, pass, share, idle, &mut stay)?;
        }
    }
    unreachable!()
}

/// Behind the idle sweep of this number: helps the others now and then, by a sweep over all places, and lets other threads run where
/// that finds nothing.
fn look_round<R: Wait>(
    rt: &R,
    nucleus: &Nucleus,
    pass: &mut Pass,
    share: &Share,
    idle: u32,
    stay: &mut Stay,
) -> Result<(), Halted>
    requires pass { IsPassOf nucleus.now pass.old }
    requires share { share.now.places ≡ places (layout_of nucleus.now) }
    ensures pass { IsPassOf nucleus.now pass.new }
    ensures goes { Goes [] pass.old pass.new }
    ensures unworn { OnOk result (worn_by pass.new ≡ worn_by pass.old) }
    ensures halted { OnErr result (IsHalted nucleus.now pass.new) }
{
    if idle % HELP != 1 {
        thread::yield_now();
        return Ok(());
    }
    let mut lately = Lately::new();
    sweep(rt, nucleus, pass, share.all(), &mut lately, stay)?;
    if !lately.found() {
        thread::yield_now();
    }
    Ok(())
}

/// Pumps the place where it is due, and follows what it works off.
fn pump_due<R: Wait>(
    rt: &R,
    nucleus: &Nucleus,
    pass: &mut Pass,
    place: u16,
    is_due: bool,
    stay: &mut Stay,
) -> Result<Visit, Halted>
    requires pass { IsPassOf nucleus.now pass.old }
    requires place { has_place (layout_of nucleus.now) place ≡ true }
    ensures pass { IsPassOf nucleus.now pass.new }
    ensures goes { Goes [] pass.old pass.new }
    ensures unworn { OnOk result (worn_by pass.new ≡ worn_by pass.old) }
    ensures halted { OnErr result (IsHalted nucleus.now pass.new) }
{
    if is_due {
        follow(rt, nucleus, pass, place, stay)
    } else {
        Ok(Visit {
            served: 0,
            from: None,
            under_way: None,
        })
    }
}

/// Pumps the places of the range that are due, and follows what they work off. Gives how many packets the places of the range put more
/// than they worked off, modulo 2^64, where each of them was due and idle.
pub(crate) fn sweep<R: Wait>(
    rt: &R,
    nucleus: &Nucleus,
    pass: &mut Pass,
    range: Stretch,
    lately: &mut Lately,
    stay: &mut Stay,
) -> Result<Option<u64>, Halted>
    requires pass { IsPassOf nucleus.now pass.old }
    requires range { range.last ≤ places (layout_of nucleus.now) }
    ensures pass { IsPassOf nucleus.now pass.new }
    ensures goes { Goes [] pass.old pass.new }
    ensures unworn { OnOk result (worn_by pass.new ≡ worn_by pass.old) }
    ensures halted { OnErr result (IsHalted nucleus.now pass.new) }
{
    let mut under_way = Some(0);
    for index in range.before..range.last {
        let is_due = lately.is_due(index + 1);
        let visit = pump_due(rt, nucleus, pass, index + 1, is_due, stay)?;
        lately.note(index + 1, visit.served > 0);
        under_way = sum(under_way, visit.under_way);
    }
    Ok(under_way)
}

/// The sum of two counts of packets under way, modulo 2^64, where both are known.
fn sum(so_far: Option<u64>, more: Option<u64>) -> Option<u64> {
    Some(so_far?.wrapping_add(more?))
}
