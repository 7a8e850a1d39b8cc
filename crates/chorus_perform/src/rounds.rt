//! Seat 0 pumps all places until nothing is left.

ghost use Rattle.std.specs.Prelude.{◌≡◌, ◌<◌, ◌+◌, [], true, Ok, OnOk, OnErr};
ghost use Rattle.chorus_ui.specs.Layout.{has_place};
ghost use Rattle.chorus_nucleus.specs.Passes.{known, layout_of, worn_by, IsPassOf};
ghost use Rattle.chorus_perform.specs.Going.{Goes};
ghost use Rattle.chorus_perform.specs.Halting.{IsHalted, IsPumped};
ghost use Rattle.chorus_nucleus.specs.Rounds.{IsEven, IsRound};

use crate::pace::PUMPS_AT_A_PLACE;
use crate::pumping::pump_at;
use crate::stopped::Halted;
use chorus_nucleus::{CallFault, Nucleus, Pass};
use chorus_serve::Pump;
use std::sync::Wait;
use std::thread;

/// Pumps all places until nothing is left: those with work several times each, and then a round that finds each idle. The pass gives
/// no command. At Ok it has seen each place, and they worked off as many packets as they put; where other threads go on meanwhile,
/// that holds of what it has seen, and they may have put more.
///
/// `Halted` comes where a clock is worn, which `pass.worn()` then tells, or for want of memory. What was worked off till then stays
/// so, and the pass is still one of the nucleus. A place that another pass has is tried again: it is waited for as long as it is had.
pub fn settle<R: Wait>(rt: &R, nucleus: &Nucleus, pass: &mut Pass) -> Result<(), Halted>
    requires pass { IsPassOf nucleus.now pass.old }
    ensures pass { IsPassOf nucleus.now pass.new }
    ensures goes { Goes [] pass.old pass.new }
    ensures even { OnOk result (IsEven (layout_of nucleus.now) (known pass.new)) }
    ensures unworn { OnOk result (worn_by pass.new ≡ worn_by pass.old) }
    ensures halted { OnErr result (IsHalted nucleus.now pass.new) }
{
    for _ in rt.forever() {
        work_off(rt, nucleus, pass)?;
        if round(rt, nucleus, pass)? {
            return Ok(());
        }
    }
    unreachable!()
}

/// Pumps each place until it is idle, or several times, before a round asks whether nothing is left.
fn work_off<R: Wait>(rt: &R, nucleus: &Nucleus, pass: &mut Pass) -> Result<(), Halted>
    requires pass { IsPassOf nucleus.now pass.old }
    ensures pass { IsPassOf nucleus.now pass.new }
    ensures goes { Goes [] pass.old pass.new }
    ensures unworn { OnOk result (worn_by pass.new ≡ worn_by pass.old) }
    ensures halted { OnErr result (IsHalted nucleus.now pass.new) }
{
    for index in 0..nucleus.layout().places() {
        pump_at(rt, nucleus, pass, index + 1, PUMPS_AT_A_PLACE)?;
    }
    Ok(())
}

/// Pumps each place once. True where nothing is left: each place was idle, and they worked off as many packets as they put.
fn round<R: Wait>(rt: &R, nucleus: &Nucleus, pass: &mut Pass) -> Result<bool, Halted>
    requires pass { IsPassOf nucleus.now pass.old }
    ensures pass { IsPassOf nucleus.now pass.new }
    ensures goes { Goes [] pass.old pass.new }
    ensures even { result ≡ Ok true → IsEven (layout_of nucleus.now) (known pass.new) }
    ensures unworn { OnOk result (worn_by pass.new ≡ worn_by pass.old) }
    ensures halted { OnErr result (IsHalted nucleus.now pass.new) }
{
    let count = nucleus.layout().places();
    let mut sums = Sums {
        idle: true,
        put: 0,
        worked: 0,
    };
    for index in 0..count {
        visit(rt, nucleus, pass, index, &mut sums)?;
    }
    Ok(is_over(sums))
}

/// Whether nothing is left after a round that found this.
fn is_over(sums: Sums) -> bool
    ensures { result ≡ true → (sums.idle ≡ true) × (sums.put ≡ sums.worked) × (sums.put < u64.MAX) }
{
    sums.idle && sums.put == sums.worked && sums.put < u64::MAX
}

/// What a round has found so far: whether each place was idle, and the sums of what they put and worked off, up to 2^64 - 1.
#[derive(Clone, Copy)]
pub(crate) struct Sums {
    pub(crate) idle: bool,
    pub(crate) put: u64,
    pub(crate) worked: u64,
}

/// Pumps the place behind this index in a round, and adds to what the round has found.
fn visit<R: Wait>(
    rt: &R,
    nucleus: &Nucleus,
    pass: &mut Pass,
    index: u16,
    sums: &mut Sums,
) -> Result<(), Halted>
    requires pass { IsPassOf nucleus.now pass.old }
    requires place { has_place (layout_of nucleus.now) (index + 1) ≡ true }
    requires so_far { sums.old.idle ≡ true →
        IsRound index sums.old.put sums.old.worked (known pass.old) }
    ensures pass { IsPassOf nucleus.now pass.new }
    ensures goes { Goes [] pass.old pass.new }
    ensures round { sums.new.idle ≡ true →
        IsRound (index + 1) sums.new.put sums.new.worked (known pass.new) }
    ensures told { IsPumped nucleus.now (index + 1) pass.old pass.new result }
{
    match nucleus.serve(rt, pass, index + 1) {
        Ok(Pump::Idle { put, worked }) => {
            sums.put = sums.put.saturating_add(put);
            sums.worked = sums.worked.saturating_add(worked);
            Ok(())
        }
        Ok(Pump::Served { .. }) => {
            sums.idle = false;
            Ok(())
        }
        Err(CallFault::Busy { .. }) => {
            sums.idle = false;
            thread::yield_now();
            Ok(())
        }
        Err(CallFault::Memory(_)) => {
            sums.idle = false;
            Err(Halted)
        }
        Err(CallFault::Worn { .. }) => {
            sums.idle = false;
            Err(Halted)
        }
    }
}
