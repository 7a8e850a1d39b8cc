//! The crew.
ghost use Rattle.std.specs.Prelude.{◌≡◌, ◌+◌, ◌<◌, ◌≤◌, ◌↔◌, ℕ, true, false, None, Some, [], IfOk, IfErr, OnOk, OnErr, length};
ghost use Rattle.chorus_turn.specs.Knowing.{limit};
ghost use Rattle.chorus_nucleus.specs.Passes.{layout_of, known, worn_by};
ghost use Rattle.chorus_crew.specs.declared.fault.CrewFault.TheVariants as CrewFault;
ghost use Rattle.chorus_crew.specs.Crews.{IsCaller, HasSeats, HasFoldedAll, HasStopped, FaultsTell, GivesFault};
ghost use Rattle.chorus_crew.specs.Pairs.{are_pairs};
ghost use Rattle.chorus_crew.specs.Retiring.{IsRetired};
ghost use Rattle.chorus_crew.specs.Tools.{IsEquipped};

use crate::doing::do_jobs;
use crate::fault::{CrewFault, Unfinished};
use crate::folding::{Fold, Folded};
use crate::making_jobs::enter_all;
use crate::retiring::retire_done;
use crate::tools::{Tools, tools_for};
use chorus_nucleus::{Nucleus, Pass};
use chorus_ui::{SEATS_LIMIT, Ui};
use std::alloc::{AllocError, Global};
use std::sync::Wait;
use std::thread::Threads;

/// What the crew answers: with the clock that the caller's pass has as worn, and whether each job was done to its end.
fn answer<S: Drop>(
    worn: Option<u64>,
    all: bool,
    folded: Vec<Folded<S>>,
) -> Result<Vec<Folded<S>>, Unfinished<S>>
    ensures ok { IfOk result (λ v. (v ≡ folded) × (all ≡ true) × (worn ≡ None)) }
    ensures stopped { IfErr result (λ u. u.folded ≡ folded) }
    ensures cause { OnErr result (worn ≡ None → all ≡ false) }
    ensures worn { (clock : ℕ) → GivesFault result (CrewFault.Worn clock) → worn ≡ Some clock }
    ensures no_seat { (made : ℕ) → GivesFault result (CrewFault.NoSeat made) → ⊥ }
{
    let fault = match worn {
        Some(clock) => CrewFault::Worn { clock },
        None => {
            if all {
                return Ok(folded);
            }
            CrewFault::Memory(AllocError)
        }
    };
    Err(Unfinished { fault, folded })
}

/// Enters a pass for each pair, does the jobs, and retires all passes. There are numbers for them all.
fn run_crew<F: Fold, R: Threads + Wait + Sync>(
    rt: &R,
    nucleus: &Nucleus,
    pass: &mut Pass,
    ports: &[(Ui, Ui)],
    mut tools: Tools<F::State>,
    mut folded: Vec<Folded<F::State>>,
    workers: usize,
    fold: &F,
) -> Result<Vec<Folded<F::State>>, Unfinished<F::State>>
    requires caller { IsCaller nucleus.now pass.old }
    requires seats { HasSeats (layout_of nucleus.now) ports.now pass.old }
    requires equipped { IsEquipped (length ports.now) workers tools folded }
    ensures retired { IsRetired nucleus.now pass.old pass.new }
    ensures ok { IfOk result (λ v. HasFoldedAll (F.way fold.now) nucleus.now ports.now v.items
        pass.old pass.new) }
    ensures unworn { OnOk result (worn_by pass.new ≡ None) }
    ensures stopped { IfErr result (λ u. HasStopped (F.way fold.now) nucleus.now ports.now
        u.folded.items pass.old pass.new) }
    ensures faults { FaultsTell (GivesFault result) (length ports.now) pass.old pass.new }
{
    if let Err(fault) = enter_all(nucleus, pass, ports, &mut tools.jobs) {
        return Err(Unfinished {
            fault: CrewFault::Memory(fault),
            folded,
        });
    }
    let mut slots = do_jobs(rt, nucleus, fold, tools, workers);
    let all = retire_done(nucleus, pass, &mut slots, &mut folded);
    answer(pass.worn(), all, folded)
}

/// That the caller's pass has a number for each pair of a crew, else `NoSeat`.
pub(crate) fn seats_for(pass: &Pass, ports: &[(Ui, Ui)]) -> Result<(), CrewFault>
    ensures ok { OnOk result ((known pass.now).made + length ports.now ≤ limit) }
    ensures no_seat { IfErr result (λ f. (f ≡ CrewFault.NoSeat (known pass.now).made)
        × (limit < (known pass.now).made + length ports.now)) }
{
    let made = pass.made();
    if made as usize + ports.len() > SEATS_LIMIT as usize {
        return Err(CrewFault::NoSeat { made });
    }
    Ok(())
}

/// A crew that was not begun.
fn not_begun<S: Drop>(alloc: Global, fault: CrewFault) -> Unfinished<S>
    ensures fault { result.fault ≡ fault }
    ensures nothing { result.folded.items ≡ [] }
{
    Unfinished {
        fault,
        folded: Vec::new(alloc),
    }
}

/// Handles all messages that wait in the ports, with so many workers in threads. Each pair has a port and the actor in
/// which a new pass takes from it, as [`are_pairs`](crate::are_pairs) tells, and there are 1 to 16 workers. The
/// caller's pass is the keeper, and was not worn.
///
/// At Ok there is one `Folded` for each pair, in their order: the takes of its port, and then one Empty or NotHere,
/// stand in the pass's new note, and each message that was taken was handled exactly once, in the order of the takes:
/// the state is that after all of them. At every answer each pass that the call drew is retired into the caller's.
///
/// At a fault what was taken till then is gone from the ports. It was handled, each message once and in order, and is
/// told: of each pair the state, and why it ended. Or nothing was taken. `NoSeat` comes exactly where
/// fewer numbers are left than there are pairs, and nothing was done then; `Worn` tells the pass's first worn clock.
pub fn crew_with<F: Fold, R: Threads + Wait + Sync>(
    rt: &R,
    alloc: Global,
    nucleus: &Nucleus,
    pass: &mut Pass,
    ports: &[(Ui, Ui)],
    workers: u16,
    fold: &F,
) -> Result<Vec<Folded<F::State>>, Unfinished<F::State>>
    requires caller { IsCaller nucleus.now pass.old }
    requires ports { are_pairs (layout_of nucleus.now) ports.now ≡ true }
    requires workers { (1 ≤ workers) × (workers ≤ 16) }
    ensures retired { IsRetired nucleus.now pass.old pass.new }
    ensures ok { IfOk result (λ v. HasFoldedAll (F.way fold.now) nucleus.now ports.now v.items
        pass.old pass.new) }
    ensures unworn { OnOk result (worn_by pass.new ≡ None) }
    ensures stopped { IfErr result (λ u. HasStopped (F.way fold.now) nucleus.now ports.now
        u.folded.items pass.old pass.new) }
    ensures faults { FaultsTell (GivesFault result) (length ports.now) pass.old pass.new }
{
    if let Err(fault) = seats_for(pass, ports) {
        return Err(not_begun(alloc, fault));
    }
    let Ok(tools) = tools_for(alloc, ports.len(), usize::from(workers)) else {
        return Err(not_begun(alloc, CrewFault::Memory(AllocError)));
    };
    let Ok(folded) = Vec::with_capacity(alloc, ports.len()) else {
        return Err(not_begun(alloc, CrewFault::Memory(AllocError)));
    };
    run_crew(
        rt,
        nucleus,
        pass,
        ports,
        tools,
        folded,
        usize::from(workers),
        fold,
    )
}
