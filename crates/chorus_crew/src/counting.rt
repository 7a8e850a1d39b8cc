//! The crew that adds up what messages are worth.
ghost use Rattle.std.specs.Prelude.{◌≡◌, ◌+◌, ◌<◌, ◌≤◌, ◌++◌, ◌↔◌, ℕ, true, None, Some, [], IfOk, OnOk, OnErr, IsErrOf, length, map, vec_capacity};
ghost use Rattle.chorus_turn.specs.Knowing.{limit};
ghost use Rattle.chorus_nucleus.specs.Passes.{layout_of, known, worn_by};
ghost use Rattle.chorus_crew.specs.declared.fault.CrewFault.TheVariants as CrewFault;
ghost use Rattle.chorus_crew.specs.Counting.{handled_from};
ghost use Rattle.chorus_crew.specs.Crews.{IsCaller, HasHandled, HasStoppedAdding, FaultsTell};
ghost use Rattle.chorus_crew.specs.Pairs.{are_pairs};
ghost use Rattle.chorus_crew.specs.Retiring.{IsRetired};

use crate::crews::{crew_with, seats_for};
use crate::fault::CrewFault;
use crate::folding::{Fold, Folded};
use crate::handler::{Handled, Handler};
use chorus_nucleus::{Nucleus, Pass, TakenMessage};
use chorus_ui::Ui;
use std::alloc::{AllocError, Global};
use std::sync::Wait;
use std::thread::Threads;

/// The values of a handler are added up.
#[derive(Drop)]
struct Adding<'a, H> {
    handler: &'a H,
}

impl<'a, H: Handler> Fold for Adding<'a, H> {
    ghost use Rattle.chorus_crew.specs.Handling.{adding};

    type State = u64;

    ghost way = { λ self. adding (H.value self.handler.now) };

    fn begin(&self, _port: Ui) -> u64 {
        0
    }

    fn handle(&self, state: &mut u64, port: Ui, taken: TakenMessage) {
        let value = self.handler.handle(port, taken.position, &taken.message);
        *state = state.wrapping_add(value);
    }
}

/// What a crew that adds up did at a port.
fn handled_from(folded: &Folded<u64>) -> Handled
    ensures { result ≡ handled_from folded.now }
{
    Handled {
        port: folded.port,
        from: folded.from,
        count: folded.count,
        total: folded.state,
    }
}

/// What it did at each port, behind what stands there.
fn count_all(folded: &[Folded<u64>], handled: &mut Vec<Handled>)
    requires { length handled.old.items + length folded.now ≤ vec_capacity handled.old }
    ensures { handled.new.items ≡ handled.old.items ++ map handled_from folded.now }
{
    if let [first, rest @ ..] = folded {
        handled.push_reserved(handled_from(first));
        count_all(rest, handled);
    }
}

/// Handles all messages that wait in the ports, with so many workers in threads, and adds up their values: what
/// [`crew_with`] does with a handler whose state is the sum. Each pair has a port and the actor in which a new pass
/// takes from it, as [`are_pairs`](crate::are_pairs) tells, and there are 1 to 16 workers. The caller's pass is the
/// keeper, and was not worn.
///
/// At Ok there is one `Handled` for each pair, in their order: the takes of its port, each message handled once in
/// their order, and then one Empty or NotHere, stand in the pass's new note. At every answer each pass that the call
/// drew is retired into the caller's. `NoSeat` comes exactly where fewer numbers are left than there are pairs, and
/// nothing was done then; `Worn` tells the pass's first worn clock. At a fault in the midst what was taken till then
/// was handled and is gone from the ports, and its totals are lost: [`crew_with`] keeps them.
pub fn crew<H: Handler, R: Threads + Wait + Sync>(
    rt: &R,
    alloc: Global,
    nucleus: &Nucleus,
    pass: &mut Pass,
    ports: &[(Ui, Ui)],
    workers: u16,
    handler: &H,
) -> Result<Vec<Handled>, CrewFault>
    requires caller { IsCaller nucleus.now pass.old }
    requires ports { are_pairs (layout_of nucleus.now) ports.now ≡ true }
    requires workers { (1 ≤ workers) × (workers ≤ 16) }
    ensures retired { IsRetired nucleus.now pass.old pass.new }
    ensures ok { IfOk result (λ v. HasHandled (H.value handler.now) nucleus.now ports.now v.items
        pass.old pass.new) }
    ensures unworn { OnOk result (worn_by pass.new ≡ None) }
    ensures stopped { OnErr result (HasStoppedAdding (H.value handler.now) nucleus.now ports.now
        pass.old pass.new) }
    ensures faults { FaultsTell (IsErrOf result) (length ports.now) pass.old pass.new }
{
    seats_for(pass, ports)?;
    let Ok(mut handled) = Vec::with_capacity(alloc, ports.len()) else {
        return Err(CrewFault::Memory(AllocError));
    };
    match crew_with(
        rt,
        alloc,
        nucleus,
        pass,
        ports,
        workers,
        &Adding { handler },
    ) {
        Ok(folded) => {
            count_all(&folded, &mut handled);
            Ok(handled)
        }
        Err(unfinished) => Err(unfinished.fault),
    }
}
