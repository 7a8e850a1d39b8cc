//! A take of a port: one try, and tries until the place is free.
ghost use Rattle.std.specs.Prelude.{◌≡◌, true, false, IfErr};
ghost use Rattle.chorus_ui.specs.NameKind.{is_port};
ghost use Rattle.chorus_nucleus.specs.Passes.{IsPassOf};
ghost use Rattle.chorus_nucleus.specs.Taking.{IsTake, is_busy};

use crate::fault::CallFault;
use crate::nucleus::Nucleus;
use crate::pass::Pass;
use crate::taken_message::{ByTake, TakeAnswer, TakenMessage};
use chorus_ui::Ui;
use law_machine::Reply;
use std::sync::Wait;
use std::thread;

/// Takes the first message of the port, in one turn at the port's place on the caller's site. `NotHere` comes exactly
/// where the caller's actor does not hold the port there, and `Empty` exactly where it does and no message waits. The
/// faults are those of [`Nucleus::take`], which tries the place once.
#[tactic(auto, using(crate::proofs::TakeTurns::calls))]
pub fn take_once(nucleus: &Nucleus, pass: &mut Pass, port: Ui) -> Result<TakeAnswer, CallFault>
    requires pass { IsPassOf nucleus.now pass.old }
    requires port { is_port port ≡ true }
    ensures { IsTake nucleus.now port result pass.old pass.new }
{
    match nucleus.take(pass, port) {
        Ok(
            Reply::Taken {
                pos,
                message,
                settled,
            },
        ) => Ok(TakeAnswer::Took(TakenMessage {
            position: pos,
            message,
            settled,
            by_take: ByTake,
        })),
        Ok(Reply::Empty) => Ok(TakeAnswer::Empty),
        Ok(Reply::NotHere) => Ok(TakeAnswer::NotHere),
        Ok(_) => unreachable!(),
        Err(fault) => Err(fault),
    }
}

/// Takes the first message of the port, and tries again while another pass has the place. So it never answers `Busy`;
/// no entry is appended by a try that found the place held.
#[tactic(auto, using(crate::proofs::Trying::trying))]
pub fn take_when_free<R: Wait>(
    rt: &R,
    nucleus: &Nucleus,
    pass: &mut Pass,
    port: Ui,
) -> Result<TakeAnswer, CallFault>
    requires pass { IsPassOf nucleus.now pass.old }
    requires port { is_port port ≡ true }
    ensures take { IsTake nucleus.now port result pass.old pass.new }
    ensures free { IfErr result (λ f. is_busy f ≡ false) }
{
    for _ in rt.forever() {
        match take_once(nucleus, pass, port) {
            Ok(answer) => return Ok(answer),
            Err(CallFault::Busy { by: _ }) => thread::yield_now(),
            Err(CallFault::Memory(none)) => return Err(CallFault::Memory(none)),
            Err(CallFault::Worn { clock }) => return Err(CallFault::Worn { clock }),
        }
    }
    unreachable!()
}
