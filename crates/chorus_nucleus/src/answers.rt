//! The answers of calls, from those of their turns.
ghost use Rattle.std.specs.Prelude.{◌≡◌};
ghost use Rattle.chorus_nucleus.specs.Calls.{answered};
ghost use Rattle.chorus_nucleus.specs.Reading.{answered_publish};
ghost use Rattle.chorus_nucleus.specs.Pumping.{pumped};

use crate::fault::CallFault;
use chorus_place::PlaceFault;
use chorus_serve::Pump;
use chorus_turn::Busy;
use std::alloc::AllocError;

/// The answer of a call of the nucleus, from that of its turn.
pub(crate) fn answer<T: Drop>(done: Result<Result<T, PlaceFault>, Busy>) -> Result<T, CallFault>
    ensures { result ≡ answered done }
{
    match done {
        Ok(Ok(x)) => Ok(x),
        Ok(Err(PlaceFault::Memory(none))) => Err(CallFault::Memory(none)),
        Ok(Err(PlaceFault::Worn { clock })) => Err(CallFault::Worn { clock }),
        Err(busy) => Err(CallFault::Busy { by: busy.by }),
    }
}

/// The answer of a publish of the nucleus, from that of its turn.
pub(crate) fn answer_publish(done: Result<Result<(), AllocError>, Busy>) -> Result<(), CallFault>
    ensures { result ≡ answered_publish done }
{
    match done {
        Ok(Ok(())) => Ok(()),
        Ok(Err(none)) => Err(CallFault::Memory(none)),
        Err(busy) => Err(CallFault::Busy { by: busy.by }),
    }
}

/// The answer of a pump of the nucleus, from that of its turn and from how its publish ended.
pub(crate) fn answer_pump(
    done: Result<Result<Pump, PlaceFault>, Busy>,
    published: Result<(), AllocError>,
) -> Result<Pump, CallFault>
    ensures { result ≡ pumped (answered done) published }
{
    match (answer(done), published) {
        (Ok(served), Ok(())) => Ok(served),
        (Ok(_), Err(none)) => Err(CallFault::Memory(none)),
        (Err(fault), _) => Err(fault),
    }
}
