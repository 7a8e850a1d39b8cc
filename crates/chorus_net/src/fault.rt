//! Why no seat was given.

ghost use Rattle.std.specs.Prelude.{◌≡◌};
ghost use Rattle.chorus_net.specs.declared.fault.EnterFault.TheVariants.{Memory};

use std::alloc::AllocError;
use thiserror::Error;

/// Why no seat was given. Nothing changed then.
#[derive(Clone, Copy, Debug, PartialEq, Eq, Error)]
pub enum EnterFault {
    /// The layout has no such actor.
    #[error("no such actor")]
    NoActor,
    /// All seats are given, `made` of them.
    #[error("all {made} seats are given")]
    NoSeat { made: u32 },
    /// There is no memory for one caller more.
    #[error("out of memory")]
    Memory(AllocError),
}

impl From<AllocError> for EnterFault {
    ghost from_gives = { λ x e. e ≡ Memory x };

    fn from(error: AllocError) -> Self {
        EnterFault::Memory(error)
    }
}
