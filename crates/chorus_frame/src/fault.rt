//! Why bytes are no frame.

ghost use Rattle.std.specs.Prelude.{◌≡◌};
ghost use Rattle.chorus_frame.specs.declared.fault.DecodeFault.TheVariants.{Memory};

use std::alloc::AllocError;
use thiserror::Error;

/// Why no packet was decoded: the first field, from the front, that could not be read.
#[derive(Clone, Copy, Debug, PartialEq, Eq, Error)]
pub enum DecodeFault {
    /// The bytes end inside the field, or before it.
    #[error("the bytes end before the packet does")]
    Short,
    /// The field is the number of a kind, a mode, a tag or an answer, and none with this number may stand there.
    #[error("an unknown kind of packet, mode, tag or answer")]
    Kind,
    /// The field is outside its range.
    #[error("a number or a name is outside its range")]
    Range,
    /// All fields were read, and bytes are left.
    #[error("bytes stand behind the packet")]
    Trailing,
    /// There was no memory for the packet.
    #[error("out of memory")]
    Memory(AllocError),
}

impl From<AllocError> for DecodeFault {
    ghost from_gives = { λ x e. e ≡ Memory x };

    fn from(error: AllocError) -> Self {
        DecodeFault::Memory(error)
    }
}
