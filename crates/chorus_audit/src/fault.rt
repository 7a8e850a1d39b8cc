//! Why a line is not read.

ghost use Rattle.std.specs.Prelude.{◌≡◌};
ghost use Rattle.chorus_audit.specs.declared.fault.Unread.TheVariants.{Memory};

use std::alloc::{AllocError, AllocFailed};

/// Why a line is not read.
#[derive(Clone, Copy)]
pub(crate) enum Unread {
    /// It is no entry's line.
    NoEntry,
    /// There was no memory.
    Memory(AllocError),
}

impl From<AllocError> for Unread {
    ghost from_gives = { λ x e. e ≡ Memory x };

    fn from(error: AllocError) -> Self {
        Unread::Memory(error)
    }
}

impl<T: Drop> From<AllocFailed<T>> for Unread {
    ghost use Rattle.std.specs.Prelude.{alloc_error};

    ghost from_gives = { λ _ e. e ≡ Memory alloc_error };

    fn from(_failed: AllocFailed<T>) -> Self {
        Unread::Memory(AllocError)
    }
}
