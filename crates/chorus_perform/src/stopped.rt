//! Why a scenario was not performed.

ghost use Rattle.std.specs.Prelude.{◌≡◌, ℕ, Some, None};
ghost use Rattle.std.specs.declared.alloc.AllocError.{AllocError};
ghost use Rattle.chorus_nucleus.specs.Passes.{worn_by};

use chorus_nucleus::Pass;
use std::alloc::AllocError;

/// Why not all of a scenario was performed.
#[derive(Debug, Drop)]
pub enum Stopped {
    /// There was no memory.
    Memory(AllocError),
    /// A clock came to its limit: the one that the pass then has as worn.
    Worn { clock: u64 },
}

/// A pass stopped: its last call was told that a clock was worn, which `Pass::worn` then has if it is the first, or that there was no
/// memory; not that a place was busy.
/// The nucleus and the pass are sound still: more calls may be tried, and the pass may be retired, or close the nucleus.
#[derive(Clone, Copy, Debug)]
pub struct Halted;

/// Why all threads stopped, when all passes of the scripts were retired into this one.
pub(crate) fn reason(pass: &Pass) -> Stopped
    ensures worn { (clock : ℕ) → result ≡ Stopped.Worn clock → worn_by pass.now ≡ Some clock }
    ensures memory { (none : AllocError) → result ≡ Stopped.Memory none → worn_by pass.now ≡ None }
{
    match pass.worn() {
        Some(clock) => Stopped::Worn { clock },
        None => Stopped::Memory(AllocError),
    }
}
