//! Why a call was refused.

use std::alloc::AllocError;
use thiserror::Error;

/// Why a call was refused. No entry was appended, and the caller is as it was but for its last clock; after `Memory` and `Worn` the pass may have seen more of
/// the place's journal. A pump may have moved packets before it was refused, and a publish may have published a beginning.
#[derive(Clone, Copy, Debug, PartialEq, Eq, Error)]
pub enum CallFault {
    /// Another pass had the place: the number of the one that held it at the call's one try.
    #[error("the pass with number {by} has the place")]
    Busy {
        /// The number of the other pass, below 1,048,576.
        by: u32,
    },
    /// There is no memory for the turn.
    #[error("out of memory")]
    Memory(AllocError),
    /// The greatest of the clocks that the turn compares is at least 2^62.
    #[error("worn at clock {clock}")]
    Worn {
        /// That clock.
        clock: u64,
    },
}
