//! Why a crew stopped, and what it had done till then.

use crate::folding::Folded;
use std::alloc::AllocError;
use thiserror::Error;

/// Why a crew stopped. Each pass that it entered is retired into the caller's, and the messages that were taken till
/// then were handled and are gone from their ports.
#[derive(Clone, Copy, Debug, PartialEq, Eq, Error)]
pub enum CrewFault {
    /// There is no memory.
    #[error("out of memory")]
    Memory(AllocError),
    /// A clock is at its limit: that of the caller's pass's `worn`.
    #[error("worn at clock {clock}")]
    Worn {
        /// That clock, at least 2^62.
        clock: u64,
    },
    /// Fewer numbers are left than there are ports. Nothing was done.
    #[error("{made} numbers are drawn")]
    NoSeat {
        /// How many numbers the caller's pass has drawn.
        made: u32,
    },
}

/// What a crew had done when it stopped.
#[derive(Drop)]
pub struct Unfinished<S> {
    /// Why it stopped.
    pub fault: CrewFault,
    /// What it did at each pair's port, in their order; empty where no message was taken.
    pub folded: Vec<Folded<S>>,
}
