//! Why sessions were not run.

use std::alloc::AllocError;
use thiserror::Error;

/// Why sessions were not run. No behaviour was asked to do anything then, or memory was wanting to close.
#[derive(Clone, Copy, Debug, PartialEq, Eq, Error)]
pub enum SessionsFault {
    /// There is no memory.
    #[error("out of memory")]
    Memory(#[from] AllocError),
    /// A port was not made: its actor is none of the layout, its capacity is not from 1 to 64, or its place has made
    /// all its ports.
    #[error("a port was not made")]
    NoPort,
    /// A session did not come: its actor is none of the layout, or 1,048,575 came.
    #[error("a session did not come")]
    NoSession,
}
