//! Bytes that come in and bytes that go out, with the faults of both counted.
//!
//! The layer above is generic in a [`Source`] and a [`Sink`]. It rests on this: a read gives a front of what is left, a
//! write appends a prefix, and `Failed` comes only where the count of faults rose. [`read_all`] gives the whole input,
//! [`write_all`] puts out a prefix and at `Ok` all of it. A source or a sink tells its bytes, or tells nothing of them:
//! those in memory tell all, the standard streams nothing.
//!
//! Begin with [`Source`] and [`Sink`]. `proofs/Callers.antt` has the lemmas for a text that is written in pieces, and
//! the crate `tests_io` a caller that cites them. All rules here are this project's own.
#![tactic(auto)]

mod count;
mod failed;
mod fault_plan;
mod mem_sink;
mod mem_source;
mod reading;
mod sink;
mod source;
mod standard;
mod writing;

pub use failed::Failed;
pub use mem_sink::MemSink;
pub use mem_source::MemSource;
pub use reading::{ReadAll, read_all};
pub use sink::Sink;
pub use source::Source;
pub use standard::{StdErrors, StdSink, StdSource, StdStream};
pub use writing::write_all;
