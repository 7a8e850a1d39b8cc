//! Tests of what carries bytes: sources and sinks (`chorus_io`), the two ends of a bad line (`chorus_transport`), and bytes carried
//! over a line that loses by draws (`chorus_lossy`).
//!
//! Begin with `bytes`, faults in mid-stream, and `above`, what a caller proves of sources and sinks. `chunks` has the two ends;
//! `carrying` has what `lossy` counts, `printing` what it writes and how sources and sinks end it, and `proofs/Examples` what
//! becomes of a chunk by its draw.
#![tactic(auto)]

#[cfg(test)]
mod above;
#[cfg(test)]
mod bytes;
#[cfg(test)]
mod carrying;
#[cfg(test)]
mod chunks;
#[cfg(test)]
mod printing;
