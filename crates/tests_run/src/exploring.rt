//! What explorations tell, over memory. What is not as it is to be ends the test.

use crate::running::{assert_same, run_of, sink_of, sixteen, source_of};
use chorus_explore::explore;
use chorus_io::{Sink, Source};
use chorus_show::Status;
use std::alloc::Global;
use std::process::Abort;

/// A limit of events that no exploration meets here.
pub(crate) const MANY: u32 = 1_000_000;

/// Explores what the source gives, on sixteen sites, with at most so many events and draws from this first state, and gives the status
/// with which that ends.
fn explore_on<S: Source, K: Sink>(
    rt: &impl Abort,
    alloc: Global,
    most: u32,
    first: u64,
    source: &mut S,
    sink: &mut K,
) -> Status {
    explore(alloc, sixteen(rt), most, first, source, sink)
}

/// What an exploration with at most so many events tells of the scenario.
pub(crate) fn told(rt: &impl Abort, alloc: Global, most: u32, text: &str) -> String {
    told_from(rt, alloc, most, 1, text)
}

/// The same, with draws from this first state.
pub(crate) fn told_from(
    rt: &impl Abort,
    alloc: Global,
    most: u32,
    first: u64,
    text: &str,
) -> String {
    let mut source = source_of(rt, alloc, text.as_bytes(), &[]);
    let mut sink = sink_of(rt, alloc, 4096, &[]);
    let status = explore_on(rt, alloc, most, first, &mut source, &mut sink);
    assert_same(rt, status, Status::Done, text);
    run_of(rt, alloc, status, false, &sink).written
}
