//! What the word `run` prints: a journal, which the word `audit` is to find legal, and a summary.

use crate::ground::{assert_prints, assert_same, run_on};
use chorus_show::Status;
use std::alloc::Global;
use std::process::Abort;
use std::sync::Wait;
use std::thread::Threads;

/// The journal and the summary that `run` prints of the scenario, with so many places a site: the journal is lawful, and at its end
/// nothing is on its way.
pub(crate) fn printed_by_run(
    rt: &(impl Abort + Threads + Wait + Sync),
    alloc: Global,
    turns: &str,
    scenario: &str,
) -> String {
    let run = run_on(rt, alloc, &["run", turns], scenario);
    assert_same(rt, run.status, Status::Done, turns);
    assert_lawful(rt, alloc, turns, run.written.as_str());
    run.written
}

/// Asserts that what `run` printed is lawful on 16 sites with so many places each, with as many entries as it says.
fn assert_lawful(
    rt: &(impl Abort + Threads + Wait + Sync),
    alloc: Global,
    turns: &str,
    printed: &str,
) {
    let entries = counted(rt, printed, "journal ");
    let verdict = format!(in alloc; "legal {entries}\n").expect(rt, "memory");
    assert_prints(
        rt,
        alloc,
        &["audit", "16", turns],
        printed,
        verdict.as_str(),
    );
    assert_same(rt, counted(rt, printed, "moving "), 0, turns);
}

/// The number behind the name in what the program printed; 0 where no line begins with that.
pub(crate) fn counted(rt: &impl Abort, printed: &str, name: &str) -> u64 {
    for line in printed.lines() {
        if let Some(number) = line.strip_prefix(name) {
            return number.trim().parse().ok().expect(rt, "a number");
        }
    }
    0
}
