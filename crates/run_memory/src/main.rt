//! The program over memory, case by case.
//!
//! Standard input has cases, each ended by `%`: a line of words, and behind it what they read. Each is done by [`start_program`] between a
//! source that holds that and a sink that takes one byte at a write. When the call has ended there come the line of [`ended`], the exit
//! status, how many bytes the sink holds, and these bytes; where the line begins with `digest` and all was done, only the digest of
//! them. So one stored run has words that run threads, words that are none, a text that is refused, and two hundred drawn races, beside an
//! explorer that was written anew from the rules (`scripts/explorer`).
//!
//! Behind the cases it is the program itself, where it was given words: these find standard input at its end. So the stored run, with
//! `replay`, shows that of a process too which ends with a status that is not 0.
//!
//! Where there was no memory before a call, or what it left could not be printed, the exit status is another one, so that neither is taken
//! for an end of the call. Behind a call nothing takes memory before the next case. `bench/fail_allocations --in-memory` gives one case,
//! refuses its allocations in turn, and compares.

#![tactic(auto)]

mod digest;

use crate::digest::{digest_of, say_number};
use chorus_io::{
    Failed, MemSink, MemSource, Sink, Source, StdSink, StdSource, read_all, write_all,
};
use chorus_program::{Verdict, ended, process, start_program};
use chorus_show::Status;
use std::alloc::Global;
use std::env;
use std::process::ExitCode;
use std::sync::Wait;
use std::thread::Threads;

/// The exit status where a call did not begin.
const NOT_BEGUN: u8 = 64;

/// The exit status where it could not be said how a call ended.
const NOT_SAID: u8 = 65;

/// How the call of a case ended, what was found, what it wrote, and whether only a digest of that is printed.
#[derive(Drop)]
struct Called {
    status: Status,
    verdict: Option<Verdict>,
    sink: MemSink,
    is_digest: bool,
}

/// Does the cases of standard input in memory; when all were done and words were given, runs the program too.
fn main(rt: HostRuntime) -> ExitCode {
    let number = run(&rt, &rt);
    if number == 0 && has_words(&rt) {
        return process(&rt, &rt);
    }
    ExitCode::from(number)
}

/// Whether the process was given words, beside the cases of standard input.
fn has_words(host: &HostRuntime) -> bool {
    match env::args(host) {
        Ok(mut words) => words.nth(1).is_some(),
        Err(_) => false,
    }
}

/// Does the cases of standard input. Gives the exit status. The runtime is given twice, since only `main` has its leave to start threads
/// and to wait.
fn run<R: Threads + Wait + Sync>(host: &HostRuntime, rt: &R) -> u8 {
    let alloc = host.alloc();
    let Ok(input) = read_all(alloc, &mut StdSource::new(host.stdin()), usize::MAX) else {
        return NOT_BEGUN;
    };
    let mut output = StdSink::new(host.stdout());
    for case in input.split(|byte| *byte == b'%') {
        let case = case.strip_prefix(b"\n").unwrap_or(case);
        if !case.is_empty() {
            let Some(called) = call_of(rt, alloc, case) else {
                return NOT_BEGUN;
            };
            if say(&called, &mut output).is_err() {
                return NOT_SAID;
            }
        }
    }
    0
}

/// The call of a case of standard input, done in memory. None where it did not begin.
fn call_of<R: Threads + Wait + Sync>(rt: &R, alloc: Global, case: &[u8]) -> Option<Called> {
    let end = case.iter().position(|byte| *byte == b'\n')?;
    let line = String::from_utf8(Vec::from_slice(alloc, &case[..end]).ok()?).ok()?;
    let is_digest = line.as_str().starts_with("digest ");
    let front = if is_digest { 1 } else { 0 };
    let words: Vec<&str> = line.as_str().split(" ").skip(front).collect(alloc).ok()?;
    let input = Vec::from_slice(alloc, &case[end + 1..]).ok()?;
    let mut source = MemSource::new(input, Vec::new(alloc));
    let mut sink = MemSink::new(alloc, 1, Vec::new(alloc));
    let (status, verdict) = call(rt, alloc, &words, &mut source, &mut sink);
    Some(Called {
        status,
        verdict,
        sink,
        is_digest,
    })
}

/// Does the words of a case between the source and the sink, and gives how that ended.
fn call<R: Threads + Wait + Sync, S: Source, K: Sink>(
    rt: &R,
    alloc: Global,
    words: &[&str],
    source: &mut S,
    sink: &mut K,
) -> (Status, Option<Verdict>) {
    let end = start_program(alloc, rt, words, source, sink);
    (end.finished.status, end.verdict)
}

/// Prints how the call of a case ended, and what its sink holds or the digest of that.
fn say<K: Sink>(called: &Called, output: &mut K) -> Result<(), Failed> {
    let held = called.sink.bytes();
    if called.is_digest && called.status == Status::Done {
        return digest_of(held).say(output);
    }
    let number = ended(called.status, called.verdict, output);
    say_number(b"status ", u64::from(number), output)?;
    say_number(b" with ", held.len() as u64, output)?;
    write_all(output, b" bytes\n")?;
    write_all(output, held)
}
