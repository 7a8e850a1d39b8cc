//! The process: its words, its three streams and its exit status.

use crate::conclusion::{Conclusion, end_as};
use crate::ending::{ended, without_words};
use crate::own_nucleus::start_program;
use chorus_io::{StdErrors, StdSink, StdSource};
use std::process::ExitCode;
use std::sync::Wait;
use std::thread::Threads;
use std::{env, io};

/// Does what the words of the process say, by [`start_program`] between its standard input and output, and ends by [`ended`] with
/// standard error. The runtime is given twice, since only `main` has its leave to start threads and to wait.
///
/// What the process is given and shows is the trusted edge, so this call promises nothing; programs with a stored run each test it.
pub fn process<R: Threads + Wait + Sync>(host: &HostRuntime, rt: &R) -> ExitCode {
    let end = match run(host, rt) {
        Ok(end) => end,
        Err(fault) => end_as(without_words(&fault)),
    };
    let mut errors = StdErrors::new(host.stderr());
    ExitCode::from(ended(end.finished.status, end.verdict, &mut errors))
}

/// Does what the words after the program's name say. An error is want of memory for the words, or a word that is no text.
fn run<R: Threads + Wait + Sync>(host: &HostRuntime, rt: &R) -> io::Result<Conclusion> {
    let alloc = host.alloc();
    let words: Vec<String> = env::args(host)?.skip(1).collect(alloc)?;
    let words: Vec<&str> = words.iter().map(|word| word.as_str()).collect(alloc)?;
    let mut source = StdSource::new(host.stdin());
    let mut sink = StdSink::new(host.stdout());
    Ok(start_program(alloc, rt, &words, &mut source, &mut sink))
}
