//! What places cost, and peers at a port of a nucleus.
//!
//! With no words it does a little of each and prints what came of it, which never varies. With `place` it prints nanoseconds of a round at
//! two sites on one thread, with messages that wait and behind a long journal, each the best of some tries, in which what is compared takes
//! turns. With `peers` four senders and three movers work once at one port, and it prints what came of their messages and how many were
//! sent and received a second. With `looks` it prints nanoseconds of what appends no entry: to be told something, and to serve and publish
//! where there is nothing to do.
#![tactic(auto)]

mod looks;
mod measured_nucleus;
mod peers;
mod sites;
mod two_sites;

use std::alloc::Global;
use std::sync::Wait;
use std::thread::Threads;
use std::time::Clock;
use std::{env, io};

/// Prints the figures that the first word of the command line asks for; without one, what a little work gives.
fn main(rt: HostRuntime) -> io::Result<()> {
    match env::args(&rt)?.nth(1) {
        Some(word) => print_figures(&rt, rt.alloc(), word.as_str()),
        None => print_few(&rt, rt.alloc()),
    }
}

/// Prints the rates or times of the part of chorus that the word names, or else which words there are.
fn print_figures<R: Threads + Sync + Wait + Clock + Print>(
    rt: &R,
    alloc: Global,
    word: &str,
) -> io::Result<()> {
    match word {
        "place" => two_sites::print_times(rt, alloc),
        "peers" => peers::print_rates(rt, alloc),
        "looks" => looks::print_times(rt, alloc),
        _ => println!(rt; "the words are place, peers and looks"),
    }
}

/// Does a little of each part that is measured, and prints what came of it, without any time.
fn print_few<R: Threads + Sync + Wait + Clock + Print>(rt: &R, alloc: Global) -> io::Result<()> {
    two_sites::print_few(rt, alloc)?;
    peers::print_few(rt, alloc)?;
    looks::print_few(rt, alloc)
}
