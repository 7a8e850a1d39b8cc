//! A counter that moves between two sites, while clients on three sites add to it by calls, and make each call more than once.
//!
//! The counter is a port, and adding one is a call to it: a message that the port hands out counts one, and its number is 1 more than
//! its position there. So the counter's state goes along with the port. Its promise (`specs/Counting.antt`): each call is counted at
//! most once, however often it was made again, whoever held the counter and wherever it was; and once where its client was told.
//! `running` runs it. `comers`, `calling` and `serving` say what clients and servers do; nothing in them is proved but that their calls
//! may be made, since the promise is the library's, whatever they do.
//!
//! What it prints does not tell who was faster. With a word it prints the journal and its summary instead, for the audit.
#![tactic(auto)]

mod calling;
mod comers;
mod counting;
mod giving;
mod report;
mod running;
mod serving;

use chorus_ui::{Kind, Layout, Ui};
use comers::{Comer, Role, actor};
use report::{print_journal, report};
use running::{Finished, run_counter};
use std::alloc::Global;
use std::env;
use std::process::ExitCode;
use std::sync::Wait;
use std::thread::Threads;

/// How often each client adds one.
const ADDS: u8 = 8;

/// Runs the counter, and prints its report, or with a word its journal; the exit status is a failure where either could not be done.
fn main(rt: HostRuntime) -> ExitCode {
    match run(&rt, &rt) {
        Some(()) => ExitCode::SUCCESS,
        None => ExitCode::FAILURE,
    }
}

/// Runs the counter and prints; None where that fails. The runtime is given twice, since only `main` has its leave to start threads and
/// to wait.
fn run<R: Threads + Wait + Sync>(host: &HostRuntime, rt: &R) -> Option<()> {
    let layout = Layout::new(3, 1)?;
    let finished = play(host.alloc(), rt, layout)?;
    if has_words(host) {
        print_journal(host, &finished)
    } else {
        report(host, layout, &finished)
    }
}

/// Whether the process was given a word.
fn has_words(host: &HostRuntime) -> bool {
    match env::args(host) {
        Ok(mut words) => words.nth(1).is_some(),
        Err(_) => false,
    }
}

/// A client in this actor of the site, whose replies come to the port of that number there.
fn client(site: u16, number: u64, port: u64) -> Option<Comer> {
    let back = Ui::new(site, Kind::Port, port)?;
    Some(Comer {
        actor: actor(site, number)?,
        role: Role::Client { back, adds: ADDS },
    })
}

/// A server in the first actor of the site, which hands the counter on to the site `next`.
fn server(site: u16, next: u16) -> Option<Comer> {
    Some(Comer {
        actor: actor(site, 1)?,
        role: Role::Server { next },
    })
}

/// The run of this program: its two servers, on sites 1 and 2, and its three clients, on sites 1, 2 and 3, come to a counter; None where a
/// name or the run fails. Each port has the first number that is free on its site, and the counter is the first of site 1.
fn play<R: Threads + Wait + Sync>(alloc: Global, rt: &R, layout: Layout) -> Option<Finished> {
    let comers = [
        server(1, 2)?,
        server(2, 1)?,
        client(1, 2, 2)?,
        client(2, 2, 1)?,
        client(3, 1, 1)?,
    ];
    run_counter(alloc, rt, layout, 1, &comers).ok()
}
