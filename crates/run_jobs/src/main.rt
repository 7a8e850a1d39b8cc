//! A queue of jobs that moves between two sites, while three clients send jobs, two of them from a third site, and two workers take them.
//!
//! The queue is a port, and a job is a message to it. Its promise (`specs/Promise.antt`): the jobs that were handed out are the first
//! that the queue accepted, in the order in which it accepted them, each at most once, whoever held the queue and wherever it was; and
//! each of them is in the hand of the worker that took it, and in no other. At the end (`specs/Ending.antt`) each job that was accepted
//! is in one hand, or waits once, or was discarded; so is each of which a client was told so, with its bytes. `running` runs it. `comers`
//! says what clients and workers do; nothing in it is proved but that their calls may be made, since the promise is the library's,
//! whatever they do.
//!
//! What it prints does not tell who was faster: how many jobs were accepted, how many were handed out, and whether the
//! journal is lawful.
#![tactic(auto)]

mod comers;
mod running;

use chorus_checker::World;
use chorus_entry::Act;
use chorus_merge::merge;
use chorus_sessions::Hand;
use chorus_ui::Layout;
use comers::{Comer, Role, actor};
use running::{Finished, run_queue};
use std::alloc::{AllocError, Global};
use std::process::ExitCode;
use std::sync::Wait;
use std::thread::Threads;

/// How many jobs each client sends.
const JOBS: u8 = 8;

/// Runs the queue of jobs and prints its report; the exit status is a failure where either could not be done.
fn main(rt: HostRuntime) -> ExitCode {
    let Some(finished) = run(rt.alloc(), &rt) else {
        return ExitCode::FAILURE;
    };
    match report(&rt, &finished) {
        Some(()) => ExitCode::SUCCESS,
        None => ExitCode::FAILURE,
    }
}

/// The run of this program: its two workers, on sites 1 and 2, and its three clients come to a queue; None where a name or the run fails.
fn run<R: Threads + Wait + Sync>(alloc: Global, rt: &R) -> Option<Finished> {
    let comers = [
        Comer {
            actor: actor(1, 1)?,
            role: Role::Worker { next: 2 },
        },
        Comer {
            actor: actor(2, 1)?,
            role: Role::Worker { next: 1 },
        },
        Comer {
            actor: actor(3, 1)?,
            role: Role::Client {
                name: b'a',
                jobs: JOBS,
            },
        },
        Comer {
            actor: actor(3, 2)?,
            role: Role::Client {
                name: b'b',
                jobs: JOBS,
            },
        },
        Comer {
            actor: actor(1, 2)?,
            role: Role::Client {
                name: b'c',
                jobs: JOBS,
            },
        },
    ];
    run_queue(alloc, rt, Layout::new(3, 1)?, 1, &comers).ok()
}

/// Prints how many jobs were accepted and handed out and whether the journal is lawful; None where that fails.
fn report(rt: &HostRuntime, finished: &Finished) -> Option<()> {
    let judged = judge(rt.alloc(), finished).ok()?;
    let (accepted, lawful) = (judged.accepted, judged.is_lawful);
    let handed_out = count(&finished.hands);
    println!(rt; "{accepted} jobs were accepted").ok()?;
    println!(rt; "{handed_out} jobs were handed out").ok()?;
    println!(rt; "the journal is lawful: {lawful}").ok()?;
    Some(())
}

/// How many jobs are in the hands, for the report.
fn count(hands: &[Hand]) -> u64 {
    let mut handed_out = 0u64;
    for hand in hands {
        handed_out = handed_out.saturating_add(hand.taken.len() as u64);
    }
    handed_out
}

/// What the merged journals say, up to the first entry that is not lawful.
#[derive(Clone, Copy)]
struct Judged {
    accepted: u64,
    is_lawful: bool,
}

/// Judges what came of the queue of jobs: merges the journals and lets the checker apply each entry, down to the first that is not
/// lawful.
fn judge(alloc: Global, finished: &Finished) -> Result<Judged, AllocError> {
    let mut judged = Judged {
        accepted: 0,
        is_lawful: true,
    };
    let mut world = World::opening(alloc, Layout::new(3, 1).unwrap())?;
    for entry in merge(alloc, &finished.closed.journals)? {
        if let Act::Accept { .. } = entry.act {
            judged.accepted = judged.accepted.saturating_add(1);
        }
        if world.apply(entry).is_err() {
            judged.is_lawful = false;
            return Ok(judged);
        }
    }
    Ok(judged)
}
