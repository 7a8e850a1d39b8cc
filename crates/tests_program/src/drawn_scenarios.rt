//! Scenarios that are drawn: whatever the threads do, what is printed is lawful.

use crate::journals::printed_by_run;
use chorus_draw::{next_state, number_of};
use std::alloc::Global;
use std::process::Abort;
use std::sync::Wait;
use std::thread::Threads;

/// A scenario with so many sites, each with a port and a script in the actor of the same number, and so many commands of each script.
#[derive(Clone, Copy)]
struct Drawn {
    first: u64,
    sites: u64,
    commands: u64,
}

/// The number that is drawn for a step of a drawn scenario's script.
fn draw(drawn: &Drawn, script: u64, step: u64) -> u64 {
    let state = drawn
        .first
        .wrapping_add(script.wrapping_mul(4096))
        .wrapping_add(step);
    number_of(next_state(next_state(state)))
}

/// A site of those that the drawn scenario has.
fn site_by(drawn: &Drawn, number: u64) -> u64 {
    (number % drawn.sites.max(1)).saturating_add(1)
}

/// Appends the command of a step to the drawn scenario's text. The body of a send is the number of the step.
fn push_command(rt: &impl Abort, text: &mut String, drawn: &Drawn, script: u64, step: u64) {
    let number = draw(drawn, script, step);
    let port = site_by(drawn, number / 8);
    let to = site_by(drawn, number / 128);
    let pushed = match number % 8 {
        0 | 1 => writeln!(text, "take {port}.p.1"),
        2 => writeln!(text, "move {port}.p.1 {to}.a.1"),
        _ => writeln!(text, "send {port}.p.1 ={step}"),
    };
    pushed.expect(rt, "memory");
}

/// Appends a script to the drawn scenario's text.
fn push_script(rt: &impl Abort, text: &mut String, drawn: &Drawn, script: u64) {
    writeln!(text, "script {script}.a.1").expect(rt, "memory");
    for step in 0..drawn.commands {
        push_command(rt, text, drawn, script, step);
    }
}

/// The text of the drawn scenario.
fn text_of(rt: &impl Abort, alloc: Global, drawn: &Drawn) -> String {
    let mut text = format!(in alloc; "chorus 2\nsites {}\n", drawn.sites).expect(rt, "memory");
    for site in 1..=drawn.sites {
        writeln!(text, "port {site}.p.1 {site}.a.1 8").expect(rt, "memory");
    }
    for script in 1..=drawn.sites {
        push_script(rt, &mut text, drawn, script);
    }
    text.push_str("schedule\nend\n").expect(rt, "memory");
    text
}

/// Asserts that drawn scenarios with so many sites and commands are printed lawfully, with each number of places a site.
fn assert_printed_lawfully(
    rt: &(impl Abort + Threads + Wait + Sync),
    alloc: Global,
    sites: u64,
    commands: u64,
) {
    for (turns, first) in [("1", 1), ("2", 2), ("4", 4)] {
        let drawn = Drawn {
            first,
            sites,
            commands,
        };
        let text = text_of(rt, alloc, &drawn);
        // it ends the test where what is printed is not lawful
        printed_by_run(rt, alloc, turns, text.as_str());
    }
}

/// The program's word `run` prints drawn scenarios lawfully.
#[test]
fn drawn_scenarios_run(rt: HostRuntime) {
    for (sites, commands) in [(1, 60), (2, 200), (5, 60), (16, 40)] {
        assert_printed_lawfully(&rt, rt.alloc(), sites, commands);
    }
}
