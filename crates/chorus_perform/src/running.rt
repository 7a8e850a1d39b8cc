//! The scripts run side by side, one thread each.

ghost use Rattle.std.specs.Prelude.{◌≡◌, true, false, length, Ok, IfOk, OnOk, OnErr};
ghost use Rattle.chorus_ui.specs.Layout.{places};
ghost use Rattle.chorus_scene.specs.Limits.{Keeps};
ghost use Rattle.chorus_report.specs.Reading.{has_wait};
ghost use Rattle.chorus_nucleus.specs.Passes.{layout_of, worn_by, IsPassOf};
ghost use Rattle.chorus_perform.specs.Going.{AllMeet, Goes, GoesAsFar, MayPost};
ghost use Rattle.chorus_perform.specs.Halting.{IsHalted};
ghost use Rattle.chorus_perform.specs.Runners.{AreReady, HaveRun, IsReadyAt, HasRunAt};

use crate::at_work::AtWork;
use crate::commands::perform_commands;
use crate::gate::Gate;
use crate::resting::Resting;
use crate::runner::Runner;
use crate::share::Share;
use crate::stopped::Halted;
use crate::waiting::perform_waiting;
use chorus_nucleus::{Nucleus, Pass};
use chorus_scene::{Scenario, Script};
use std::sync::Wait;
use std::thread;
use std::thread::Threads;

/// What the threads of a scenario tell one another: where something waits who rests, else who is at work.
#[derive(Drop)]
struct Signs {
    at_work: AtWork,
    resting: Resting,
}

/// Performs all scripts, each in a thread of its own where one can be made.
pub(crate) fn perform_scripts<R: Threads + Wait + Sync, G: Gate>(
    rt: &R,
    nucleus: &Nucleus,
    scenario: &Scenario,
    gate: &G,
    runners: &mut [Runner],
)
    requires keeps { Keeps scenario.now }
    requires ready { AreReady nucleus.now scenario.now runners.old }
    ensures { HaveRun nucleus.now scenario.now runners.old runners.new }
{
    let threads = runners.len();
    let scripts = scenario.scripts().len() as u32;
    let signs = Signs {
        at_work: AtWork::new(scripts),
        resting: Resting::new(scripts),
    };
    if threads > 0 {
        thread::for_each_mut(
            rt,
            runners,
            threads,
            &|index: usize, runner: &mut Runner|
                requires { Keeps scenario.now
                    × IsReadyAt nucleus.now scenario.now index runner.old }
                ensures { HasRunAt nucleus.entry.now scenario.entry.now
                    index runner.old runner.new }
            { perform_script(rt, nucleus, scenario, index, &signs, gate, runner) },
        );
    }
}

/// Performs a script in its thread, as far as it comes.
fn perform_script<R: Wait, G: Gate>(
    rt: &R,
    nucleus: &Nucleus,
    scenario: &Scenario,
    index: usize,
    signs: &Signs,
    gate: &G,
    runner: &mut Runner,
)
    requires keeps { Keeps scenario.now }
    requires ready { IsReadyAt nucleus.now scenario.now index runner.old }
    ensures { HasRunAt nucleus.now scenario.now index runner.old runner.new }
{
    let script = &scenario.scripts()[index];
    let number = index as u32 + 1;
    let threads = scenario.scripts().len() as u32;
    let share = Share::new(nucleus.layout(), scenario.sites(), script.actor(), threads);
    let waits = has_wait(scenario);
    let pass = &mut runner.pass;
    runner.ended = perform_by(
        rt, nucleus, pass, script, number, &share, waits, signs, gate,
    );
}

/// Whether a script of the scenario that is run waits.
fn has_wait(scenario: &Scenario) -> bool
    ensures { result ≡ has_wait scenario.now }
{
    scenario.scripts().iter().any(|script| script.waits() > 0)
}

/// Performs the commands of a script in its thread, and tells the others that it has ended. Where something waits in the scenario, they may
/// be the first ones: false then.
fn perform_by<R: Wait, G: Gate>(
    rt: &R,
    nucleus: &Nucleus,
    pass: &mut Pass,
    script: &Script,
    number: u32,
    share: &Share,
    waits: bool,
    signs: &Signs,
    gate: &G,
) -> Result<bool, Halted>
    requires pass { IsPassOf nucleus.now pass.old }
    requires meets { AllMeet script.now.commands }
    requires may { MayPost (length script.now.commands) pass.old }
    requires share { share.now.places ≡ places (layout_of nucleus.now) }
    ensures pass { IsPassOf nucleus.now pass.new }
    ensures whole { result ≡ Ok true → Goes script.now.commands pass.old pass.new }
    ensures first { GoesAsFar script.now.commands pass.old pass.new }
    ensures plain { waits ≡ false → IfOk result (λ all. all ≡ true) }
    ensures unworn { OnOk result (worn_by pass.new ≡ worn_by pass.old) }
    ensures halted { OnErr result (IsHalted nucleus.now pass.new) }
{
    if waits {
        let done = perform_waiting(
            rt,
            nucleus,
            pass,
            script,
            number,
            share,
            &signs.resting,
            gate,
        );
        signs.resting.end(done.is_ok());
        done
    } else {
        let commands = script.commands();
        let done = perform_commands(
            rt,
            nucleus,
            pass,
            commands,
            number,
            share,
            &signs.at_work,
            gate,
        );
        signs.at_work.end(done.is_ok());
        done?;
        Ok(true)
    }
}
