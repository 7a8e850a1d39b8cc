//! A thread performs commands of which some wait.

ghost use Rattle.std.specs.Prelude.{◌≡◌, ◌≢◌, ◌<◌, [], ◌∷◌, true, length, Ok, IfSome, OnOk, OnErr};
ghost use Rattle.chorus_ui.specs.Layout.{places};
ghost use Rattle.chorus_ui.specs.NameKind.{is_port};
ghost use Rattle.chorus_entry.specs.Command.{is_post, meets_conditions};
ghost use Rattle.chorus_entry.specs.declared.command.Command.TheVariants as Command;
ghost use Rattle.chorus_nucleus.specs.Passes.{caller_of, layout_of, worn_by, IsPassOf};
ghost use Rattle.chorus_perform.specs.Going.{AllMeet, Goes, GoesAsFar, MayPost};
ghost use Rattle.chorus_perform.specs.Halting.{IsHalted};
ghost use Rattle.chorus_perform.specs.declared.waiting.Look.TheVariants as Look;

use crate::commands::perform_command;
use crate::gate::Gate;
use crate::lately::Lately;
use crate::pace::{PUMPS_AT_A_PLACE, Pace};
use crate::pumping::{pump_at, pump_behind, sweep};
use crate::resting::{Doings, Resting};
use crate::share::Share;
use crate::stay::Stay;
use crate::stopped::Halted;
use chorus_entry::Command;
use chorus_nucleus::{CallFault, Nucleus, Pass};
use chorus_scene::Script;
use chorus_ui::Ui;
use std::sync::Wait;
use std::thread;

/// What a thread keeps while it performs commands of which some wait.
#[derive(Clone, Copy)]
struct Course {
    /// The number of its script, from 1.
    number: u32,
    pace: Pace,
    stay: Stay,
    doings: Doings,
}

/// What came of a look for a message.
enum Look {
    /// It came.
    Came,
    /// None waits.
    Missed,
    /// Another thread has the place.
    Busy,
}

/// Performs the commands of a script in order, an await when a message has come, and pumps meanwhile and then. False where it ends before
/// an await, since all threads rest.
pub(crate) fn perform_waiting<R: Wait, G: Gate>(
    rt: &R,
    nucleus: &Nucleus,
    pass: &mut Pass,
    script: &Script,
    number: u32,
    share: &Share,
    resting: &Resting,
    gate: &G,
) -> Result<bool, Halted>
    requires pass { IsPassOf nucleus.now pass.old }
    requires meets { AllMeet script.now.commands }
    requires may { MayPost (length script.now.commands) pass.old }
    requires share { share.now.places ≡ places (layout_of nucleus.now) }
    ensures pass { IsPassOf nucleus.now pass.new }
    ensures whole { result ≡ Ok true → Goes script.now.commands pass.old pass.new }
    ensures first { GoesAsFar script.now.commands pass.old pass.new }
    ensures unworn { OnOk result (worn_by pass.new ≡ worn_by pass.old) }
    ensures halted { OnErr result (IsHalted nucleus.now pass.new) }
{
    let commands = script.commands();
    let mut course = Course {
        number,
        pace: Pace::new(),
        stay: Stay::new(),
        doings: Doings::new(),
    };
    for step in 0..commands.len() {
        gate.pass(number, step as u32);
        let waits = script.is_await(step);
        if !take_step(
            rt,
            nucleus,
            pass,
            &commands[step],
            waits,
            share,
            resting,
            &mut course,
        )? {
            return Ok(false);
        }
        pump_and_tell(rt, nucleus, pass, share, resting, &mut course)?;
    }
    gate.pass(number, commands.len() as u32);
    stay_on(rt, nucleus, pass, share, resting, &mut course)?;
    Ok(true)
}

/// The port that a command waits for, where it is an await.
fn awaited(command: &Command, waits: bool) -> Option<Ui>
    ensures { IfSome result (λ port. command.now ≡ Command.Take port) }
{
    match command {
        Command::Take { port } if waits => Some(*port),
        _ => None,
    }
}

/// Performs a command, or waits for a message, where it is an await. False where all threads rest.
fn take_step<R: Wait>(
    rt: &R,
    nucleus: &Nucleus,
    pass: &mut Pass,
    command: &Command,
    waits: bool,
    share: &Share,
    resting: &Resting,
    course: &mut Course,
) -> Result<bool, Halted>
    requires pass { IsPassOf nucleus.now pass.old }
    requires conditions { meets_conditions command.now ≡ true }
    requires posts { is_post command.now ≡ true → (caller_of pass.old).posts < u32.MAX }
    requires share { share.now.places ≡ places (layout_of nucleus.now) }
    ensures pass { IsPassOf nucleus.now pass.new }
    ensures done { result ≡ Ok true → Goes (command.now ∷ []) pass.old pass.new }
    ensures not_done { result ≢ Ok true → Goes [] pass.old pass.new }
    ensures unworn { OnOk result (worn_by pass.new ≡ worn_by pass.old) }
    ensures halted { OnErr result (IsHalted nucleus.now pass.new) }
{
    match awaited(command, waits) {
        Some(port) => wait_for(rt, nucleus, pass, port, share, resting, course),
        None => {
            perform_command(rt, nucleus, pass, command)?;
            course.doings.some = true;
            Ok(true)
        }
    }
}

/// Takes the first message of the port as soon as one waits there, and pumps meanwhile. False where all threads rest.
fn wait_for<R: Wait>(
    rt: &R,
    nucleus: &Nucleus,
    pass: &mut Pass,
    port: Ui,
    share: &Share,
    resting: &Resting,
    course: &mut Course,
) -> Result<bool, Halted>
    requires pass { IsPassOf nucleus.now pass.old }
    requires port { is_port port ≡ true }
    requires share { share.now.places ≡ places (layout_of nucleus.now) }
    ensures pass { IsPassOf nucleus.now pass.new }
    ensures done { result ≡ Ok true → Goes (Command.Take port ∷ []) pass.old pass.new }
    ensures not_done { result ≢ Ok true → Goes [] pass.old pass.new }
    ensures unworn { OnOk result (worn_by pass.new ≡ worn_by pass.old) }
    ensures halted { OnErr result (IsHalted nucleus.now pass.new) }
{
    for _ in rt.forever() {
        let moves = resting.moves();
        match look_for(nucleus, pass, port)? {
            Look::Came => {
                course.doings.some = true;
                return Ok(true);
            }
            Look::Busy => thread::yield_now(),
            Look::Missed => {
                if work_or_rest(rt, nucleus, pass, share, resting, course, moves)? {
                    return Ok(false);
                }
            }
        }
    }
    unreachable!()
}

/// Takes the first message of the port where one waits there.
fn look_for(nucleus: &Nucleus, pass: &mut Pass, port: Ui) -> Result<Look, Halted>
    requires pass { IsPassOf nucleus.now pass.old }
    requires port { is_port port ≡ true }
    ensures pass { IsPassOf nucleus.now pass.new }
    ensures came { result ≡ Ok Look.Came → Goes (Command.Take port ∷ []) pass.old pass.new }
    ensures missed { result ≢ Ok Look.Came → Goes [] pass.old pass.new }
    ensures unworn { OnOk result (worn_by pass.new ≡ worn_by pass.old) }
    ensures halted { OnErr result (IsHalted nucleus.now pass.new) }
{
    match nucleus.take_ready(pass, port) {
        Ok(Some(_)) => Ok(Look::Came),
        Ok(None) => Ok(Look::Missed),
        Err(CallFault::Busy { .. }) => Ok(Look::Busy),
        Err(CallFault::Memory(_)) => Err(Halted),
        Err(CallFault::Worn { .. }) => Err(Halted),
    }
}

/// Pumps when all commands are done, until all threads rest.
fn stay_on<R: Wait>(
    rt: &R,
    nucleus: &Nucleus,
    pass: &mut Pass,
    share: &Share,
    resting: &Resting,
    course: &mut Course,
) -> Result<(), Halted>
    requires pass { IsPassOf nucleus.now pass.old }
    requires share { share.now.places ≡ places (layout_of nucleus.now) }
    ensures pass { IsPassOf nucleus.now pass.new }
    ensures goes { Goes [] pass.old pass.new }
    ensures unworn { OnOk result (worn_by pass.new ≡ worn_by pass.old) }
    ensures halted { OnErr result (IsHalted nucleus.now pass.new) }
{
    for _ in rt.forever() {
        let moves = resting.moves();
        if work_or_rest(rt, nucleus, pass, share, resting, course, moves)? {
            return Ok(());
        }
    }
    unreachable!()
}

/// Pumps the home place and the thread's part of the places, and rests where nothing was found there, nor done before. True where all
/// threads rest.
fn work_or_rest<R: Wait>(
    rt: &R,
    nucleus: &Nucleus,
    pass: &mut Pass,
    share: &Share,
    resting: &Resting,
    course: &mut Course,
    moves: u64,
) -> Result<bool, Halted>
    requires pass { IsPassOf nucleus.now pass.old }
    requires share { share.now.places ≡ places (layout_of nucleus.now) }
    ensures pass { IsPassOf nucleus.now pass.new }
    ensures goes { Goes [] pass.old pass.new }
    ensures unworn { OnOk result (worn_by pass.new ≡ worn_by pass.old) }
    ensures halted { OnErr result (IsHalted nucleus.now pass.new) }
{
    let home = pump_at(rt, nucleus, pass, share.home(), PUMPS_AT_A_PLACE)?;
    let part = share.part(course.number.saturating_sub(1), resting.threads());
    let mut lately = Lately::new();
    let under_way = sweep(rt, nucleus, pass, part, &mut lately, &mut course.stay)?;
    course.doings.some |= home.served > 0 || lately.found();
    Ok(resting.rest(rt, &mut course.doings, moves, under_way))
}

/// Pumps the home place behind a command, where its turn has come; at once where a thread rests, which is then told that something was done.
fn pump_and_tell<R: Wait>(
    rt: &R,
    nucleus: &Nucleus,
    pass: &mut Pass,
    share: &Share,
    resting: &Resting,
    course: &mut Course,
) -> Result<(), Halted>
    requires pass { IsPassOf nucleus.now pass.old }
    requires share { share.now.places ≡ places (layout_of nucleus.now) }
    ensures pass { IsPassOf nucleus.now pass.new }
    ensures goes { Goes [] pass.old pass.new }
    ensures unworn { OnOk result (worn_by pass.new ≡ worn_by pass.old) }
    ensures halted { OnErr result (IsHalted nucleus.now pass.new) }
{
    if !resting.any() {
        return pump_behind(rt, nucleus, pass, share, &mut course.pace);
    }
    pump_at(rt, nucleus, pass, share.home(), PUMPS_AT_A_PLACE)?;
    resting.tell(&mut course.doings);
    Ok(())
}
