//! A thread performs commands.

ghost use Rattle.std.specs.Prelude.{◌≡◌, ◌≢◌, ◌<◌, [], ◌∷◌, true, length, Ok, OnOk, OnErr};
ghost use Rattle.chorus_ui.specs.Layout.{places};
ghost use Rattle.chorus_entry.specs.Command.{is_post, meets_conditions};
ghost use Rattle.chorus_nucleus.specs.Passes.{caller_of, layout_of, worn_by, IsPassOf};
ghost use Rattle.chorus_perform.specs.Going.{AllMeet, Goes, GoesAsFar, MayPost};
ghost use Rattle.chorus_perform.specs.Halting.{IsHalted, IsTried};

use crate::at_work::AtWork;
use crate::gate::Gate;
use crate::pace::Pace;
use crate::pumping::{pump_behind, pump_on};
use crate::share::Share;
use crate::stopped::Halted;
use chorus_entry::Command;
use chorus_nucleus::{CallFault, Nucleus, Pass};
use std::sync::Wait;
use std::thread;

/// How many tries of a command find its place busy before its thread lets others run. A turn takes about as long as these tries.
const TRIES: u32 = 32;

/// Performs the commands of a script, in order, and pumps meanwhile and then.
pub(crate) fn perform_commands<R: Wait, G: Gate>(
    rt: &R,
    nucleus: &Nucleus,
    pass: &mut Pass,
    commands: &[Command],
    number: u32,
    share: &Share,
    at_work: &AtWork,
    gate: &G,
) -> Result<(), Halted>
    requires pass { IsPassOf nucleus.now pass.old }
    requires meets { AllMeet commands.now }
    requires may { MayPost (length commands.now) pass.old }
    requires share { share.now.places ≡ places (layout_of nucleus.now) }
    ensures pass { IsPassOf nucleus.now pass.new }
    ensures ok { OnOk result (Goes commands.now pass.old pass.new) }
    ensures err { OnErr result (GoesAsFar commands.now pass.old pass.new) }
    ensures unworn { OnOk result (worn_by pass.new ≡ worn_by pass.old) }
    ensures halted { OnErr result (IsHalted nucleus.now pass.new) }
{
    let mut pace = Pace::new();
    for step in 0..commands.len() {
        gate.pass(number, step as u32);
        perform_command(rt, nucleus, pass, &commands[step])?;
        pump_behind(rt, nucleus, pass, share, &mut pace)?;
    }
    gate.pass(number, commands.len() as u32);
    pump_on(rt, nucleus, pass, share, at_work)
}

/// Performs a command, and tries it again as long as its place is busy. `Halted` comes where the nucleus takes no command for want of
/// memory or for a clock that was worn; the command is then not performed.
pub fn perform_command<R: Wait>(
    rt: &R,
    nucleus: &Nucleus,
    pass: &mut Pass,
    command: &Command,
) -> Result<(), Halted>
    requires pass { IsPassOf nucleus.now pass.old }
    requires conditions { meets_conditions command.now ≡ true }
    requires posts { is_post command.now ≡ true → (caller_of pass.old).posts < u32.MAX }
    ensures pass { IsPassOf nucleus.now pass.new }
    ensures ok { OnOk result (Goes (command.now ∷ []) pass.old pass.new) }
    ensures err { OnErr result (Goes [] pass.old pass.new) }
    ensures unworn { OnOk result (worn_by pass.new ≡ worn_by pass.old) }
    ensures halted { OnErr result (IsHalted nucleus.now pass.new) }
{
    let mut tries = 0;
    for _ in rt.forever() {
        if try_command(nucleus, pass, command)? {
            return Ok(());
        }
        tries = give_way(tries);
    }
    unreachable!()
}

/// Tries a command of a thread once on the nucleus. False where its place was busy.
fn try_command(nucleus: &Nucleus, pass: &mut Pass, command: &Command) -> Result<bool, Halted>
    requires pass { IsPassOf nucleus.now pass.old }
    requires conditions { meets_conditions command.now ≡ true }
    requires posts { is_post command.now ≡ true → (caller_of pass.old).posts < u32.MAX }
    ensures pass { IsPassOf nucleus.now pass.new }
    ensures done { result ≡ Ok true → Goes (command.now ∷ []) pass.old pass.new }
    ensures not_done { result ≢ Ok true → Goes [] pass.old pass.new }
    ensures told { IsTried nucleus.now command.now pass.old pass.new result }
{
    match nucleus.act(pass, command) {
        Ok(_) => Ok(true),
        Err(CallFault::Busy { .. }) => Ok(false),
        Err(CallFault::Memory(_)) => Err(Halted),
        Err(CallFault::Worn { .. }) => Err(Halted),
    }
}

/// Counts a try of a command that found the place busy, and lets other threads run after several.
fn give_way(tries: u32) -> u32
    requires { tries < TRIES }
    ensures { result < TRIES }
{
    if tries + 1 < TRIES {
        return tries + 1;
    }
    thread::yield_now();
    0
}
