//! Seat 0 performs the setup.

ghost use Rattle.std.specs.Prelude.{◌≡◌, OnOk, OnErr};
ghost use Rattle.chorus_scene.specs.Limits.{Keeps};
ghost use Rattle.chorus_report.specs.Setup.{setup_commands};
ghost use Rattle.chorus_nucleus.specs.Passes.{worn_by, IsPassOf};
ghost use Rattle.chorus_perform.specs.Going.{Goes, GoesAsFar};
ghost use Rattle.chorus_perform.specs.Halting.{IsHalted};

use crate::commands::perform_command;
use crate::stopped::Halted;
use chorus_nucleus::{Nucleus, Pass};
use chorus_report::setup_command;
use chorus_scene::Scenario;
use std::sync::Wait;

/// Performs the scenario's setup by seat 0, on the nucleus. No line of it posts a message.
pub(crate) fn set_up<R: Wait>(
    rt: &R,
    nucleus: &Nucleus,
    pass: &mut Pass,
    scenario: &Scenario,
) -> Result<(), Halted>
    requires pass { IsPassOf nucleus.now pass.old }
    requires keeps { Keeps scenario.now }
    ensures pass { IsPassOf nucleus.now pass.new }
    ensures ok { OnOk result (Goes (setup_commands scenario.now) pass.old pass.new) }
    ensures err { OnErr result (GoesAsFar (setup_commands scenario.now) pass.old pass.new) }
    ensures unworn { OnOk result (worn_by pass.new ≡ worn_by pass.old) }
    ensures halted { OnErr result (IsHalted nucleus.now pass.new) }
{
    for index in 0..scenario.setup().len() {
        let command = setup_command(&scenario.setup()[index]);
        perform_command(rt, nucleus, pass, &command)?;
    }
    Ok(())
}
