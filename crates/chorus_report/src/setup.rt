//! What seat 0 performs before all scripts.

ghost use Rattle.std.specs.Prelude.{◌≡◌};
ghost use Rattle.chorus_report.specs.Setup.{setup_command};

use chorus_scene::{Command, SetupLine};

/// The command by which seat 0 performs a line of a scenario's setup, on one thread as on many.
pub fn setup_command(line: &SetupLine) -> Command
    ensures { result ≡ setup_command line.now }
{
    match *line {
        SetupLine::Port { actor, capacity } => Command::Make { actor, capacity },
        SetupLine::Group { site } => Command::GroupMake { site },
        SetupLine::Member { group, port } => Command::Join { group, port },
    }
}
