//! Scenarios: what a text says.

ghost use Rattle.std.specs.Prelude.{◌≡◌, ◌≤◌, [], OnOk, IfOk};

use crate::setup::Setup;
use chorus_entry::Command;
use chorus_ui::{Layout, Ui};
use std::alloc::{AllocError, Global};
use std::marker::Model;

/// A line of the setup, performed by seat 0 before all scripts.
#[derive(Clone, Copy)]
pub enum SetupLine {
    /// Makes a port of this actor, with room for `capacity` messages, 1 to 64. Its name is the one that the making gives.
    Port { actor: Ui, capacity: u8 },
    /// Makes a group at the first place of this site. Its name is the one that the making gives.
    Group { site: u16 },
    /// Makes a port a member of a group. Earlier lines made both, and the port is no member yet.
    Member { group: Ui, port: Ui },
}

/// One step of a schedule.
#[derive(Clone, Copy)]
pub enum Step {
    /// The next command of the script of this number; scripts are numbered from 1, in the order of the text.
    Step(u32),
    /// The first packet from the first place to the second, two different places.
    Deliver(u16, u16),
    /// Packets are delivered until none is left.
    Drain,
}

/// The commands of one caller.
#[derive(Drop)]
pub struct Script {
    actor: Ui,
    commands: Vec<Command>,
    /// Which commands are awaits, counted from 0, rising.
    waits: Vec<u16>,
}

impl Model for Script {
    ghost use Rattle.chorus_scene.specs.Scene as scene;

    ghost Value = { scene.Script };

    ghost view = { λ s. record {
      actor = s.actor;
      commands = s.commands.items;
      waits = s.waits.items;
    } };
}

impl Script {
    ghost use Rattle.std.specs.Prelude.{◌<◌, length};
    ghost use Rattle.chorus_scene.specs.declared.limits.TheConstants.{COMMANDS_LIMIT};
    ghost use Rattle.chorus_scene.specs.Grammar.{with_command, with_await};
    ghost use Rattle.chorus_scene.specs.Scene.{is_await};

    /// The actor of a script's caller.
    pub fn actor(&self) -> Ui
        ensures { result ≡ self.now.actor }
    {
        self.actor
    }

    /// The commands of a script, in the order of the text; at most 4,096.
    pub fn commands(&self) -> &[Command]
        ensures { result.now ≡ self.now.commands }
    {
        self.commands.as_slice()
    }

    /// Whether the command with this number, counted from 0, is an await: it is done only where a message waits for it.
    pub fn is_await(&self, index: usize) -> bool
        ensures { result ≡ is_await self.now.waits index }
    {
        self.waits.iter().any(|&wait| usize::from(wait) == index)
    }

    /// How many commands of the script are awaits.
    pub fn waits(&self) -> usize
        ensures { result ≡ length self.now.waits }
    {
        self.waits.len()
    }

    /// The script of this actor, with no command.
    pub(crate) fn new(alloc: Global, actor: Ui) -> Script
        ensures { result ≡ record { actor = actor; commands = []; waits = [] } }
    {
        Script {
            actor,
            commands: Vec::new(alloc),
            waits: Vec::new(alloc),
        }
    }

    /// Adds a command to a script, behind its others.
    pub(crate) fn push(&mut self, command: Command) -> Result<(), AllocError>
        ensures { OnOk result (self.new ≡ with_command command self.old) }
    {
        self.commands.push(command)?;
        Ok(())
    }

    /// Adds an await of the port to a script, behind its other commands.
    pub(crate) fn push_await(&mut self, port: Ui) -> Result<(), AllocError>
        requires { length self.old.commands < COMMANDS_LIMIT }
        ensures { OnOk result (self.new ≡ with_await port self.old) }
    {
        self.waits.push(self.commands.len() as u16)?;
        self.commands.push(Command::Take { port })?;
        Ok(())
    }
}

/// A claim of a scenario, as it is spelled behind `claim`: something to be checked.
#[derive(Drop)]
pub struct ClaimText {
    text: Vec<u8>,
}

impl Model for ClaimText {
    ghost use Rattle.std.specs.Prelude.{ℕ, List};

    ghost Value = { List ℕ };

    ghost view = { λ c. c.text.items };
}

impl ClaimText {
    /// The bytes of a claim, without the word `claim` and the space behind it.
    pub fn text(&self) -> &[u8]
        ensures { result.now ≡ self.now }
    {
        self.text.as_slice()
    }

    /// The claim that is spelled so.
    pub(crate) fn new(alloc: Global, text: &[u8]) -> Result<ClaimText, AllocError>
        ensures { IfOk result (λ claim. claim ≡ text.now) }
    {
        let text = Vec::from_slice(alloc, text)?;
        Ok(ClaimText { text })
    }
}

/// What a scenario text says, with the layout for which it was read. Only reading makes one.
#[derive(Drop)]
pub struct Scenario {
    layout: Layout,
    version: u8,
    sites: u16,
    setup: Vec<SetupLine>,
    /// The name that each line of the setup begins with.
    names: Vec<Ui>,
    scripts: Vec<Script>,
    claims: Vec<ClaimText>,
    schedule: Vec<Step>,
}

impl Model for Scenario {
    ghost use Rattle.std.specs.Prelude.{◌≡◌, []};
    ghost use Rattle.chorus_scene.specs.Scene.{Scene, scene_with, with_claims};
    ghost use Rattle.chorus_scene.specs.Making.{names_said};
    ghost use Rattle.chorus_scene.specs.Print.{IsReadAgain};
    ghost use Rattle.chorus_scene.specs.Limits.{Keeps};

    ghost Value = { Scene };

    ghost view = { λ s. with_claims s.claims.items
        (scene_with s.layout s.version s.sites s.setup.items s.scripts.items s.schedule.items) };

    ghost invariant = { λ s. (s.names.items ≡ names_said s.layout [] s.setup.items)
        × IsReadAgain (with_claims s.claims.items
        (scene_with s.layout s.version s.sites s.setup.items s.scripts.items s.schedule.items))
        × Keeps (with_claims s.claims.items
        (scene_with s.layout s.version s.sites s.setup.items s.scripts.items s.schedule.items)) };
}

impl Scenario {
    ghost use Rattle.chorus_scene.specs.Scene.{scene_with, with_claims};
    ghost use Rattle.chorus_scene.specs.Making.{names_said};
    ghost use Rattle.chorus_scene.specs.Print.{IsReadAgain};
    ghost use Rattle.chorus_scene.specs.Limits.{Keeps};
    ghost use Rattle.chorus_scene.specs.Reader.{IsSetup};

    /// The layout for which the text was read. With it the scenario is read again from its text, and it keeps the limits.
    pub fn layout(&self) -> Layout
        ensures value { result ≡ self.now.layout }
        ensures again { IsReadAgain self.now }
        ensures keeps { Keeps self.now }
    {
        self.layout
    }

    /// The version of a scenario's text: 1, 2 or 3.
    pub fn version(&self) -> u8
        ensures value { result ≡ self.now.version }
        ensures one_to_three { (1 ≤ result) × (result ≤ 3) }
    {
        self.version
    }

    /// How many sites the scenario has: 1 to 16, and at most those of the layout. It bounds the names only.
    pub fn sites(&self) -> u16
        ensures { result ≡ self.now.sites }
    {
        self.sites
    }

    /// The lines of a scenario's setup, in the order of the text.
    pub fn setup(&self) -> &[SetupLine]
        ensures { result.now ≡ self.now.setup }
    {
        self.setup.as_slice()
    }

    /// The scripts, in the order of the text; at most 16. The script of number k stands at k - 1.
    pub fn scripts(&self) -> &[Script]
        ensures { result.now ≡ self.now.scripts }
    {
        self.scripts.as_slice()
    }

    /// The claims, in the order of the text; at most 64, and none where the version is 1 or 2. Claim k stands at k - 1. Each is a
    /// claim of the scenario, and none stands twice.
    pub fn claims(&self) -> &[ClaimText]
        ensures { result.now ≡ self.now.claims }
    {
        self.claims.as_slice()
    }

    /// The steps of a scenario's schedule, in the order of the text; at most 131,072.
    pub fn schedule(&self) -> &[Step]
        ensures { result.now ≡ self.now.schedule }
    {
        self.schedule.as_slice()
    }

    /// The name that each line of a scenario's setup begins with: of what it makes, or of the group that is joined.
    pub fn names(&self) -> &[Ui]
        ensures names { result.now ≡ names_said self.now.layout [] self.now.setup }
        ensures again { IsReadAgain self.now }
    {
        self.names.as_slice()
    }

    /// The scenario of these parts, which is read again from its text.
    pub(crate) fn of(
        layout: Layout,
        version: u8,
        sites: u16,
        setup: Setup,
        scripts: Vec<Script>,
        claims: Vec<ClaimText>,
        schedule: Vec<Step>,
    ) -> Scenario
        requires tables { IsSetup layout setup }
        requires again { IsReadAgain (with_claims claims.items
            (scene_with layout version sites setup.lines.items scripts.items schedule.items)) }
        requires keeps { Keeps (with_claims claims.items
            (scene_with layout version sites setup.lines.items scripts.items schedule.items)) }
        ensures { result ≡ with_claims claims.items
            (scene_with layout version sites setup.lines.items scripts.items schedule.items) }
    {
        Scenario {
            layout,
            version,
            sites,
            setup: setup.lines,
            names: setup.names,
            scripts,
            claims,
            schedule,
        }
    }
}
