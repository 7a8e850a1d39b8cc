//! The draws of a load: by which seat each command is performed, what it is, and which packet is delivered behind it.

ghost use Rattle.std.specs.Prelude.{◌≡◌, ◌≤◌, ◌<◌, IfOk, Some, slice_get, decimal};
ghost use Rattle.chorus_replay.specs.declared.draws.TheConstants.{SETUP_COMMANDS};
ghost use Rattle.chorus_draw.specs.Draws.{number_of};
ghost use Rattle.chorus_replay.specs.Load.{site_by, drawn, drawn_command, load_actor, load_port, load_group, load_setup};

use chorus_draw::number_of;
use chorus_entry::{Body, Command, Dest};
use chorus_ui::{Kind, PENDING_LIMIT, Ui};
use std::alloc::{AllocError, Global};

/// The sites of a load, each with one place.
pub const LOAD_SITES: u16 = 8;

/// The commands of the setup: a port on each site, the group, and a member for each port.
pub(crate) const SETUP_COMMANDS: u16 = 2 * LOAD_SITES + 1;

/// What is drawn for a command.
#[derive(Drop)]
pub(crate) struct Draw {
    /// The seat that performs it.
    pub(crate) seat: u32,
    pub(crate) command: Command,
    /// The places between which a packet is delivered behind it; none is where they are one.
    pub(crate) from: u16,
    pub(crate) to: u16,
}

/// The command of a load's setup that stands there, counted from 0.
pub(crate) fn setup_command(index: u16) -> Command
    requires { index < SETUP_COMMANDS }
    ensures { slice_get load_setup index ≡ Some result }
{
    if index < LOAD_SITES {
        return Command::Make {
            actor: load_actor(index + 1),
            capacity: PENDING_LIMIT as u8,
        };
    }
    if index == LOAD_SITES {
        return Command::GroupMake { site: 1 };
    }
    Command::Join {
        group: load_group(),
        port: load_port(index - LOAD_SITES),
    }
}

/// What is drawn for the load's command of this number, from 1, where the generator has come to this state.
pub(crate) fn draw_for(alloc: Global, number: u32, state: u64) -> Result<Draw, AllocError>
    requires { 1 ≤ number }
    ensures { IfOk result (λ draw. draw ≡ drawn number (number_of state)) }
{
    let drawn = number_of(state);
    Ok(Draw {
        seat: u32::from(site_by(u64::from(number - 1))),
        command: drawn_command(alloc, number, drawn)?,
        from: site_by(drawn / 512),
        to: site_by(drawn / 4096),
    })
}

/// A site of a load, or its place, by what is left of a number where it is divided by how many there are.
fn site_by(number: u64) -> u16
    ensures { result ≡ site_by number }
{
    (number % u64::from(LOAD_SITES)) as u16 + 1
}

/// The load's command of this number, where this was drawn.
fn drawn_command(alloc: Global, number: u32, drawn: u64) -> Result<Command, AllocError>
    ensures { IfOk result (λ command. command ≡ drawn_command number drawn) }
{
    let port = load_port(site_by(drawn / 8));
    Ok(match drawn % 8 {
        0..=3 => Command::Send {
            dest: Dest::Port(port),
            body: numbered(alloc, number)?,
        },
        4 | 5 => Command::Take { port },
        6 => Command::Send {
            dest: Dest::One(load_group()),
            body: numbered(alloc, number)?,
        },
        _ => Command::Move {
            port,
            actor: load_actor(site_by(drawn / 64)),
        },
    })
}

/// The body of a load's message: the decimal of the number.
fn numbered(alloc: Global, number: u32) -> Result<Body, AllocError>
    ensures { IfOk result (λ body. body ≡ decimal number) }
{
    let mut buffer = itoa::Buffer::new();
    Body::new(alloc, buffer.format(number).as_bytes())
}

/// The actor of a load's site, from 1.
pub(crate) fn load_actor(site: u16) -> Ui
    requires { 1 ≤ site }
    ensures { result ≡ load_actor site }
{
    Ui::new(site, Kind::Actor, 1).unwrap()
}

/// The port of a load's site, from 1.
pub(crate) fn load_port(site: u16) -> Ui
    requires { 1 ≤ site }
    ensures { result ≡ load_port site }
{
    Ui::new(site, Kind::Port, 1).unwrap()
}

/// The group that drawn commands send to, which stands on the first site.
pub(crate) fn load_group() -> Ui
    ensures { result ≡ load_group }
{
    Ui::new(1, Kind::Group, 1).unwrap()
}
