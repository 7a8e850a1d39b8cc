//! Ports are made, and messages sent to them, by one pass that nobody disturbs.
ghost use Rattle.std.specs.Prelude.{◌≡◌, ◌≤◌, ◌<◌, IfOk, IfSome, OnOk};
ghost use Rattle.chorus_turn.specs.Knowing.{IsSamePass};
ghost use Rattle.chorus_nucleus.specs.Passes.{caller_of, known, layout_of, IsPassOf};
ghost use Rattle.chorus_perform.specs.Going.{Goes};
ghost use Rattle.chorus_nucleus.specs.Rounds.{IsEven};
ghost use Rattle.chorus_run.specs.declared.drawn_crew.draws.TheConstants.{DRAWS_LIMIT};
ghost use Rattle.chorus_run.specs.declared.drawn_crew.names.TheConstants.{CREW_PORTS};
ghost use Rattle.chorus_run.specs.DrawnCrew.Filling.{commands_of, crew_commands, makes, make_port, send_command, sends_of};
ghost use Rattle.chorus_run.specs.DrawnCrew.Sends.{sending};

use crate::drawn_crew::draws::{DRAWS_LIMIT, site_drawn};
use crate::drawn_crew::names::{CREW_PORTS, crew_actor, crew_port};
use chorus_draw::next_state;
use chorus_entry::{Body, Command, Dest};
use chorus_nucleus::{Nucleus, Pass};
use chorus_perform::{Halted, perform_command, settle};
use chorus_ui::PENDING_LIMIT;
use std::alloc::{AllocError, Global};
use std::sync::Wait;

/// Makes the ports, and performs those of the drawn commands that send to one of them, each with nothing left of the
/// one before. At Ok nothing is left.
pub(crate) fn fill<R: Wait>(
    alloc: Global,
    rt: &R,
    nucleus: &Nucleus,
    pass: &mut Pass,
    first: u64,
    commands: u32,
) -> Result<(), Halted>
    requires pass { IsPassOf nucleus.now pass.old }
    requires posts { (caller_of pass.old).posts ≡ 0 }
    requires commands { commands ≤ DRAWS_LIMIT }
    ensures pass { IsPassOf nucleus.now pass.new }
    ensures same { IsSamePass (known pass.old) (known pass.new) }
    ensures ok { OnOk result (Goes (crew_commands first commands) pass.old pass.new) }
    ensures even { OnOk result (IsEven (layout_of nucleus.now) (known pass.new)) }
{
    make_and_send(alloc, rt, nucleus, pass, first, commands)?;
    settle(rt, nucleus, pass)
}

/// Makes the crew's ports, and sends the drawn messages to them.
fn make_and_send<R: Wait>(
    alloc: Global,
    rt: &R,
    nucleus: &Nucleus,
    pass: &mut Pass,
    first: u64,
    commands: u32,
) -> Result<(), Halted>
    requires pass { IsPassOf nucleus.now pass.old }
    requires posts { (caller_of pass.old).posts ≡ 0 }
    requires commands { commands ≤ DRAWS_LIMIT }
    ensures pass { IsPassOf nucleus.now pass.new }
    ensures same { IsSamePass (known pass.old) (known pass.new) }
    ensures ok { OnOk result (Goes (crew_commands first commands) pass.old pass.new) }
{
    make_ports(rt, nucleus, pass)?;
    send_all(alloc, rt, nucleus, pass, first, commands)
}

/// Makes the crew's ports, one on each of the first sites.
fn make_ports<R: Wait>(rt: &R, nucleus: &Nucleus, pass: &mut Pass) -> Result<(), Halted>
    requires pass { IsPassOf nucleus.now pass.old }
    ensures pass { IsPassOf nucleus.now pass.new }
    ensures same { IsSamePass (known pass.old) (known pass.new) }
    ensures ok { OnOk result (Goes (makes CREW_PORTS 1) pass.old pass.new) }
{
    for index in 0..CREW_PORTS {
        perform_command(rt, nucleus, pass, &make_port(index + 1))?;
    }
    Ok(())
}

/// The command by which the crew's port of a site is made.
fn make_port(site: u16) -> Command
    requires { 1 ≤ site }
    ensures { result ≡ make_port site }
{
    Command::Make {
        actor: crew_actor(site),
        capacity: PENDING_LIMIT as u8,
    }
}

/// Performs the sends to the crew's ports among the drawn commands, each with nothing left of the one before.
fn send_all<R: Wait>(
    alloc: Global,
    rt: &R,
    nucleus: &Nucleus,
    pass: &mut Pass,
    first: u64,
    commands: u32,
) -> Result<(), Halted>
    requires pass { IsPassOf nucleus.now pass.old }
    requires posts { (caller_of pass.old).posts ≤ CREW_PORTS }
    requires commands { commands ≤ DRAWS_LIMIT }
    ensures pass { IsPassOf nucleus.now pass.new }
    ensures same { IsSamePass (known pass.old) (known pass.new) }
    ensures ok { OnOk result (Goes (sends_of first commands) pass.old pass.new) }
{
    let mut state = first;
    for index in 0..commands {
        state = next_state(state);
        send_drawn(alloc, rt, nucleus, pass, site_drawn(state), index + 1)?;
    }
    Ok(())
}

/// Sends this number to the port of the site that was drawn, if one was, and pumps all places until nothing is left.
fn send_drawn<R: Wait>(
    alloc: Global,
    rt: &R,
    nucleus: &Nucleus,
    pass: &mut Pass,
    drawn: Option<u16>,
    number: u32,
) -> Result<(), Halted>
    requires pass { IsPassOf nucleus.now pass.old }
    requires posts { (caller_of pass.old).posts < u32.MAX }
    requires site { IfSome drawn (λ site. 1 ≤ site) }
    ensures pass { IsPassOf nucleus.now pass.new }
    ensures same { IsSamePass (known pass.old) (known pass.new) }
    ensures ok { OnOk result (Goes (commands_of (sending drawn number)) pass.old pass.new) }
{
    let Some(site) = drawn else {
        return Ok(());
    };
    let Ok(command) = send_command(alloc, site, number) else {
        return Err(Halted);
    };
    perform_command(rt, nucleus, pass, &command)?;
    settle(rt, nucleus, pass)
}

/// The command that sends this number, in decimals, to the crew's port of a site.
fn send_command(alloc: Global, site: u16, number: u32) -> Result<Command, AllocError>
    requires { 1 ≤ site }
    ensures { IfOk result (λ command. command ≡ send_command site number) }
{
    let mut buffer = itoa::Buffer::new();
    Ok(Command::Send {
        dest: Dest::Port(crew_port(site)),
        body: Body::new(alloc, buffer.format(number).as_bytes())?,
    })
}
