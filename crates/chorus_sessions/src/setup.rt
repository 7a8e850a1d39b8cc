//! The ports that are made before sessions come.

ghost use Rattle.chorus_nucleus.specs.Passes.{IsPassOf};
ghost use Rattle.std.specs.Prelude.{OnOk};
ghost use Rattle.chorus_sessions.specs.Playing.{AreMade, IsMade};
ghost use Rattle.chorus_sessions.specs.Sessions.{Goes};

use crate::fault::SessionsFault;
use chorus_nucleus::{CallFault, Nucleus, Pass};
use chorus_place::Reply;
use chorus_ui::Ui;

/// A port that is made before sessions come. The ports of a place are numbered from 1, in the order in which they are
/// made.
#[derive(Clone, Copy)]
pub struct NewPort {
    /// The actor that holds it first.
    pub actor: Ui,
    /// How many messages may wait in it, 1 to 64.
    pub capacity: u8,
}

/// Makes a port before sessions come.
#[tactic(auto, using(crate::proofs::Steps::calls))]
fn make_port(nucleus: &Nucleus, pass: &mut Pass, port: NewPort) -> Result<(), SessionsFault>
    requires { IsPassOf nucleus.now pass.old }
    ensures goes { Goes nucleus.now pass.old pass.new }
    ensures made { OnOk result (IsMade nucleus.now port pass.old pass.new) }
{
    if !port.actor.is_actor() || port.capacity == 0 || port.capacity > 64 {
        return Err(SessionsFault::NoPort);
    }
    match nucleus.make_port(pass, port.actor, port.capacity) {
        Ok(Reply::Made(_)) => Ok(()),
        Err(CallFault::Memory(none)) => Err(SessionsFault::Memory(none)),
        _ => Err(SessionsFault::NoPort),
    }
}

/// Makes the ports before sessions come, in their order, up to the first for which that fails.
#[tactic(auto, using(crate::proofs::Steps::calls))]
pub(crate) fn make_ports(
    nucleus: &Nucleus,
    pass: &mut Pass,
    ports: &[NewPort],
) -> Result<(), SessionsFault>
    requires { IsPassOf nucleus.now pass.old }
    ensures goes { Goes nucleus.now pass.old pass.new }
    ensures made { OnOk result (AreMade nucleus.now ports.now pass.old pass.new) }
{
    for index in 0..ports.len() {
        make_port(nucleus, pass, ports[index])?;
    }
    Ok(())
}
