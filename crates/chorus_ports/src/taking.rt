//! Receiving from a port.

ghost use Rattle.std.specs.Prelude.{◌≡◌};
ghost use Rattle.chorus_ports.specs.Limits.{IsWithinLimits};
ghost use Rattle.chorus_ports.specs.Taking.{taken_from, after_take};

use chorus_entry::{Message, PortRecord};
use chorus_ui::Ui;

/// What an actor takes from a port.
#[derive(Drop)]
pub enum Taken {
    /// The first message that waited, and its position among all that the port ever accepted, counted from 0.
    Message { pos: u64, message: Message },
    /// None waits.
    Empty,
    /// The port is not held here, or another actor holds it.
    NotHere,
}

/// What the actor takes from the port. Takes no memory.
pub(crate) fn take(port: &mut PortRecord, actor: Ui) -> Taken
    requires { IsWithinLimits port.old }
    ensures value { result ≡ taken_from actor port.old }
    ensures after { port.new ≡ after_take actor port.old }
{
    if port.actor != actor {
        return Taken::NotHere;
    }
    match port.pending.pop_first() {
        Some(message) => {
            let pos = port.first;
            port.first += 1;
            Taken::Message { pos, message }
        }
        None => Taken::Empty,
    }
}
