//! Commands are given until they are done.

ghost use Rattle.std.specs.Prelude.{◌≡◌, true, false};
ghost use Rattle.chorus_entry.specs.Command.{meets_conditions};
ghost use Rattle.chorus_sessions.specs.Sessions.{takes, IsSession};

use chorus_entry::Command;
use chorus_nucleus::{CallFault, Nucleus};
use chorus_place::Reply;
use chorus_sessions::{Pumped, Session};
use chorus_ui::Ui;
use std::sync::Wait;
use std::thread;

/// Gives any command but a take until no other session has its place, and moves packets meanwhile. None where the session has posted
/// 2^32 - 1 messages, or there is no memory or a clock is worn: nothing was done then.
pub(crate) fn give<R: Wait>(
    rt: &R,
    nucleus: &Nucleus,
    session: &mut Session,
    command: &Command,
) -> Option<Reply>
    requires session { IsSession nucleus.now session.old }
    requires conditions { meets_conditions command.now ≡ true }
    requires no_take { takes command.now ≡ false }
    ensures { IsSession nucleus.now session.new }
{
    for _ in rt.forever() {
        if session.posts() == u32::MAX {
            return None;
        }
        match session.act(nucleus, command) {
            Ok(reply) => return Some(reply),
            Err(CallFault::Busy { .. }) => {
                session.pump(rt, nucleus);
                thread::yield_now();
            }
            Err(_) => return None,
        }
    }
    None
}

/// Takes the first message that waits in the port. False where none was taken.
pub(crate) fn take_one(nucleus: &Nucleus, session: &mut Session, port: Ui) -> bool
    requires { IsSession nucleus.now session.old }
    ensures { IsSession nucleus.now session.new }
{
    port.is_port() && session.take(nucleus, port) == Ok(true)
}

/// Moves packets, and lets other threads run. True where it is worth looking for a message: some were moved, or it is a 16th round, since
/// a sender of the same place needs no packet.
pub(crate) fn go_round<R: Wait>(
    rt: &R,
    nucleus: &Nucleus,
    session: &mut Session,
    round: u32,
) -> bool
    requires { IsSession nucleus.now session.old }
    ensures { IsSession nucleus.now session.new }
{
    let pumped = session.pump(rt, nucleus);
    thread::yield_now();
    pumped == Pumped::Served || round % 16 == 0
}
