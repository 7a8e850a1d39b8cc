//! What a session does.

ghost use Rattle.std.specs.Prelude.{◌≡◌};
ghost use Rattle.chorus_ui.specs.declared.ui.Ui.{Ui};
ghost use Rattle.chorus_nucleus.specs.declared.nucleus.Nucleus.{Nucleus};
ghost use Rattle.chorus_sessions.specs.declared.session.Session.{Session};
ghost use Rattle.chorus_sessions.specs.Sessions.{IsSession};

use crate::session::Session;
use chorus_nucleus::Nucleus;
use chorus_ui::Ui;
use std::sync::Wait;

/// What a session does. It has the nucleus and its session, and no other way to them: so what `run_sessions` promises
/// holds whatever it does.
pub trait Behaviour: Sync {
    // The actor in which its session comes.
    ghost in_actor: { Self → Ui };

    // What it does with its session when it runs, and when it finishes: anything, where nothing is said.
    ghost ran: { Self → Nucleus → Session → Session → Type 0 } = { λ _ _ _ _. Unit {0} };

    ghost finished: { Self → Nucleus → Session → Session → Type 0 } = { λ _ _ _ _. Unit {0} };

    /// The actor of the layout in which the session comes.
    fn actor(&self) -> Ui
        ensures { result ≡ in_actor self.now };

    /// The session's work. It runs beside that of the other sessions where threads can be made, else the sessions run in turn: so it
    /// must not wait for another session. Somebody has to move packets meanwhile: [`Session::pump`].
    fn run<R: Wait>(&self, rt: &R, nucleus: &Nucleus, session: &mut Session)
        requires { IsSession nucleus.now session.old }
        ensures session { IsSession nucleus.now session.new }
        ensures ran { ran self.now nucleus.now session.old session.new };

    /// What the session does when all have run and packets were moved until none was left, or a clock was worn. The sessions finish one
    /// after the other, in their order, and nothing is pumped meanwhile. What one of them sends or moves to another place then comes
    /// there when all have finished, and stays there.
    fn finish(&self, nucleus: &Nucleus, session: &mut Session)
        requires { IsSession nucleus.now session.old }
        ensures session { IsSession nucleus.now session.new }
        ensures finished { finished self.now nucleus.now session.old session.new };
}
