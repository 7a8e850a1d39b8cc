//! What a session may do by one turn at one place, as the nucleus says: each call tries that place once, and waits for nobody.

ghost use Rattle.std.specs.Prelude.{◌≡◌, ◌<◌, ◌≤◌, true, false, length};
ghost use Rattle.chorus_ui.specs.declared.limits.TheConstants.{BODY_LIMIT};
ghost use Rattle.chorus_ui.specs.NameKind.{is_actor, is_port};
ghost use Rattle.chorus_entry.specs.Command.{is_post, meets_conditions};
ghost use Rattle.chorus_entry.specs.declared.dest.Dest.TheVariants as Dest;
ghost use Rattle.chorus_entry.specs.declared.command.Command.TheVariants as Command;
ghost use Rattle.chorus_nucleus.specs.Passes.{caller_of};
ghost use Rattle.chorus_nucleus.specs.Calls.{IsCall, IsOutcome};
ghost use Rattle.chorus_sessions.specs.Sessions.{hand_of, pass_of, takes, Asks, IsSession, TakesOne};

use crate::hand::PortMessage;
use crate::session::Session;
use chorus_entry::{Command, Dest, MsgId};
use chorus_nucleus::{CallFault, Nucleus};
use chorus_place::Reply;
use chorus_ui::Ui;
use law_machine::Outcome;

/// What a port answers to a session that asks it for a message.
#[derive(Clone, Copy, Debug, PartialEq, Eq)]
pub enum Asked {
    /// A message was handed out.
    Took,
    /// The session's actor holds the port, and no message waits in it.
    Empty,
    /// The session's actor does not hold the port here.
    NotHere,
}

impl Session {
    /// A call: gives any command but a take, by one turn at one place, as [`Nucleus::act`] does.
    #[tactic(auto, using(crate::proofs::Steps::sessions))]
    pub fn act(&mut self, nucleus: &Nucleus, command: &Command) -> Result<Reply, CallFault>
        requires session { IsSession nucleus.now self.old }
        requires conditions { meets_conditions command.now ≡ true }
        requires posts { is_post command.now ≡ true →
            (caller_of (pass_of self.old)).posts < u32.MAX }
        requires no_take { takes command.now ≡ false }
        ensures session { IsSession nucleus.now self.new }
        ensures call { IsCall nucleus.now command.now (pass_of self.old) (pass_of self.new) result }
        ensures kept { hand_of self.new ≡ hand_of self.old }
    {
        nucleus.act(&mut self.pass, command)
    }

    /// Posts a message with this body, at most 4,096 bytes, to the port. The session has posted fewer than 2^32 - 1
    /// messages.
    #[tactic(auto, using(crate::proofs::Steps::sessions))]
    pub fn send(&mut self, nucleus: &Nucleus, port: Ui, body: &[u8]) -> Result<Reply, CallFault>
        requires session { IsSession nucleus.now self.old }
        requires port { is_port port ≡ true }
        requires body { length body.now ≤ BODY_LIMIT }
        requires posts { (caller_of (pass_of self.old)).posts < u32.MAX }
        ensures session { IsSession nucleus.now self.new }
        ensures call { IsCall nucleus.now (Command.Send (Dest.Port port) body.now)
            (pass_of self.old) (pass_of self.new) result }
        ensures kept { hand_of self.new ≡ hand_of self.old }
    {
        nucleus.send(&mut self.pass, Dest::Port(port), body)
    }

    /// What became of a message that the session posted, as [`Nucleus::outcome`] tells, which reads the journal of the session's home
    /// place from end to end.
    pub fn outcome(&mut self, nucleus: &Nucleus, id: MsgId) -> Result<Outcome, CallFault>
        requires { IsSession nucleus.now self.old }
        ensures session { IsSession nucleus.now self.new }
        ensures call { IsOutcome nucleus.now id (pass_of self.old) (pass_of self.new) result }
        ensures kept { hand_of self.new ≡ hand_of self.old }
    {
        nucleus.outcome(&mut self.pass, id)
    }

    /// Moves the port, with all that waits in it, to the actor, as [`Nucleus::move_port`] does.
    #[tactic(auto, using(crate::proofs::Steps::sessions))]
    pub fn move_port(&mut self, nucleus: &Nucleus, port: Ui, actor: Ui) -> Result<Reply, CallFault>
        requires session { IsSession nucleus.now self.old }
        requires port { is_port port ≡ true }
        requires actor { is_actor actor ≡ true }
        ensures session { IsSession nucleus.now self.new }
        ensures call { IsCall nucleus.now (Command.Move port actor)
            (pass_of self.old) (pass_of self.new) result }
        ensures kept { hand_of self.new ≡ hand_of self.old }
    {
        nucleus.move_port(&mut self.pass, port, actor)
    }

    /// Asks the port for its first message, by one take, and keeps what it is handed out, the last of [`Session::taken`].
    /// The faults are those of [`Nucleus::take`], and `Memory` where there is no room for a message more; nothing was
    /// taken then.
    #[tactic(auto, using(crate::proofs::Steps::taking))]
    pub fn ask(&mut self, nucleus: &Nucleus, port: Ui) -> Result<Asked, CallFault>
        requires session { IsSession nucleus.now self.old }
        requires port { is_port port ≡ true }
        ensures session { IsSession nucleus.now self.new }
        ensures asked { Asks nucleus.now port result self.old self.new }
    {
        if let Err(none) = self.hand.taken.reserve(1) {
            return Err(CallFault::Memory(none));
        }
        match nucleus.take(&mut self.pass, port) {
            Ok(Reply::Taken { pos, message, .. }) => {
                self.hand.taken.push_reserved(PortMessage {
                    port,
                    position: pos,
                    message,
                });
                Ok(Asked::Took)
            }
            Ok(Reply::Empty) => Ok(Asked::Empty),
            Ok(Reply::NotHere) => Ok(Asked::NotHere),
            Ok(_) => unreachable!(),
            Err(fault) => Err(fault),
        }
    }

    /// Takes the first message that waits in the port, and keeps it, the last of [`Session::taken`]. False where no
    /// message waits there, and where the session's actor does not hold the port: [`Session::ask`] tells which. The
    /// faults are those of `ask`.
    pub fn take(&mut self, nucleus: &Nucleus, port: Ui) -> Result<bool, CallFault>
        requires session { IsSession nucleus.now self.old }
        requires port { is_port port ≡ true }
        ensures session { IsSession nucleus.now self.new }
        ensures taken { TakesOne nucleus.now port result self.old self.new }
    {
        match self.ask(nucleus, port) {
            Ok(Asked::Took) => Ok(true),
            Ok(Asked::Empty) => Ok(false),
            Ok(Asked::NotHere) => Ok(false),
            Err(fault) => Err(fault),
        }
    }
}
