//! What an act names, and the answer that it gives.

ghost use Rattle.std.specs.Prelude.{◌≡◌};
ghost use Rattle.chorus_entry.specs.Act.{message_of, port_of, held_port_of, answer_of, is_verdict};

use crate::act::Act;
use crate::answer::Answer;
use crate::id::MsgId;
use chorus_ui::Ui;

impl Act {
    /// The message that the act names as the one that it is about. A Take is about its port.
    pub fn message(&self) -> Option<MsgId>
        ensures { result ≡ message_of self.now }
    {
        match self {
            Act::Post { message, .. } => Some(message.id),
            Act::Accept { id, .. }
            | Act::Full { id, .. }
            | Act::Already { id, .. }
            | Act::ClientsFull { id, .. }
            | Act::Stale { id, .. }
            | Act::Early { id, .. }
            | Act::NoPort { id, .. }
            | Act::Elsewhere { id, .. }
            | Act::NoMember { id, .. }
            | Act::Choose { id, .. }
            | Act::Try { id, .. }
            | Act::Told { id, .. }
            | Act::Heard { id, .. }
            | Act::Gone { id, .. } => Some(*id),
            _ => None,
        }
    }

    /// The port that the act names; of a post, the one that it goes to.
    pub fn port(&self) -> Option<Ui>
        ensures { result ≡ port_of self.now }
    {
        match self {
            Act::Post { dest, .. } => dest.port(),
            Act::Make { port, .. }
            | Act::Accept { port, .. }
            | Act::Full { port, .. }
            | Act::Already { port, .. }
            | Act::ClientsFull { port, .. }
            | Act::Stale { port, .. }
            | Act::Early { port, .. }
            | Act::NoPort { port, .. }
            | Act::Elsewhere { port, .. }
            | Act::Try { port, .. }
            | Act::Take { port, .. }
            | Act::Empty { port }
            | Act::NotHere { port }
            | Act::Rehome { port, .. }
            | Act::Depart { port, .. }
            | Act::Arrive { port, .. }
            | Act::Join { port, .. }
            | Act::Leave { port, .. }
            | Act::There { port, .. }
            | Act::NotThere { port, .. }
            | Act::Delete { port, .. }
            | Act::Gone { port, .. } => Some(*port),
            _ => None,
        }
    }

    /// The port that the act names and on whose line it stands: the one that it needs held at its place, makes or brings.
    pub fn held_port(&self) -> Option<Ui>
        ensures { result ≡ held_port_of self.now }
    {
        match self {
            Act::Make { port, .. }
            | Act::Accept { port, .. }
            | Act::Full { port, .. }
            | Act::Already { port, .. }
            | Act::ClientsFull { port, .. }
            | Act::Take { port, .. }
            | Act::Empty { port }
            | Act::Rehome { port, .. }
            | Act::Depart { port, .. }
            | Act::Arrive { port, .. }
            | Act::Delete { port, .. } => Some(*port),
            _ => None,
        }
    }

    /// The answer that the act gives, where it is a decision or a choice of members.
    pub fn answer(&self) -> Option<Answer>
        ensures { result ≡ answer_of self.now }
    {
        let answer = match self {
            Act::Accept { pos, .. } => Answer::Accepted { pos: *pos },
            Act::Full { len, .. } => Answer::Full { len: *len },
            Act::Already { .. } => Answer::Already,
            Act::ClientsFull { .. } => Answer::ClientsFull,
            Act::Stale { to, hop, .. } => Answer::Stale { to: *to, hop: *hop },
            Act::Early { hop, .. } => Answer::Early { hop: *hop },
            Act::NoPort { .. } => Answer::NoPort,
            Act::Elsewhere { to, hop, .. } => Answer::Elsewhere { to: *to, hop: *hop },
            Act::NoMember { .. } => Answer::NoMember,
            Act::Choose { members, .. } => Answer::Chosen {
                count: members.uis().len() as u16,
            },
            Act::Gone { .. } => Answer::Gone,
            _ => return None,
        };
        Some(answer)
    }

    /// Whether the act, by the answer that it gives, is a verdict: a decision other than Stale, or that there is no
    /// member to choose.
    pub fn is_verdict(&self) -> bool
        ensures { result ≡ is_verdict self.now }
    {
        matches!(
            self,
            Act::Accept { .. }
                | Act::Full { .. }
                | Act::Already { .. }
                | Act::ClientsFull { .. }
                | Act::Early { .. }
                | Act::NoPort { .. }
                | Act::Elsewhere { .. }
                | Act::NoMember { .. }
                | Act::Gone { .. }
        )
    }
}
