//! What callers ask for.

ghost use Rattle.std.specs.Prelude.{◌≡◌, IfOk};

mod conditions;
mod places;

use crate::body::Body;
use crate::dest::Dest;
use chorus_ui::Ui;
use std::alloc::AllocError;

/// What a caller asks of the nucleus. A place performs a command in one turn and appends one entry that answers it.
///
/// The commands are those of the Chorus article of 1988, without its memory: actors, ports, groups, migration and remote
/// calls. A command is given under conditions, which [`Command::meets_conditions`] tests: each name in it is of the kind that
/// it stands for, a capacity is from 1 to 64, and the site that a destination demands is from 1 to 16.
#[derive(Drop)]
pub enum Command {
    /// Makes a port of this actor, with room for `capacity` waiting messages, 1 to 64.
    Make { actor: Ui, capacity: u8 },
    /// Posts a message that asks for nothing.
    Send { dest: Dest, body: Body },
    /// Posts a request to a port; the reply goes to the port `back`. A caller has at most one call outstanding.
    Call { port: Ui, back: Ui, body: Body },
    /// Posts the request of the outstanding call again.
    Retry,
    /// Ends the outstanding call.
    Cancel,
    /// Answers the request in hand, the one that was taken last.
    Reply { body: Body },
    /// Receives the first waiting message of a port of the caller's actor.
    Take { port: Ui },
    /// Moves a port, with all that waits in it, to an actor of this or another site.
    Move { port: Ui, actor: Ui },
    /// Makes a group at the first place of a site.
    GroupMake { site: u16 },
    /// Makes a port the last member of a group.
    Join { group: Ui, port: Ui },
    /// Takes a port out of a group.
    Leave { group: Ui, port: Ui },
    /// Deletes a port of the caller's actor, and with it what waits there.
    Delete { port: Ui },
}

impl Command {
    /// The same command again, in memory of its own.
    pub fn copied(&self) -> Result<Command, AllocError>
        ensures { IfOk result (λ command. command ≡ self.now) }
    {
        let command = match self {
            Command::Make { actor, capacity } => Command::Make {
                actor: *actor,
                capacity: *capacity,
            },
            Command::Send { dest, body } => Command::Send {
                dest: *dest,
                body: body.copied()?,
            },
            Command::Call { port, back, body } => Command::Call {
                port: *port,
                back: *back,
                body: body.copied()?,
            },
            Command::Retry => Command::Retry,
            Command::Cancel => Command::Cancel,
            Command::Reply { body } => Command::Reply {
                body: body.copied()?,
            },
            Command::Take { port } => Command::Take { port: *port },
            Command::Move { port, actor } => Command::Move {
                port: *port,
                actor: *actor,
            },
            Command::GroupMake { site } => Command::GroupMake { site: *site },
            Command::Join { group, port } => Command::Join {
                group: *group,
                port: *port,
            },
            Command::Leave { group, port } => Command::Leave {
                group: *group,
                port: *port,
            },
            Command::Delete { port } => Command::Delete { port: *port },
        };
        Ok(command)
    }
}
