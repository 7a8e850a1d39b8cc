//! A command before its turn.
ghost use Rattle.std.specs.Prelude.{◌≡◌, true, IfOk};
ghost use Rattle.chorus_ui.specs.Layout.{has_site, has_place};
ghost use Rattle.chorus_entry.specs.Command.{meets_conditions, has_body_in_limit};
ghost use Rattle.chorus_entry.specs.Places.{place_for};
ghost use Rattle.chorus_entry.specs.declared.command.Command.TheVariants as Command;
ghost use Rattle.chorus_nucleus.specs.SiteTurns.Drafts.{meant};

use chorus_entry::{Body, Command, Dest};
use chorus_ui::{Layout, Ui};
use std::alloc::{AllocError, Global};

/// A command as its caller gives it: whole, or with a body that is the caller's. It is copied inside its turn, so a try that finds the
/// place held takes no memory.
#[derive(Drop)]
pub enum Draft<'a> {
    /// This command.
    Whole(&'a Command),
    /// A send.
    Send { dest: &'a Dest, body: &'a [u8] },
    /// A call.
    Call { port: Ui, back: Ui, body: &'a [u8] },
    /// A reply.
    Reply { body: &'a [u8] },
}

impl<'a> Draft<'a> {
    /// A draft of this whole command.
    pub fn whole(command: &'a Command) -> Draft<'a>
        ensures { meant result ≡ command.now }
    {
        Draft::Whole(command)
    }

    /// A draft of a send with this body.
    pub fn send(dest: &'a Dest, body: &'a [u8]) -> Draft<'a>
        ensures { meant result ≡ Command.Send dest.now body.now }
    {
        Draft::Send { dest, body }
    }

    /// A draft of a call with this body.
    pub fn call(port: Ui, back: Ui, body: &'a [u8]) -> Draft<'a>
        ensures { meant result ≡ Command.Call port back body.now }
    {
        Draft::Call { port, back, body }
    }

    /// A draft of a reply with this body.
    pub fn reply(body: &'a [u8]) -> Draft<'a>
        ensures { meant result ≡ Command.Reply body.now }
    {
        Draft::Reply { body }
    }

    /// A draft of the same command, of which nothing is copied.
    pub fn same(&self) -> Draft<'a>
        ensures { result ≡ self.now }
    {
        match self {
            Draft::Whole(command) => Draft::Whole(command),
            Draft::Send { dest, body } => Draft::Send { dest, body },
            Draft::Call { port, back, body } => Draft::Call {
                port: *port,
                back: *back,
                body,
            },
            Draft::Reply { body } => Draft::Reply { body },
        }
    }

    /// The place at which the draft's command is carried out, for a caller in this actor.
    pub fn place(&self, layout: Layout, actor: Ui) -> u16
        requires site { has_site layout actor.site ≡ true }
        requires conditions { meets_conditions (meant self.now) ≡ true }
        ensures value { result ≡ place_for layout actor (meant self.now) }
        ensures in_layout { has_place layout result ≡ true }
    {
        match self {
            Draft::Whole(command) => command.place_for(layout, actor),
            // Each command with a body is carried out at the caller's home place, as this one is.
            Draft::Send { .. } | Draft::Call { .. } | Draft::Reply { .. } => {
                Command::Cancel.place_for(layout, actor)
            }
        }
    }

    /// The draft's command, in memory of its own.
    pub fn command(&self, alloc: Global) -> Result<Command, AllocError>
        requires { has_body_in_limit (meant self.now) ≡ true }
        ensures { IfOk result (λ command. command ≡ meant self.now) }
    {
        match self {
            Draft::Whole(command) => command.copied(),
            Draft::Send { dest, body } => Ok(Command::Send {
                dest: **dest,
                body: Body::new(alloc, body)?,
            }),
            Draft::Call { port, back, body } => Ok(Command::Call {
                port: *port,
                back: *back,
                body: Body::new(alloc, body)?,
            }),
            Draft::Reply { body } => Ok(Command::Reply {
                body: Body::new(alloc, body)?,
            }),
        }
    }
}
