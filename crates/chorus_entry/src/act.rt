//! The forty kinds of events.

ghost use Rattle.std.specs.Prelude.{◌≡◌, IfOk};

mod kinds;
mod names;

use crate::answer::Answer;
use crate::dest::Dest;
use crate::id::MsgId;
use crate::ids::Ids;
use crate::members::Members;
use crate::message::Message;
use chorus_ui::Ui;
use std::alloc::AllocError;

/// What an event was: one of forty kinds. A command appends first one entry that answers it, and then what follows from
/// it in the same call; a packet appends what it leads to.
///
/// Posting, ports, groups, migration and remote calls follow Rozier and others, "CHORUS Distributed Operating Systems"
/// (1988). The refusals, hops, positions and what a place tells another are this project's own.
#[derive(Drop)]
pub enum Act {
    /// A port is made, for the actor to receive from, with room for `capacity` messages. It starts at hop 0.
    Make {
        port: Ui,
        actor: Ui,
        capacity: u8,
    },
    /// The place has made all the ports that it may make.
    MakeFull {
        actor: Ui,
    },
    /// A port was to be made for, or moved to, an actor that the layout does not have.
    NoActor {
        actor: Ui,
    },
    /// A group was to be made on a site that the layout does not have.
    NoSite {
        site: u16,
    },
    /// A message is posted.
    Post {
        message: Message,
        dest: Dest,
    },
    /// The port takes the message into its queue, as its message number `pos`, counted from 0.
    Accept {
        id: MsgId,
        port: Ui,
        pos: u64,
    },
    /// The port's queue is full, with `len` messages.
    Full {
        id: MsgId,
        port: Ui,
        len: u8,
    },
    /// The port accepted this request before, or a later one of the client.
    Already {
        id: MsgId,
        port: Ui,
    },
    /// The port remembers as many clients as it can, and not the one of this request.
    ClientsFull {
        id: MsgId,
        port: Ui,
    },
    /// The message was tried at the port's hop `tried`; since then the port departed, by its hop `hop` to the place `to`.
    Stale {
        id: MsgId,
        port: Ui,
        tried: u64,
        to: u16,
        hop: u64,
    },
    /// The message came before the port, which is under way here by its hop `hop`.
    Early {
        id: MsgId,
        port: Ui,
        hop: u64,
    },
    /// There is no such port.
    NoPort {
        id: MsgId,
        port: Ui,
    },
    /// The message is for one site, and the port is, by its hop `hop`, at the place `to` of another.
    Elsewhere {
        id: MsgId,
        port: Ui,
        to: u16,
        hop: u64,
    },
    /// The group has no member to choose for the post.
    NoMember {
        id: MsgId,
        group: Ui,
    },
    /// These members are chosen for the post: its copies 1, 2, .. go to them in this order.
    Choose {
        id: MsgId,
        group: Ui,
        members: Members,
    },
    /// The message is sent on to the place `to`, where the port is located by its hop `hop`.
    Try {
        id: MsgId,
        port: Ui,
        to: u16,
        hop: u64,
    },
    /// The place that tried the message learns what was decided.
    Told {
        id: MsgId,
        answer: Answer,
    },
    /// The place of a post to a group learns what became of the post or of one of its copies.
    Heard {
        id: MsgId,
        answer: Answer,
    },
    /// The message `id`, number `pos` of the port, is received.
    Take {
        port: Ui,
        pos: u64,
        id: MsgId,
    },
    /// The reply just taken ends the caller's outstanding call of this number.
    Done {
        number: u32,
    },
    /// The reply just taken, to the request of this number, ends no outstanding call of the caller.
    Late {
        number: u32,
    },
    /// There was nothing to receive from the port.
    Empty {
        port: Ui,
    },
    /// The caller's actor does not hold the port here, to receive from it, to move it or to delete it.
    NotHere {
        port: Ui,
    },
    /// The port moves to an actor of the same site.
    Rehome {
        port: Ui,
        actor: Ui,
    },
    /// The port leaves for the place `to` and the actor there; it is its hop `hop`, counted from 1.
    Depart {
        port: Ui,
        to: u16,
        actor: Ui,
        hop: u64,
    },
    /// The port arrives by its hop `hop`.
    Arrive {
        port: Ui,
        hop: u64,
    },
    /// A group is made.
    GroupMake {
        group: Ui,
    },
    /// The site has made all the groups that it may make.
    GroupsFull {
        site: u16,
    },
    /// The port becomes the group's last member.
    Join {
        group: Ui,
        port: Ui,
    },
    /// The port is a member no more.
    Leave {
        group: Ui,
        port: Ui,
    },
    /// There is no such group to join or to leave.
    NoGroup {
        group: Ui,
    },
    /// The port that was to join is a member already.
    There {
        group: Ui,
        port: Ui,
    },
    /// The port that was to leave is no member.
    NotThere {
        group: Ui,
        port: Ui,
    },
    /// The group has as many members as it may have.
    MembersFull {
        group: Ui,
    },
    /// The caller's call of this number is outstanding, so it may make no other.
    Outstanding {
        number: u32,
    },
    /// The caller has no outstanding call to repeat or to cancel.
    NoCall,
    /// The caller holds no request to reply to.
    NoRequest,
    /// The caller ends its outstanding call of this number.
    Cancel {
        number: u32,
    },
    /// The port is deleted, and the messages that waited in it are discarded.
    Delete {
        port: Ui,
        discarded: Ids,
    },
    /// The port was deleted here.
    Gone {
        id: MsgId,
        port: Ui,
    },
}

impl Act {
    /// The same act again, in memory of its own.
    pub fn copied(&self) -> Result<Act, AllocError>
        ensures { IfOk result (λ act. act ≡ self.now) }
    {
        let act = match self {
            Act::Make {
                port,
                actor,
                capacity,
            } => Act::Make {
                port: *port,
                actor: *actor,
                capacity: *capacity,
            },
            Act::MakeFull { actor } => Act::MakeFull { actor: *actor },
            Act::NoActor { actor } => Act::NoActor { actor: *actor },
            Act::NoSite { site } => Act::NoSite { site: *site },
            Act::Post { message, dest } => Act::Post {
                message: message.copied(message.id.copy)?,
                dest: *dest,
            },
            Act::Accept { id, port, pos } => Act::Accept {
                id: *id,
                port: *port,
                pos: *pos,
            },
            Act::Full { id, port, len } => Act::Full {
                id: *id,
                port: *port,
                len: *len,
            },
            Act::Already { id, port } => Act::Already {
                id: *id,
                port: *port,
            },
            Act::ClientsFull { id, port } => Act::ClientsFull {
                id: *id,
                port: *port,
            },
            Act::Stale {
                id,
                port,
                tried,
                to,
                hop,
            } => Act::Stale {
                id: *id,
                port: *port,
                tried: *tried,
                to: *to,
                hop: *hop,
            },
            Act::Early { id, port, hop } => Act::Early {
                id: *id,
                port: *port,
                hop: *hop,
            },
            Act::NoPort { id, port } => Act::NoPort {
                id: *id,
                port: *port,
            },
            Act::Elsewhere { id, port, to, hop } => Act::Elsewhere {
                id: *id,
                port: *port,
                to: *to,
                hop: *hop,
            },
            Act::NoMember { id, group } => Act::NoMember {
                id: *id,
                group: *group,
            },
            Act::Choose { id, group, members } => Act::Choose {
                id: *id,
                group: *group,
                members: members.copied()?,
            },
            Act::Try { id, port, to, hop } => Act::Try {
                id: *id,
                port: *port,
                to: *to,
                hop: *hop,
            },
            Act::Told { id, answer } => Act::Told {
                id: *id,
                answer: *answer,
            },
            Act::Heard { id, answer } => Act::Heard {
                id: *id,
                answer: *answer,
            },
            Act::Take { port, pos, id } => Act::Take {
                port: *port,
                pos: *pos,
                id: *id,
            },
            Act::Done { number } => Act::Done { number: *number },
            Act::Late { number } => Act::Late { number: *number },
            Act::Empty { port } => Act::Empty { port: *port },
            Act::NotHere { port } => Act::NotHere { port: *port },
            Act::Rehome { port, actor } => Act::Rehome {
                port: *port,
                actor: *actor,
            },
            Act::Depart {
                port,
                to,
                actor,
                hop,
            } => Act::Depart {
                port: *port,
                to: *to,
                actor: *actor,
                hop: *hop,
            },
            Act::Arrive { port, hop } => Act::Arrive {
                port: *port,
                hop: *hop,
            },
            Act::GroupMake { group } => Act::GroupMake { group: *group },
            Act::GroupsFull { site } => Act::GroupsFull { site: *site },
            Act::Join { group, port } => Act::Join {
                group: *group,
                port: *port,
            },
            Act::Leave { group, port } => Act::Leave {
                group: *group,
                port: *port,
            },
            Act::NoGroup { group } => Act::NoGroup { group: *group },
            Act::There { group, port } => Act::There {
                group: *group,
                port: *port,
            },
            Act::NotThere { group, port } => Act::NotThere {
                group: *group,
                port: *port,
            },
            Act::MembersFull { group } => Act::MembersFull { group: *group },
            Act::Outstanding { number } => Act::Outstanding { number: *number },
            Act::NoCall => Act::NoCall,
            Act::NoRequest => Act::NoRequest,
            Act::Cancel { number } => Act::Cancel { number: *number },
            Act::Delete { port, discarded } => Act::Delete {
                port: *port,
                discarded: discarded.copied()?,
            },
            Act::Gone { id, port } => Act::Gone {
                id: *id,
                port: *port,
            },
        };
        Ok(act)
    }
}
