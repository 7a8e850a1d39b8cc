//! What a caller is told.

use chorus_calls::Settle;
use chorus_entry::{Message, MsgId};
use chorus_ui::Ui;

/// The reply to a command. Each comes exactly where the command's call appended the entry of the same meaning; the reply to
/// a post is the verdict or the choice of its copy 0, or `Posted` where the call had neither yet.
#[derive(Drop, PartialEq, Eq)]
pub enum Reply {
    /// The port or the group is made, and has this name.
    Made(Ui),
    /// The place has made all the ports that it may make.
    MakeFull,
    /// The layout has no such actor.
    NoActor,
    /// The layout has no such site.
    NoSite,
    /// The site has made all the groups that it may make.
    GroupsFull,
    /// The port accepted the message, at this position.
    Accepted {
        msg: MsgId,
        pos: u64,
    },
    /// The port is full, with so many messages, and refused this one.
    Full {
        msg: MsgId,
        len: u8,
    },
    /// The message is posted, and its verdict will come.
    Posted(MsgId),
    /// The port is on its way here by this hop; the message is refused.
    Early {
        msg: MsgId,
        hop: u64,
    },
    /// There is no such port.
    NoPort(MsgId),
    /// The port accepted this request before, or a later one of the client.
    Already(MsgId),
    /// The port remembers as many clients as it may, and not this one.
    ClientsFull(MsgId),
    /// So many members were chosen for the post.
    Chosen {
        msg: MsgId,
        count: u16,
    },
    /// The group has no member to choose.
    NoMember(MsgId),
    /// The message that waited first is received, at this position. Where it is a reply, `settled` says whether it ended the
    /// caller's outstanding call.
    Taken {
        pos: u64,
        message: Message,
        settled: Option<Settle>,
    },
    /// No message waits.
    Empty,
    /// The caller's actor does not hold the port here.
    NotHere,
    /// The port has another actor of its site.
    Rehomed,
    /// The port departed by this hop.
    Departed {
        hop: u64,
    },
    /// The port is a member.
    Joined,
    /// The port is no member any more.
    Left,
    /// There is no such group.
    NoGroup,
    /// The port was a member before.
    There,
    /// The port was no member.
    NotThere,
    /// The group has as many members as it may.
    MembersFull,
    /// The caller's call of this number is outstanding, so no other begins.
    Outstanding {
        number: u32,
    },
    /// The caller has no outstanding call.
    NoCall,
    /// The caller has no request in hand.
    NoRequest,
    /// The call of this number is ended.
    Cancelled {
        number: u32,
    },
    /// The port is deleted, and so many messages with it.
    Deleted {
        discarded: u16,
    },
    /// The port was deleted.
    Gone(MsgId),
}
