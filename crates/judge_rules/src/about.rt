//! Which earlier entry of a judged journal a condition is about.

ghost use Rattle.std.specs.Prelude.{◌≡◌, reverse, Some};
ghost use Rattle.chorus_world.specs.Views.{makes_group};
ghost use Rattle.chorus_world.specs.Places.{taught};
ghost use Rattle.judge_rules.specs.About.{about_line, accepts, accepts_at, accepts_of, changes_call, changes_hand, changes_member, changes_members, is_group_make, is_make, is_post, is_reply, is_request, is_there, moves, passes, posts_as, queues, tells_of};

use chorus_entry::{Act, Answer, Entry, MsgId, Tag};
use chorus_ui::Ui;
use chorus_world::Location;

/// The earlier entry of a judged journal that a condition is about: the last that is so.
#[derive(Clone, Copy)]
pub enum About {
    /// None.
    Nothing,
    /// It is at the place.
    At {
        place: u16,
    },
    /// It is a post of the caller.
    Posts {
        seat: u32,
    },
    /// It begins or ends a call of the caller.
    Calls {
        seat: u32,
    },
    /// The caller takes a message by it, or posts a reply.
    Hands {
        seat: u32,
    },
    /// It makes a port at the place.
    Makes {
        place: u16,
    },
    /// It makes a group at the place.
    Groups {
        place: u16,
    },
    /// It makes, moves or deletes the port.
    Moves {
        port: Ui,
    },
    /// The port accepts a message by it, or gives one out.
    Queue {
        port: Ui,
    },
    /// The port accepts a message by it.
    Accepts {
        port: Ui,
    },
    /// The port accepts a message of the client by it.
    AcceptsOf {
        port: Ui,
        client: u32,
    },
    /// The port accepts by it the message at this position.
    AcceptsAt {
        port: Ui,
        pos: u64,
    },
    /// It is about the message.
    Message {
        id: MsgId,
    },
    /// It is the post of this id.
    Source {
        id: MsgId,
    },
    /// It moves the port from or to the place, or the place is told by it of a port that is there by this hop.
    Location {
        place: u16,
        port: Ui,
        to: u16,
        hop: u64,
    },
    /// It makes the group.
    Group {
        group: Ui,
    },
    /// A port joins the group by it, or leaves it.
    Members {
        group: Ui,
    },
    /// The port joins the group by it, or leaves it.
    Member {
        group: Ui,
        port: Ui,
    },
}

/// Whether the tag is that of a request, which a condition is about.
fn is_request(tag: &Tag) -> bool
    ensures { result ≡ is_request tag.now }
{
    matches!(tag, Tag::Request { .. })
}

/// Whether the tag is that of a reply, which a condition is about.
fn is_reply(tag: &Tag) -> bool
    ensures { result ≡ is_reply tag.now }
{
    matches!(tag, Tag::Reply { .. })
}

/// Whether the act, which a condition may be about, is a post.
fn is_post(act: &Act) -> bool
    ensures { result ≡ is_post act.now }
{
    matches!(act, Act::Post { .. })
}

/// Whether the act, which a condition may be about, begins or ends a call of its caller.
fn changes_call(act: &Act) -> bool
    ensures { result ≡ changes_call act.now }
{
    match act {
        Act::Post { message, .. } => is_request(&message.tag),
        Act::Done { .. } | Act::Cancel { .. } => true,
        _ => false,
    }
}

/// Whether the act, which a condition may be about, takes a message or posts a reply.
fn changes_hand(act: &Act) -> bool
    ensures { result ≡ changes_hand act.now }
{
    match act {
        Act::Post { message, .. } => is_reply(&message.tag),
        Act::Take { .. } => true,
        _ => false,
    }
}

/// Whether the act, which a condition may be about, makes a port.
fn is_make(act: &Act) -> bool
    ensures { result ≡ is_make act.now }
{
    matches!(act, Act::Make { .. })
}

/// Whether the act, which a condition may be about, makes a group.
fn is_group_make(act: &Act) -> bool
    ensures { result ≡ is_group_make act.now }
{
    matches!(act, Act::GroupMake { .. })
}

/// Whether the act, which a condition may be about, makes, moves or deletes the port.
fn moves(port: Ui, act: &Act) -> bool
    ensures { result ≡ moves port act.now }
{
    match act {
        Act::Make { port: named, .. }
        | Act::Rehome { port: named, .. }
        | Act::Depart { port: named, .. }
        | Act::Arrive { port: named, .. }
        | Act::Delete { port: named, .. } => *named == port,
        _ => false,
    }
}

/// Whether the port accepts a message by the act, which a condition may be about, or gives one out.
fn queues(port: Ui, act: &Act) -> bool
    ensures { result ≡ queues port act.now }
{
    match act {
        Act::Accept { port: named, .. } | Act::Take { port: named, .. } => *named == port,
        _ => false,
    }
}

/// Whether the port accepts a message by the act, which a condition may be about.
fn accepts(port: Ui, act: &Act) -> bool
    ensures { result ≡ accepts port act.now }
{
    match act {
        Act::Accept { port: named, .. } => *named == port,
        _ => false,
    }
}

/// Whether the port accepts a message of the client by the act, which a condition may be about.
fn accepts_of(port: Ui, client: u32, act: &Act) -> bool
    ensures { result ≡ accepts_of port client act.now }
{
    match act {
        Act::Accept {
            id,
            port: named,
            ..
        } => *named == port && id.seat == client,
        _ => false,
    }
}

/// Whether the port accepts by the act, which a condition may be about, the message at this position.
fn accepts_at(port: Ui, at: u64, act: &Act) -> bool
    ensures { result ≡ accepts_at port at act.now }
{
    match act {
        Act::Accept {
            port: named,
            pos,
            ..
        } => *named == port && *pos == at,
        _ => false,
    }
}

/// Whether the act, which a condition may be about, is the post of this id.
fn posts_as(id: MsgId, act: &Act) -> bool
    ensures { result ≡ posts_as id act.now }
{
    match act {
        Act::Post { message, .. } => message.id == id,
        _ => false,
    }
}

/// Where an answer, which a condition may be about, says that the port is.
fn taught(answer: Answer) -> Option<Location>
    ensures { result ≡ taught answer }
{
    match answer {
        Answer::Stale { to, hop } | Answer::Elsewhere { to, hop } => Some(Location { to, hop }),
        _ => None,
    }
}

/// Whether the location, of which a condition is, is known and this one.
fn is_there(to: u16, hop: u64, location: Option<Location>) -> bool
    ensures { result ≡ is_there to hop location }
{
    match location {
        Some(at) => at.to == to && at.hop == hop,
        None => false,
    }
}

/// Whether the act, which a condition may be about, moves the port or tells that one is there by this hop.
fn tells_of(port: Ui, to: u16, hop: u64, act: &Act) -> bool
    ensures { result ≡ tells_of port to hop act.now }
{
    match act {
        Act::Depart { port: named, .. } | Act::Arrive { port: named, .. } => *named == port,
        Act::Told { answer, .. } => is_there(to, hop, taught(*answer)),
        _ => false,
    }
}

/// Whether the act, which a condition may be about, makes the group.
fn makes_group(group: Ui, act: &Act) -> bool
    ensures { result ≡ makes_group group act.now }
{
    match act {
        Act::GroupMake { group: named } => *named == group,
        _ => false,
    }
}

/// Whether a port joins the group, or leaves it, by the act, which a condition may be about.
fn changes_members(group: Ui, act: &Act) -> bool
    ensures { result ≡ changes_members group act.now }
{
    match act {
        Act::Join { group: named, .. } | Act::Leave { group: named, .. } => *named == group,
        _ => false,
    }
}

/// Whether this port joins the group, or leaves it, by the act, which a condition may be about.
fn changes_member(group: Ui, port: Ui, act: &Act) -> bool
    ensures { result ≡ changes_member group port act.now }
{
    match act {
        Act::Join {
            group: named,
            port: joined,
        }
        | Act::Leave {
            group: named,
            port: joined,
        } => *named == group && *joined == port,
        _ => false,
    }
}

/// Whether the entry is about the message.
fn is_about(id: MsgId, entry: &Entry) -> bool
    ensures { result ≡ passes (About.Message id) entry.now }
{
    match entry.act.message() {
        Some(named) => id == named,
        None => false,
    }
}

/// Whether the entry is one of those of which the last is meant.
pub fn passes(about: &About, entry: &Entry) -> bool
    ensures { result ≡ passes about.now entry.now }
{
    match about {
        About::Nothing => false,
        About::At { place } => entry.place == *place,
        About::Posts { seat } => entry.seat == *seat && is_post(&entry.act),
        About::Calls { seat } => entry.seat == *seat && changes_call(&entry.act),
        About::Hands { seat } => entry.seat == *seat && changes_hand(&entry.act),
        About::Makes { place } => entry.place == *place && is_make(&entry.act),
        About::Groups { place } => entry.place == *place && is_group_make(&entry.act),
        About::Moves { port } => moves(*port, &entry.act),
        About::Queue { port } => queues(*port, &entry.act),
        About::Accepts { port } => accepts(*port, &entry.act),
        About::AcceptsOf { port, client } => accepts_of(*port, *client, &entry.act),
        About::AcceptsAt { port, pos } => accepts_at(*port, *pos, &entry.act),
        About::Message { id } => is_about(*id, entry),
        About::Source { id } => posts_as(*id, &entry.act),
        About::Location {
            place,
            port,
            to,
            hop,
        } => entry.place == *place && tells_of(*port, *to, *hop, &entry.act),
        About::Group { group } => makes_group(*group, &entry.act),
        About::Members { group } => changes_members(*group, &entry.act),
        About::Member { group, port } => changes_member(*group, *port, &entry.act),
    }
}

/// The line of the earlier entry that a condition is about, in a printed journal that begins with these entries; 0 where there is none.
pub(crate) fn about_line(entries: &[Entry], about: &About) -> u64
    ensures { result ≡ about_line (reverse entries.now) about.now }
{
    let mut line = 0;
    for (i, entry) in entries.iter().enumerate() {
        if passes(about, entry) {
            line = i as u64 + 2;
        }
    }
    line
}
