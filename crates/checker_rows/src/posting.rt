//! A post without its body.

ghost use Rattle.std.specs.Prelude.{◌≡◌};
ghost use Rattle.chorus_world.specs.Posts.{posted_by};
ghost use Rattle.checker_rows.specs.Messages.{in_brief, posted_under};

use chorus_entry::{Act, Dest, Entry, MsgId, Tag};

/// A post without its body: where it was made, what it is, and where it goes.
#[derive(Clone, Copy)]
pub struct Posting {
    /// The place where it was made.
    pub place: u16,
    /// What it is: plain, a request or a reply.
    pub tag: Tag,
    /// Where it goes.
    pub dest: Dest,
}

/// The post, without its body, that the entry makes under this id.
fn posted_by(entry: &Entry, id: MsgId) -> Option<Posting>
    ensures { result ≡ in_brief (posted_by id entry.now.place entry.now.act) }
{
    match &entry.act {
        Act::Post { message, dest } if message.id == id => Some(Posting {
            place: entry.place,
            tag: message.tag,
            dest: *dest,
        }),
        _ => None,
    }
}

/// The post, without its body, that the entry makes under this id, where its seat is the id's.
pub(crate) fn posted_under(entry: &Entry, id: MsgId) -> Option<Posting>
    ensures { result ≡ posted_under id entry.now }
{
    if entry.seat == id.seat {
        posted_by(entry, id)
    } else {
        None
    }
}
