//! The first bytes of bodies, behind the acts that say what became of their messages.

ghost use Rattle.std.specs.Prelude.{◌≡◌, ◌+◌, ◌++◌, [], take, IfOk, OnOk};
ghost use Rattle.std.specs.List.{flat_map};
ghost use Rattle.chorus_show.specs.Phrases.{byte_text};
ghost use Rattle.picture_texts.specs.declared.limits.TheConstants.{SHOWN_BODY_LIMIT};
ghost use Rattle.picture_rows.specs.Bodies.{AreBodies, BodiesAfter, body_note, message_noted, note_kept, noted};

use chorus_entry::{Act, Entry, MsgId};
use chorus_show::push_byte;
use picture_texts::{SHOWN_BODY_LIMIT, push_shown_body};
use std::alloc::{AllocError, Global};
use std::collections::HashMap;

/// What is said of each message that the drawn entries post, behind the acts that say what became
/// of it.
#[derive(Drop)]
pub(crate) struct Bodies {
    /// By the id of its post.
    pub(crate) notes: HashMap<MsgId, Vec<u8>>,
}

impl Bodies {
    /// The notes before any entry was drawn.
    pub(crate) fn new(alloc: Global) -> Bodies
        ensures { AreBodies result [] }
    {
        Bodies {
            notes: HashMap::new(alloc),
        }
    }

    /// Adds the note of the message that the drawn entry posts, if it posts one that has none.
    pub(crate) fn add(&mut self, alloc: Global, entry: &Entry) -> Result<(), AllocError>
        ensures { OnOk result (BodiesAfter entry.now self.old self.new) }
    {
        let Act::Post { message, .. } = &entry.act else {
            return Ok(());
        };
        if message.id.seat != entry.seat || self.notes.contains_key(&message.id) {
            return Ok(());
        }
        let note = body_note(alloc, message.body.bytes())?;
        self.notes.insert(message.id, note)?;
        Ok(())
    }

    /// The note behind the act: of the message that it takes, refuses or receives.
    pub(crate) fn note(&self, act: &Act) -> &[u8]
        ensures { result.now ≡ note_kept (noted self.now) (message_noted act.now) }
    {
        match message_noted(act) {
            Some(id) => self.kept(id),
            None => &[],
        }
    }

    /// The note of a message, which its post has; nothing where none is kept.
    fn kept(&self, id: MsgId) -> &[u8]
        ensures { result.now ≡ note_kept (noted self.now) (Some id) }
    {
        match self.notes.get(&MsgId { copy: 0, ..id }) {
            Some(note) => note.as_slice(),
            None => &[],
        }
    }
}

/// The message of which the act says that a port takes or refuses it, that nobody is there for it, or
/// that it is received.
fn message_noted(act: &Act) -> Option<MsgId>
    ensures { result ≡ message_noted act.now }
{
    match act {
        Act::Accept { id, .. }
        | Act::Full { id, .. }
        | Act::Already { id, .. }
        | Act::ClientsFull { id, .. }
        | Act::Stale { id, .. }
        | Act::Early { id, .. }
        | Act::NoPort { id, .. }
        | Act::Elsewhere { id, .. }
        | Act::NoMember { id, .. }
        | Act::Take { id, .. }
        | Act::Gone { id, .. } => Some(*id),
        _ => None,
    }
}

/// What is said of a message with this body, as it stands between the tags of a picture.
fn body_note(alloc: Global, body: &[u8]) -> Result<Vec<u8>, AllocError>
    ensures { IfOk result (λ note. note.items ≡ body_note body.now) }
{
    let mut text = Vec::new(alloc);
    text.push(b'=')?;
    push_bytes(first_of(body), &mut text)?;
    let mut note = Vec::new(alloc);
    note.extend_from_slice(b"<tspan class='body'>  ")?;
    push_shown_body(&text, &mut note)?;
    note.extend_from_slice(b"</tspan>")?;
    Ok(note)
}

/// The first bytes of a body: those that are shown, and one more, which tells that it is cut.
fn first_of(body: &[u8]) -> &[u8]
    ensures { result.now ≡ take (1 + SHOWN_BODY_LIMIT) body.now }
{
    if body.len() <= 1 + SHOWN_BODY_LIMIT {
        return body;
    }
    let (front, _) = body.split_at(1 + SHOWN_BODY_LIMIT);
    front
}

/// Appends what stands in a journal for these bytes of a body.
fn push_bytes(bytes: &[u8], out: &mut Vec<u8>) -> Result<(), AllocError>
    ensures { OnOk result (out.new.items ≡ out.old.items ++ flat_map byte_text bytes.now) }
{
    for byte in bytes {
        push_byte(*byte, out)?;
    }
    Ok(())
}
