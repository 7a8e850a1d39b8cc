//! Messages.

ghost use Rattle.std.specs.Prelude.{◌≡◌, IfOk};
ghost use Rattle.chorus_entry.specs.Message.{as_copy};

use crate::body::Body;
use crate::id::MsgId;
use crate::tag::Tag;
use std::alloc::AllocError;

/// A message: its id, what it is, and the bytes that it carries.
#[derive(Debug, Drop, PartialEq, Eq)]
pub struct Message {
    /// Its name.
    pub id: MsgId,
    /// Whether it is a request, a reply or neither.
    pub tag: Tag,
    /// The bytes that it carries.
    pub body: Body,
}

impl Message {
    /// The same message as copy `copy` of its post: it differs in the copy number of its id alone.
    pub fn copied(&self, copy: u16) -> Result<Message, AllocError>
        ensures { IfOk result (λ message. message ≡ as_copy self.now copy) }
    {
        let body = self.body.copied()?;
        let id = MsgId { copy, ..self.id };
        Ok(Message {
            id,
            tag: self.tag,
            body,
        })
    }
}
