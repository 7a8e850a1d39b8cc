//! Messages.

ghost use Rattle.std.specs.Prelude.{◌≡◌, ◌++◌, OnOk, OnErr, length, take};
ghost use Rattle.chorus_frame.specs.Spelling.{id_fields, tag_fields, body_fields, message_fields};
ghost use Rattle.chorus_frame.specs.Held.{IsHeldId, IsHeldTag, IsHeldMessage};

use super::number::{push_name, push_u8, push_u16, push_u32};
use chorus_entry::{Body, Message, MsgId, Tag};
use std::alloc::AllocError;

/// Appends to a frame the id of a message, or a front of it for want of memory, here and in the calls below.
pub(super) fn push_id(id: &MsgId, out: &mut Vec<u8>) -> Result<(), AllocError>
    ensures ok { OnOk result (out.new.items ≡ out.old.items ++ id_fields id.now) }
    ensures err { OnErr result (take (length out.old.items) out.new.items ≡ out.old.items) }
    ensures held { OnOk result (IsHeldId id.now) }
{
    push_u32(id.seat, out)?;
    push_u32(id.number, out)?;
    push_u16(id.copy, out)
}

/// Appends to a frame what a message is beside its body.
fn push_tag(tag: &Tag, out: &mut Vec<u8>) -> Result<(), AllocError>
    ensures ok { OnOk result (out.new.items ≡ out.old.items ++ tag_fields tag.now) }
    ensures err { OnErr result (take (length out.old.items) out.new.items ≡ out.old.items) }
    ensures held { OnOk result (IsHeldTag tag.now) }
{
    match tag {
        Tag::Plain => push_u8(0, out),
        Tag::Request { number, back } => {
            push_u8(1, out)?;
            push_u32(*number, out)?;
            push_name(back, out)
        }
        Tag::Reply { client, number } => {
            push_u8(2, out)?;
            push_u32(*client, out)?;
            push_u32(*number, out)
        }
    }
}

/// Appends to a frame the length of a body, and the body.
fn push_body(body: &Body, out: &mut Vec<u8>) -> Result<(), AllocError>
    ensures ok { OnOk result (out.new.items ≡ out.old.items ++ body_fields body.now) }
    ensures err { OnErr result (take (length out.old.items) out.new.items ≡ out.old.items) }
{
    let bytes = body.bytes();
    push_u16(bytes.len() as u16, out)?;
    out.extend_from_slice(bytes)
}

/// Appends to a frame a message.
pub(super) fn push_message(message: &Message, out: &mut Vec<u8>) -> Result<(), AllocError>
    ensures ok { OnOk result (out.new.items ≡ out.old.items ++ message_fields message.now) }
    ensures err { OnErr result (take (length out.old.items) out.new.items ≡ out.old.items) }
    ensures held { OnOk result (IsHeldMessage message.now) }
{
    push_id(&message.id, out)?;
    push_tag(&message.tag, out)?;
    push_body(&message.body, out)
}
