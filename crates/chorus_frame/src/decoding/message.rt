//! Messages.

ghost use Rattle.chorus_frame.specs.Calls.{Reads};
ghost use Rattle.chorus_frame.specs.Reading.{id_at, request_at, reply_at, tag_at, body_at, message_at};

use super::number::{name_from, positive_from};
use crate::fault::DecodeFault;
use crate::reader::Reader;
use chorus_entry::{BODY_LIMIT, Body, MEMBERS_LIMIT, Message, MsgId, Tag};
use chorus_ui::Kind;
use std::alloc::Global;

/// The id of a message.
#[tactic(auto, unfolding(crate::specs::Reading::id_at, crate::specs::Numbers::tested_at))]
pub(super) fn id_from(reader: &mut Reader<'_>) -> Result<MsgId, DecodeFault>
    ensures { Reads result reader.new (id_at reader.old) }
{
    let seat = reader.u32()?;
    let number = positive_from(reader)?;
    let copy = reader.u16()?;
    if usize::from(copy) > MEMBERS_LIMIT {
        return Err(DecodeFault::Range);
    }
    Ok(MsgId { seat, number, copy })
}

/// What goes with a message that is a request.
#[tactic(auto, unfolding(crate::specs::Reading::request_at))]
fn request_from(reader: &mut Reader<'_>) -> Result<Tag, DecodeFault>
    ensures { Reads result reader.new (request_at reader.old) }
{
    let number = positive_from(reader)?;
    let back = name_from(reader, Kind::Port)?;
    Ok(Tag::Request { number, back })
}

/// What goes with a message that is a reply.
#[tactic(auto, unfolding(crate::specs::Reading::reply_at))]
fn reply_from(reader: &mut Reader<'_>) -> Result<Tag, DecodeFault>
    ensures { Reads result reader.new (reply_at reader.old) }
{
    let client = reader.u32()?;
    let number = positive_from(reader)?;
    Ok(Tag::Reply { client, number })
}

/// What a message is beside its body.
#[tactic(auto, unfolding(crate::specs::Reading::tag_at, crate::specs::Numbers::tested_at))]
fn tag_from(reader: &mut Reader<'_>) -> Result<Tag, DecodeFault>
    ensures { Reads result reader.new (tag_at reader.old) }
{
    match reader.u8()? {
        0 => Ok(Tag::Plain),
        1 => request_from(reader),
        2 => reply_from(reader),
        _ => Err(DecodeFault::Kind),
    }
}

/// The length of a body, and the body. Memory is taken for bytes that are there.
#[tactic(auto, unfolding(crate::specs::Reading::body_at, crate::specs::Numbers::tested_at))]
fn body_from(alloc: Global, reader: &mut Reader<'_>) -> Result<Body, DecodeFault>
    ensures { Reads result reader.new (body_at reader.old) }
{
    let len = usize::from(reader.u16()?);
    if len > BODY_LIMIT {
        return Err(DecodeFault::Range);
    }
    let bytes = reader.bytes(len)?;
    Ok(Body::new(alloc, bytes)?)
}

/// A message.
#[tactic(auto, unfolding(crate::specs::Reading::message_at))]
pub(super) fn message_from(alloc: Global, reader: &mut Reader<'_>) -> Result<Message, DecodeFault>
    ensures { Reads result reader.new (message_at reader.old) }
{
    let id = id_from(reader)?;
    let tag = tag_from(reader)?;
    let body = body_from(alloc, reader)?;
    Ok(Message { id, tag, body })
}
