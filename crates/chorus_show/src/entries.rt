//! Entries, and what is in them.

ghost use Rattle.std.specs.Prelude.{◌≡◌, ◌++◌, OnOk};
ghost use Rattle.chorus_show.specs.Bounds.{IsDest, IsTag, IsAnswer, IsActWithin, IsWithin};
ghost use Rattle.chorus_show.specs.Lines.{act_text, entry_text};

use crate::fields::Field;
use crate::phrases::{
    push_each, push_field, push_with_four, push_with_one, push_with_three, push_with_two, push_word,
};
use chorus_entry::{Act, Answer, Dest, Entry, Tag};
use std::alloc::AllocError;

impl Field for Dest {
    ghost use Rattle.chorus_show.specs.Lines.{dest_text};

    ghost text = { dest_text };

    ghost fits = { IsDest };

    /// Appends where a message goes as fields of an entry's line.
    fn push(&self, out: &mut Vec<u8>) -> Result<(), AllocError> {
        match self {
            Dest::Port(port) => push_with_one("port", port, out),
            Dest::All(group) => push_with_one("all", group, out),
            Dest::One(group) => push_with_one("one", group, out),
            Dest::OneAt(group, site) => push_with_two("at", group, site, out),
        }
    }
}

impl Field for Tag {
    ghost use Rattle.chorus_show.specs.Lines.{tag_text};

    ghost text = { tag_text };

    ghost fits = { IsTag };

    /// Appends what a message is as fields of an entry's line.
    fn push(&self, out: &mut Vec<u8>) -> Result<(), AllocError> {
        match self {
            Tag::Plain => push_word("plain", out),
            Tag::Request { number, back } => push_with_two("request", number, back, out),
            Tag::Reply { client, number } => push_with_two("reply", client, number, out),
        }
    }
}

impl Field for Answer {
    ghost use Rattle.chorus_show.specs.Lines.{answer_text};

    ghost text = { answer_text };

    ghost fits = { IsAnswer };

    /// Appends an answer as fields of an entry's line.
    fn push(&self, out: &mut Vec<u8>) -> Result<(), AllocError> {
        match self {
            Answer::Accepted { pos } => push_with_one("accepted", pos, out),
            Answer::Full { len } => push_with_one("full", len, out),
            Answer::Stale { to, hop } => push_with_two("stale", to, hop, out),
            Answer::Early { hop } => push_with_one("early", hop, out),
            Answer::NoPort => push_word("no-port", out),
            Answer::Already => push_word("already", out),
            Answer::ClientsFull => push_word("clients-full", out),
            Answer::Elsewhere { to, hop } => push_with_two("elsewhere", to, hop, out),
            Answer::NoMember => push_word("no-member", out),
            Answer::Chosen { count } => push_with_one("chosen", count, out),
            Answer::Gone => push_word("gone", out),
        }
    }
}

impl Field for Act {
    ghost use Rattle.chorus_show.specs.Lines.{act_text};

    ghost text = { act_text };

    ghost fits = { IsActWithin };

    /// Appends the act as fields of an entry's line.
    fn push(&self, out: &mut Vec<u8>) -> Result<(), AllocError> {
        match self {
            Act::Make {
                port,
                actor,
                capacity,
            } => push_with_three("make", port, actor, capacity, out),
            Act::MakeFull { actor } => push_with_one("make-full", actor, out),
            Act::NoActor { actor } => push_with_one("no-actor", actor, out),
            Act::NoSite { site } => push_with_one("no-site", site, out),
            Act::Post { message, dest } => {
                push_with_four("post", &message.id, dest, &message.tag, &message.body, out)
            }
            Act::Accept { id, port, pos } => push_with_three("accept", id, port, pos, out),
            Act::Full { id, port, len } => push_with_three("full", id, port, len, out),
            Act::Already { id, port } => push_with_two("already", id, port, out),
            Act::ClientsFull { id, port } => push_with_two("clients-full", id, port, out),
            Act::Stale {
                id,
                port,
                tried,
                to,
                hop,
            } => {
                push_with_four("stale", id, port, tried, to, out)?;
                push_field(hop, out)
            }
            Act::Early { id, port, hop } => push_with_three("early", id, port, hop, out),
            Act::NoPort { id, port } => push_with_two("no-port", id, port, out),
            Act::Elsewhere { id, port, to, hop } => push_with_four(
                "elsewhere",
                id,
                port,
                to,
                hop,
                out,
            ),
            Act::NoMember { id, group } => push_with_two("no-member", id, group, out),
            Act::Choose { id, group, members } => {
                push_with_two("choose", id, group, out)?;
                push_each(members.uis(), out)
            }
            Act::Try { id, port, to, hop } => push_with_four("try", id, port, to, hop, out),
            Act::Told { id, answer } => push_with_two("told", id, answer, out),
            Act::Heard { id, answer } => push_with_two("heard", id, answer, out),
            Act::Take { port, pos, id } => push_with_three("take", port, pos, id, out),
            Act::Done { number } => push_with_one("done", number, out),
            Act::Late { number } => push_with_one("late", number, out),
            Act::Empty { port } => push_with_one("empty", port, out),
            Act::NotHere { port } => push_with_one("not-here", port, out),
            Act::Rehome { port, actor } => push_with_two("rehome", port, actor, out),
            Act::Depart {
                port,
                to,
                actor,
                hop,
            } => push_with_four("depart", port, to, actor, hop, out),
            Act::Arrive { port, hop } => push_with_two("arrive", port, hop, out),
            Act::GroupMake { group } => push_with_one("group", group, out),
            Act::GroupsFull { site } => push_with_one("groups-full", site, out),
            Act::Join { group, port } => push_with_two("join", group, port, out),
            Act::Leave { group, port } => push_with_two("leave", group, port, out),
            Act::NoGroup { group } => push_with_one("no-group", group, out),
            Act::There { group, port } => push_with_two("there", group, port, out),
            Act::NotThere { group, port } => push_with_two("not-there", group, port, out),
            Act::MembersFull { group } => push_with_one("members-full", group, out),
            Act::Outstanding { number } => push_with_one("outstanding", number, out),
            Act::NoCall => push_word("no-call", out),
            Act::NoRequest => push_word("no-request", out),
            Act::Cancel { number } => push_with_one("cancel", number, out),
            Act::Delete { port, discarded } => {
                push_with_one("delete", port, out)?;
                push_each(discarded.ids(), out)
            }
            Act::Gone { id, port } => push_with_two("gone", id, port, out),
        }
    }
}

/// Appends the fields of the entry as one line, with its LF: an entry within the bounds of a line, as its type keeps it. After an
/// error a part of it may stand there.
pub fn push_entry(entry: &Entry, out: &mut Vec<u8>) -> Result<(), AllocError>
    ensures text { OnOk result (out.new.items ≡ out.old.items ++ entry_text entry.now) }
    ensures within { OnOk result (IsWithin entry.now) }
{
    entry.clock.push(out)?;
    push_field(&entry.place, out)?;
    push_field(&entry.seat, out)?;
    push_field(&entry.act, out)?;
    out.push(b'\n')?;
    Ok(())
}
