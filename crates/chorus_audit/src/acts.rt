//! Acts, as their lines say them.

ghost use Rattle.std.specs.Prelude.{IfOk};
ghost use Rattle.chorus_show.specs.Bounds.{IsAct};
ghost use Rattle.chorus_show.specs.Reading.{act_in, act_of, decision_of, news_of, port_of, group_of, call_of, post_in, choose_in, delete_in};
ghost use Rattle.chorus_audit.specs.Calls.{Reads, held};

use crate::fault::Unread;
use crate::parts::{answer, body, dest, tag};
use crate::words::Words;
use chorus_entry::{Act, Ids, MEMBERS_LIMIT, Members, Message};
use std::alloc::Global;

/// The act that the words of a printed line say, the first of them being the word of its kind. A body is read in the room, which
/// is used again.
pub(crate) fn act(alloc: Global, room: &mut Vec<u8>, words: &mut Words<'_>) -> Result<Act, Unread>
    ensures reads { Reads result (held (act_in words.old)) }
    ensures allowed { IfOk result IsAct }
{
    let kind = words.next();
    made(alloc, room, kind, words)
}

/// The act of a printed line of this kind: what a command makes, or one of a later kind.
#[tactic(auto, unfolding(chorus_show::specs::Reading::act_of))]
fn made(
    alloc: Global,
    room: &mut Vec<u8>,
    kind: &[u8],
    words: &mut Words<'_>,
) -> Result<Act, Unread>
    ensures reads { Reads result (held (act_of kind.now words.old)) }
    ensures allowed { IfOk result IsAct }
{
    if kind == b"make".as_slice() {
        let (port, actor, capacity) = words.three()?;
        Ok(Act::Make {
            port,
            actor,
            capacity,
        })
    } else if kind == b"make-full".as_slice() {
        Ok(Act::MakeFull {
            actor: words.one()?,
        })
    } else if kind == b"no-actor".as_slice() {
        Ok(Act::NoActor {
            actor: words.one()?,
        })
    } else if kind == b"no-site".as_slice() {
        Ok(Act::NoSite { site: words.one()? })
    } else if kind == b"post".as_slice() {
        post(alloc, room, words)
    } else {
        decision(alloc, kind, words)
    }
}

/// The act of a printed line of this kind: how a message is decided, or one of a later kind.
#[tactic(auto, unfolding(chorus_show::specs::Reading::decision_of))]
fn decision(alloc: Global, kind: &[u8], words: &mut Words<'_>) -> Result<Act, Unread>
    ensures reads { Reads result (held (decision_of kind.now words.old)) }
    ensures allowed { IfOk result IsAct }
{
    if kind == b"accept".as_slice() {
        let (id, port, pos) = words.three()?;
        Ok(Act::Accept { id, port, pos })
    } else if kind == b"full".as_slice() {
        let (id, port, len) = words.three()?;
        Ok(Act::Full { id, port, len })
    } else if kind == b"already".as_slice() {
        let (id, port) = words.two()?;
        Ok(Act::Already { id, port })
    } else if kind == b"clients-full".as_slice() {
        let (id, port) = words.two()?;
        Ok(Act::ClientsFull { id, port })
    } else if kind == b"stale".as_slice() {
        let (id, port, tried, to) = words.four()?;
        let hop = words.one()?;
        Ok(Act::Stale {
            id,
            port,
            tried,
            to,
            hop,
        })
    } else if kind == b"early".as_slice() {
        let (id, port, hop) = words.three()?;
        Ok(Act::Early { id, port, hop })
    } else if kind == b"no-port".as_slice() {
        let (id, port) = words.two()?;
        Ok(Act::NoPort { id, port })
    } else if kind == b"elsewhere".as_slice() {
        let (id, port, to, hop) = words.four()?;
        Ok(Act::Elsewhere { id, port, to, hop })
    } else if kind == b"no-member".as_slice() {
        let (id, group) = words.two()?;
        Ok(Act::NoMember { id, group })
    } else if kind == b"gone".as_slice() {
        let (id, port) = words.two()?;
        Ok(Act::Gone { id, port })
    } else {
        news(alloc, kind, words)
    }
}

/// The act of a printed line of this kind: the choice of members and what another place says, or one of a later kind.
#[tactic(auto, unfolding(chorus_show::specs::Reading::news_of))]
fn news(alloc: Global, kind: &[u8], words: &mut Words<'_>) -> Result<Act, Unread>
    ensures reads { Reads result (held (news_of kind.now words.old)) }
    ensures allowed { IfOk result IsAct }
{
    if kind == b"choose".as_slice() {
        choose(alloc, words)
    } else if kind == b"try".as_slice() {
        let (id, port, to, hop) = words.four()?;
        Ok(Act::Try { id, port, to, hop })
    } else if kind == b"told".as_slice() {
        let id = words.one()?;
        Ok(Act::Told {
            id,
            answer: answer(words)?,
        })
    } else if kind == b"heard".as_slice() {
        let id = words.one()?;
        Ok(Act::Heard {
            id,
            answer: answer(words)?,
        })
    } else {
        port_act(alloc, kind, words)
    }
}

/// The act of a printed line of this kind: what a port and what is received from it come to, or one of a later kind.
#[tactic(auto, unfolding(chorus_show::specs::Reading::port_of))]
fn port_act(alloc: Global, kind: &[u8], words: &mut Words<'_>) -> Result<Act, Unread>
    ensures reads { Reads result (held (port_of kind.now words.old)) }
    ensures allowed { IfOk result IsAct }
{
    if kind == b"take".as_slice() {
        let (port, pos, id) = words.three()?;
        Ok(Act::Take { port, pos, id })
    } else if kind == b"done".as_slice() {
        Ok(Act::Done {
            number: words.one()?,
        })
    } else if kind == b"late".as_slice() {
        Ok(Act::Late {
            number: words.one()?,
        })
    } else if kind == b"empty".as_slice() {
        Ok(Act::Empty { port: words.one()? })
    } else if kind == b"not-here".as_slice() {
        Ok(Act::NotHere { port: words.one()? })
    } else if kind == b"rehome".as_slice() {
        let (port, actor) = words.two()?;
        Ok(Act::Rehome { port, actor })
    } else if kind == b"depart".as_slice() {
        let (port, to, actor, hop) = words.four()?;
        Ok(Act::Depart {
            port,
            to,
            actor,
            hop,
        })
    } else if kind == b"arrive".as_slice() {
        let (port, hop) = words.two()?;
        Ok(Act::Arrive { port, hop })
    } else if kind == b"delete".as_slice() {
        delete(alloc, words)
    } else {
        group_act(kind, words)
    }
}

/// The act of a printed line of this kind: what happens to a group, or one of a later kind.
#[tactic(auto, unfolding(chorus_show::specs::Reading::group_of))]
fn group_act(kind: &[u8], words: &mut Words<'_>) -> Result<Act, Unread>
    ensures reads { Reads result (held (group_of kind.now words.old)) }
    ensures allowed { IfOk result IsAct }
{
    if kind == b"group".as_slice() {
        Ok(Act::GroupMake {
            group: words.one()?,
        })
    } else if kind == b"groups-full".as_slice() {
        Ok(Act::GroupsFull { site: words.one()? })
    } else if kind == b"join".as_slice() {
        let (group, port) = words.two()?;
        Ok(Act::Join { group, port })
    } else if kind == b"leave".as_slice() {
        let (group, port) = words.two()?;
        Ok(Act::Leave { group, port })
    } else if kind == b"no-group".as_slice() {
        Ok(Act::NoGroup {
            group: words.one()?,
        })
    } else if kind == b"there".as_slice() {
        let (group, port) = words.two()?;
        Ok(Act::There { group, port })
    } else if kind == b"not-there".as_slice() {
        let (group, port) = words.two()?;
        Ok(Act::NotThere { group, port })
    } else if kind == b"members-full".as_slice() {
        Ok(Act::MembersFull {
            group: words.one()?,
        })
    } else {
        call_act(kind, words)
    }
}

/// The act of a printed line of this kind: what becomes of a call.
#[tactic(auto, unfolding(chorus_show::specs::Reading::call_of))]
fn call_act(kind: &[u8], words: &mut Words<'_>) -> Result<Act, Unread>
    ensures reads { Reads result (held (call_of kind.now words.old)) }
    ensures allowed { IfOk result IsAct }
{
    if kind == b"outstanding".as_slice() {
        Ok(Act::Outstanding {
            number: words.one()?,
        })
    } else if kind == b"no-call".as_slice() {
        Ok(Act::NoCall)
    } else if kind == b"no-request".as_slice() {
        Ok(Act::NoRequest)
    } else if kind == b"cancel".as_slice() {
        Ok(Act::Cancel {
            number: words.one()?,
        })
    } else {
        Err(Unread::NoEntry)
    }
}

/// Reads the words of a `post` in a printed journal: id, destination, tag, and the escaped body at the end.
fn post(alloc: Global, room: &mut Vec<u8>, words: &mut Words<'_>) -> Result<Act, Unread>
    ensures reads { Reads result (held (post_in words.old)) }
    ensures allowed { IfOk result IsAct }
{
    let id = words.one()?;
    let dest = dest(words)?;
    let tag = tag(words)?;
    let body = body(alloc, room, words.text())?;
    let message = Message { id, tag, body };
    Ok(Act::Post { message, dest })
}

/// Reads the words of a `choose` in a printed journal; more members than a group may have are no entry.
fn choose(alloc: Global, words: &mut Words<'_>) -> Result<Act, Unread>
    ensures reads { Reads result (held (choose_in words.old)) }
    ensures allowed { IfOk result IsAct }
{
    let (id, group) = words.two()?;
    let uis = words.each(alloc)?;
    if uis.len() > MEMBERS_LIMIT {
        return Err(Unread::NoEntry);
    }
    let members = Members::of(alloc, &uis)?;
    Ok(Act::Choose { id, group, members })
}

/// Reads the words of a `delete` in a printed journal: the port, and the ids of the messages discarded with it.
fn delete(alloc: Global, words: &mut Words<'_>) -> Result<Act, Unread>
    ensures reads { Reads result (held (delete_in words.old)) }
    ensures allowed { IfOk result IsAct }
{
    let port = words.one()?;
    let ids = words.each(alloc)?;
    let discarded = Ids::of(alloc, &ids)?;
    Ok(Act::Delete { port, discarded })
}
