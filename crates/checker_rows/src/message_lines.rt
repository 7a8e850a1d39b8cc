//! Messages in order: what was sent from a place to a port by one route, and what was posted at a place to a group.
//!
//! A line may keep messages that have met their end; it is read for the first one that is open. The first ones are taken
//! out as they end, so that the first is the one that is looked for.

ghost use Rattle.std.specs.Prelude.{◌≡◌, ◌≤◌, Some, length, find, OnOk, OnErr};
ghost use Rattle.chorus_ui.specs.declared.limits.TheConstants.{MEMBERS_LIMIT};
ghost use Rattle.chorus_world.specs.Places.{copies, sent_by};
ghost use Rattle.checker_rows.specs.Lines.{line_in, is_open, AreSame, IsLonger, IsShorter, ArePut, AreTakenBack, OpensSame, OthersStay};

use crate::keys::LineKey;
use crate::messages::MessageRow;
use crate::sending::copy_of;
use chorus_entry::{Act, Dest, Entry, MsgId};
use chorus_ui::Ui;
use std::alloc::{AllocError, Global};
use std::collections::{HashMap, VecDeque};

/// What ends the stay of a message in a line.
#[derive(Clone, Copy)]
pub enum End {
    /// It is settled where it was sent from.
    Settled,
    /// It has its choice of members.
    Chosen,
}

/// Whether the message is still open in a line: it has not met this end.
fn is_open(messages: &HashMap<MsgId, MessageRow>, end: End, id: MsgId) -> bool
    ensures { result ≡ is_open messages.now end id }
{
    match messages.get(&id) {
        Some(row) => match end {
            End::Settled => !row.settled,
            End::Chosen => !row.chosen,
        },
        None => true,
    }
}

/// Puts the id last in its line. An error leaves the lines as they were.
pub fn push(
    lines: &mut HashMap<LineKey, VecDeque<MsgId>>,
    alloc: Global,
    key: LineKey,
    id: MsgId,
) -> Result<(), AllocError>
    ensures ok { OnOk result (IsLonger key id (line_in lines.old) (line_in lines.new)) }
    ensures err { OnErr result (AreSame (line_in lines.old) (line_in lines.new)) }
{
    if let Some(line) = lines.get_mut(&key) {
        line.push_back(id)?;
        return Ok(());
    }
    let mut line = VecDeque::with_capacity(alloc, 1)?;
    line.push_back_reserved(id);
    lines.insert(key, line)?;
    Ok(())
}

/// Takes the last message out of the line of this key.
fn take_last(lines: &mut HashMap<LineKey, VecDeque<MsgId>>, key: &LineKey)
    ensures { IsShorter key.now (line_in lines.old) (line_in lines.new) }
{
    if let Some(line) = lines.get_mut(key) {
        let _ = line.pop_back();
    }
}

/// The line of a copy to this member.
fn copy_line(place: u16, group: Ui, member: Ui) -> LineKey
    ensures { result ≡ record { place = place; name = member; route = Some group } }
{
    LineKey {
        place,
        name: member,
        route: Some(group),
    }
}

/// Takes back what was put last for the copies of a post to these members.
fn take_back(
    lines: &mut HashMap<LineKey, VecDeque<MsgId>>,
    place: u16,
    post: MsgId,
    group: Ui,
    members: &[Ui],
)
    ensures { AreTakenBack place (copies post group 1 members.now)
        (line_in lines.old) (line_in lines.new) }
{
    // The post is for the contract alone.
    let mut left = members.len();
    while left > 0 {
        left -= 1;
        take_last(lines, &copy_line(place, group, members[left]));
    }
}

/// Puts the copies of a post to these members last in their lines. An error leaves the lines as they were.
fn push_copies(
    lines: &mut HashMap<LineKey, VecDeque<MsgId>>,
    alloc: Global,
    place: u16,
    post: MsgId,
    group: Ui,
    members: &[Ui],
) -> Result<(), AllocError>
    requires { length members.now ≤ MEMBERS_LIMIT }
    ensures ok { OnOk result
        (ArePut place (copies post group 1 members.now) (line_in lines.old) (line_in lines.new)) }
    ensures err { OnErr result (AreSame (line_in lines.old) (line_in lines.new)) }
{
    for (i, member) in members.iter().enumerate() {
        let pushed = push(
            lines,
            alloc,
            copy_line(place, group, *member),
            copy_of(post, i),
        );
        if pushed.is_err() {
            take_back(lines, place, post, group, &members[..i]);
            return pushed;
        }
    }
    Ok(())
}

/// Puts what the entry sends last in its lines. An error leaves the lines as they were.
pub fn follow_lines(
    lines: &mut HashMap<LineKey, VecDeque<MsgId>>,
    alloc: Global,
    entry: &Entry,
) -> Result<(), AllocError>
    ensures ok { OnOk result
        (ArePut entry.now.place (sent_by entry.now.act) (line_in lines.old) (line_in lines.new)) }
    ensures err { OnErr result (AreSame (line_in lines.old) (line_in lines.new)) }
{
    match &entry.act {
        Act::Post {
            message,
            dest: Dest::Port(port),
        } => push(
            lines,
            alloc,
            LineKey {
                place: entry.place,
                name: *port,
                route: None,
            },
            message.id,
        ),
        Act::Choose { id, group, members } => {
            push_copies(lines, alloc, entry.place, *id, *group, members.uis())
        }
        _ => Ok(()),
    }
}

/// The first message in the line that is open.
pub fn first_open(
    lines: &HashMap<LineKey, VecDeque<MsgId>>,
    messages: &HashMap<MsgId, MessageRow>,
    key: &LineKey,
    end: End,
) -> Option<MsgId>
    ensures { result ≡ find (is_open messages.now end) (line_in lines.now key.now) }
{
    match lines.get(key) {
        Some(line) => first_of(line, messages, end),
        None => None,
    }
}

/// The first message of this line that is open.
fn first_of(
    line: &VecDeque<MsgId>,
    messages: &HashMap<MsgId, MessageRow>,
    end: End,
) -> Option<MsgId>
    ensures { result ≡ find (is_open messages.now end) line.now.items }
{
    for i in 0..line.len() {
        if let Some(id) = line.get(i) {
            if is_open(messages, end, *id) {
                return Some(*id);
            }
        }
    }
    None
}

/// Takes the first messages out of this line that are not open.
fn shorten(line: &mut VecDeque<MsgId>, messages: &HashMap<MsgId, MessageRow>, end: End)
    ensures { OpensSame (is_open messages.now end) line.old.items line.new.items }
{
    while let Some(id) = line.front() {
        if is_open(messages, end, *id) {
            return;
        }
        let _ = line.pop_front();
    }
}

/// Takes the first messages out of the line of this key that are not open.
pub fn shorten_line(
    lines: &mut HashMap<LineKey, VecDeque<MsgId>>,
    messages: &HashMap<MsgId, MessageRow>,
    key: &LineKey,
    end: End,
)
    ensures at_key { OpensSame (is_open messages.now end)
        (line_in lines.old key.now) (line_in lines.new key.now) }
    ensures others { OthersStay key.now (line_in lines.old) (line_in lines.new) }
{
    if let Some(line) = lines.get_mut(key) {
        shorten(line, messages, end);
    }
}
