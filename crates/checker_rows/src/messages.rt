//! What is known of each message: a row of the table of messages.
//!
//! One place sends a message, so that what that place knows of it stands in its row: how it was sent, whether it is settled
//! there, and whether a try of it stands there. That no other place sends it is a law of legal entries.

ghost use Rattle.std.specs.Prelude.{◌≡◌, ◌<◌, ◌≤◌, ◌+◌, Some, true, cond, length};
ghost use Rattle.std.specs.HashMap.{get, spare};
ghost use Rattle.chorus_ui.specs.declared.limits.TheConstants.{MEMBERS_LIMIT};
ghost use Rattle.chorus_entry.specs.MsgId.{same_id};
ghost use Rattle.chorus_entry.specs.declared.id.MsgId.{MsgId};
ghost use Rattle.chorus_world.specs.Messages.{verdict_by};
ghost use Rattle.chorus_world.specs.Places.{copies, is_settling, tried_after};
ghost use Rattle.chorus_world.specs.Views.{is_about};
ghost use Rattle.checker_rows.specs.Messages.{message_in, sent_in, settled_after, away_after, chosen_after, about_after, is_choosing, with_sending, AboutAfter, IsAdded, AreAdded, CopiesAfter, MessagesAfter};

use crate::posting::{Posting, posted_under};
use crate::progress::progress_after;
use crate::sending::{Sending, copy_of, is_from, posts_as, sent_from};
use chorus_entry::{Act, Answer, Entry, MsgId};
use chorus_ui::Ui;
use chorus_world::{Progress, Sent};
use std::collections::HashMap;

/// What the entries say of a message.
#[derive(Clone, Copy)]
pub struct MessageRow {
    /// How far it is on its way.
    pub progress: Progress,
    /// The answer of its first verdict.
    pub verdict: Option<Answer>,
    /// The first post under this very id.
    pub post: Option<Posting>,
    /// How it was sent first.
    pub sent: Option<Sending>,
    /// Whether the place that sent it has settled it since.
    pub settled: bool,
    /// Whether a try stands there that was not told yet.
    pub tried: bool,
    /// Whether it has its choice of members, or has none.
    pub chosen: bool,
}

/// The row of a message.
fn message_in(messages: &HashMap<MsgId, MessageRow>, id: MsgId) -> MessageRow
    ensures { result ≡ message_in messages.now id }
{
    match messages.get(&id) {
        Some(row) => *row,
        None => MessageRow {
            progress: Progress::Idle,
            verdict: None,
            post: None,
            sent: None,
            settled: false,
            tried: false,
            chosen: false,
        },
    }
}

/// How far the message is on its way, by its row.
pub fn progress_in(messages: &HashMap<MsgId, MessageRow>, id: MsgId) -> Progress
    ensures { result ≡ (message_in messages.now id).progress }
{
    match messages.get(&id) {
        Some(row) => row.progress,
        None => Progress::Idle,
    }
}

/// The answer of the message's first verdict, by its row.
pub fn verdict_in(messages: &HashMap<MsgId, MessageRow>, id: MsgId) -> Option<Answer>
    ensures { result ≡ (message_in messages.now id).verdict }
{
    match messages.get(&id) {
        Some(row) => row.verdict,
        None => None,
    }
}

/// The first post under this very id, by the row of the message.
pub fn post_in(messages: &HashMap<MsgId, MessageRow>, id: MsgId) -> Option<Posting>
    ensures { result ≡ (message_in messages.now id).post }
{
    match messages.get(&id) {
        Some(row) => row.post,
        None => None,
    }
}

/// Whether a try of the message stands at the place that sent it, and was not told yet, by its row.
pub fn is_tried_in(messages: &HashMap<MsgId, MessageRow>, id: MsgId) -> bool
    ensures { result ≡ (message_in messages.now id).tried }
{
    match messages.get(&id) {
        Some(row) => row.tried,
        None => false,
    }
}

/// The message as the place sent it, where it did, by its row.
pub fn sent_in(messages: &HashMap<MsgId, MessageRow>, place: u16, id: MsgId) -> Option<Sent>
    ensures { result ≡ sent_in messages.now place id }
{
    match messages.get(&id) {
        Some(row) => sent_from(place, id, &row.sent),
        None => None,
    }
}

/// Whether the entry is about the message of a row.
fn is_about(entry: &Entry, id: MsgId) -> bool
    ensures { result ≡ is_about (Some id) entry.now }
{
    match entry.act.message() {
        Some(named) => id == named,
        None => false,
    }
}

/// The answer of the entry for the row of the message, where it is a verdict of it.
fn verdict_by(entry: &Entry, id: MsgId) -> Option<Answer>
    ensures { result ≡ verdict_by id entry.now.act }
{
    if entry.act.is_verdict() && is_about(entry, id) {
        entry.act.answer()
    } else {
        None
    }
}

/// Whether the act settles its message in the message's row: it is a verdict, or tells one.
fn is_settling(act: &Act) -> bool
    ensures { result ≡ is_settling act.now }
{
    match act {
        Act::Told { answer, .. } => !matches!(answer, Answer::Stale { .. }),
        _ => act.is_verdict(),
    }
}

/// Whether the row of the message says after an act at the place that sent it that a try stands there, not told yet.
fn tried_after(act: &Act, id: MsgId, tried: bool) -> bool
    ensures { result ≡ tried_after id act.now tried }
{
    match act {
        Act::Try { id: named, .. } => *named == id || tried,
        Act::Told { id: named, .. } => *named != id && tried,
        _ => tried,
    }
}

/// Whether the act is a choice of members for the message of a row, or finds none.
fn is_choosing(act: &Act) -> bool
    ensures { result ≡ is_choosing act.now }
{
    matches!(act, Act::Choose { .. } | Act::NoMember { .. })
}

/// Whether the message of the entry is settled where it was sent from, after the entry.
fn settled_after(entry: &Entry, id: MsgId, row: &MessageRow) -> bool
    requires { is_about (Some id) entry.now ≡ true }
    ensures { result ≡ settled_after id entry.now row.now }
{
    is_from(entry.place, &row.sent) && is_settling(&entry.act) || row.settled
}

/// Whether a try of the message stands where it was sent from, after the entry.
fn away_after(entry: &Entry, id: MsgId, row: &MessageRow) -> bool
    ensures { result ≡ away_after id entry.now row.now }
{
    if is_from(entry.place, &row.sent) {
        tried_after(&entry.act, id, row.tried)
    } else {
        row.tried
    }
}

/// Whether the message of the entry has its choice of members, after the entry.
fn chosen_after(entry: &Entry, id: MsgId, row: &MessageRow) -> bool
    requires { is_about (Some id) entry.now ≡ true }
    ensures { result ≡ chosen_after id entry.now row.now }
{
    // The id is for the contract alone.
    is_choosing(&entry.act) || row.chosen
}

/// The row of the entry's message after the entry.
fn about_after(entry: &Entry, id: MsgId, row: &MessageRow) -> MessageRow
    requires { is_about (Some id) entry.now ≡ true }
    ensures { result ≡ about_after id entry.now row.now }
{
    MessageRow {
        progress: progress_after(entry.place, &entry.act, row.progress),
        verdict: row.verdict.or(verdict_by(entry, id)),
        post: row.post.or(posted_under(entry, id)),
        sent: row.sent.or(posts_as(id, entry.place, &entry.act)),
        settled: settled_after(entry, id, row),
        tried: away_after(entry, id, row),
        chosen: chosen_after(entry, id, row),
    }
}

/// Puts the row of a message.
fn put_message(messages: &mut HashMap<MsgId, MessageRow>, id: MsgId, row: MessageRow)
    requires { 0 < spare messages.old }
    ensures rows { (q : MsgId) →
        get same_id messages.new q ≡ cond (same_id id q) (Some row) (get same_id messages.old q) }
    ensures room { spare messages.old ≤ spare messages.new + 1 }
{
    if let Some(place) = messages.get_mut(&id) {
        *place = row;
        return;
    }
    let _ = messages.insert(id, row);
}

/// The messages after the entry, but for the copies of a choice.
fn follow_about(messages: &mut HashMap<MsgId, MessageRow>, entry: &Entry)
    requires { 0 < spare messages.old }
    ensures rows { AboutAfter entry.now (message_in messages.old) (message_in messages.new) }
    ensures room { spare messages.old ≤ spare messages.new + 1 }
{
    if let Some(id) = entry.act.message() {
        let row = message_in(messages, id);
        put_message(messages, id, about_after(entry, id, &row));
    }
}

/// The row of a message with what was sent, where it has nothing sent.
fn with_sending(sending: Sending, row: &MessageRow) -> MessageRow
    ensures { result ≡ with_sending (Some sending) row.now }
{
    MessageRow {
        progress: row.progress,
        verdict: row.verdict,
        post: row.post,
        sent: row.sent.or(Some(sending)),
        settled: row.settled,
        tried: row.tried,
        chosen: row.chosen,
    }
}

/// Puts what was sent into the row of a message, where it has nothing sent.
fn add_sending(messages: &mut HashMap<MsgId, MessageRow>, id: MsgId, sending: Sending)
    requires { 0 < spare messages.old }
    ensures rows { IsAdded id sending (message_in messages.old) (message_in messages.new) }
    ensures room { spare messages.old ≤ spare messages.new + 1 }
{
    let row = message_in(messages, id);
    put_message(messages, id, with_sending(sending, &row));
}

/// Puts the copies of a post, which the place sends to these members, into their rows.
fn add_copies(
    messages: &mut HashMap<MsgId, MessageRow>,
    place: u16,
    post: MsgId,
    group: Ui,
    members: &[Ui],
)
    requires room { MEMBERS_LIMIT ≤ spare messages.old }
    requires few { length members.now ≤ MEMBERS_LIMIT }
    ensures { AreAdded place (copies post group 1 members.now)
        (message_in messages.old) (message_in messages.new) }
{
    for (i, member) in members.iter().enumerate() {
        let sending = Sending {
            place,
            port: *member,
            route: Some(group),
        };
        add_sending(messages, copy_of(post, i), sending);
    }
}

/// The messages after the entry, as far as it makes copies.
fn follow_copies(messages: &mut HashMap<MsgId, MessageRow>, entry: &Entry)
    requires { MEMBERS_LIMIT ≤ spare messages.old }
    ensures { CopiesAfter entry.now (message_in messages.old) (message_in messages.new) }
{
    if let Act::Choose { id, group, members } = &entry.act {
        add_copies(messages, entry.place, *id, *group, members.uis());
    }
}

/// The messages after the entry.
pub fn follow_messages(messages: &mut HashMap<MsgId, MessageRow>, entry: &Entry)
    requires { MEMBERS_LIMIT < spare messages.old }
    ensures { MessagesAfter entry.now (message_in messages.old) (message_in messages.new) }
{
    follow_about(messages, entry);
    follow_copies(messages, entry);
}
