//! What an entry teaches of a port.
ghost use Rattle.std.specs.Prelude.{◌≡◌, ◌≤◌, length, reverse, take};
ghost use Rattle.chorus_world.specs.Places.{find_sent, sent, sent_by, sent_to, copies};
ghost use Rattle.place_publish.specs.Lessons.{lesson, lesson_in, lesson_told, newer, port_in};

use chorus_entry::{Act, Answer, Dest, Entry, MsgId};
use chorus_ui::{Layout, Ui};

/// The port is at the place, by that hop.
#[derive(Clone, Copy)]
pub struct Lesson {
    pub ui: Ui,
    pub place: u16,
    pub hop: u64,
}

/// For the lesson of a Told: the member to which the copy of the post goes.
fn copy_in(post: MsgId, group: Ui, members: &[Ui], id: MsgId) -> Option<Ui>
    ensures { result ≡ port_in (find_sent id (copies post group 1 members.now)) }
{
    let _ = group;
    if post.seat != id.seat || post.number != id.number || id.copy == 0 {
        return None;
    }
    match members.get(id.copy as usize - 1) {
        Some(port) => Some(*port),
        None => None,
    }
}

/// For the lesson of a Told: the port to which the destination of the message's post is.
fn dest_in(post: MsgId, dest: &Dest, id: MsgId) -> Option<Ui>
    ensures { result ≡ port_in (find_sent id (sent_to post dest.now)) }
{
    match dest {
        Dest::Port(port) => { if post == id { Some(*port) } else { None } }
        _ => None,
    }
}

/// For the lesson of a Told: the port to which the act sends the message.
fn sent_in(act: &Act, id: MsgId) -> Option<Ui>
    ensures { result ≡ port_in (find_sent id (sent_by act.now)) }
{
    match act {
        Act::Post { message, dest } => dest_in(message.id, dest, id),
        Act::Choose {
            id: post,
            group,
            members,
        } => copy_in(*post, *group, members.uis(), id),
        _ => None,
    }
}

/// For the lesson of a Told: the port to which these entries sent the message.
fn port_of(journal: &[Entry], upto: usize, id: MsgId) -> Option<Ui>
    requires { upto ≤ length journal.now }
    ensures { result ≡ port_in (find_sent id (sent (reverse (take upto journal.now)))) }
{
    let mut index = 0;
    while index < upto {
        let Some(entry) = journal.get(index) else {
            unreachable!()
        };
        if let Some(port) = sent_in(&entry.act, id) {
            return Some(port);
        }
        index += 1;
    }
    None
}

/// What the entry behind the first `upto` teaches of a port that the layout can make.
pub(crate) fn lesson_of(
    layout: Layout,
    entry: &Entry,
    journal: &[Entry],
    upto: usize,
) -> Option<Lesson>
    requires { upto ≤ length journal.now }
    ensures { result ≡ lesson layout (reverse (take upto journal.now)) entry.now }
{
    let lesson = lesson_in(entry, journal, upto)?;
    if lesson.ui.is_port() && layout.can_make_port(lesson.ui) {
        Some(lesson)
    } else {
        None
    }
}

/// What the entry behind the first `upto` teaches of any port.
fn lesson_in(entry: &Entry, journal: &[Entry], upto: usize) -> Option<Lesson>
    requires { upto ≤ length journal.now }
    ensures { result ≡
        lesson_in entry.now.place (reverse (take upto journal.now)) entry.now.act }
{
    match &entry.act {
        Act::Arrive { port, hop } => Some(Lesson {
            ui: *port,
            place: entry.place,
            hop: *hop,
        }),
        Act::Depart {
            port,
            to,
            actor: _,
            hop,
        } => Some(Lesson {
            ui: *port,
            place: *to,
            hop: *hop,
        }),
        Act::Told { id, answer } => told(journal, upto, *id, *answer),
        _ => None,
    }
}

/// The place and the hop that an answer names as newer, where it names one.
fn newer(answer: Answer) -> Option<(u16, u64)>
    ensures { result ≡ newer answer }
{
    match answer {
        Answer::Stale { to, hop } => Some((to, hop)),
        Answer::Elsewhere { to, hop } => Some((to, hop)),
        _ => None,
    }
}

/// What the answer on the message teaches, which the first `upto` entries sent. The message is looked for only where the answer
/// names a newer place.
fn told(journal: &[Entry], upto: usize, id: MsgId, answer: Answer) -> Option<Lesson>
    requires { upto ≤ length journal.now }
    ensures { result ≡
        lesson_told (port_in (find_sent id (sent (reverse (take upto journal.now))))) answer }
{
    let (place, hop) = newer(answer)?;
    let ui = port_of(journal, upto, id)?;
    Some(Lesson { ui, place, hop })
}
