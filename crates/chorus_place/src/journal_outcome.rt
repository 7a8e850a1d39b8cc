//! What became of a message, as the journal of the place where it was posted tells; `specs/Outcomes.antt` has the parts that one pass
//! over it reads.

ghost use Rattle.std.specs.Prelude.{◌≡◌, reverse, Some};
ghost use Rattle.chorus_entry.specs.Act.{message_of};
ghost use Rattle.chorus_entry.specs.MsgId.{same_id};
ghost use Rattle.chorus_entry.specs.Same.{are_same};
ghost use Rattle.chorus_world.specs.Posts.{source, post_of};
ghost use Rattle.law_machine.specs.Outcomes.{said_of, answer_by, answer_for, became, outcome};
ghost use Rattle.chorus_place.specs.Outcomes.{goes_to, dest_by, copies_by, outcome_by};

use chorus_entry::{Act, Answer, Dest, Entry, MsgId};
use law_machine::Outcome;

/// What the journal says of a message: where its post goes, the answer of the post, and that of the message.
#[derive(Clone, Copy)]
struct Said {
    dest: Option<Dest>,
    post: Option<Answer>,
    own: Option<Answer>,
}

/// The post of which the message is a copy, or the message itself, to tell what became of it.
fn source(id: MsgId) -> MsgId
    ensures { result ≡ source id }
{
    MsgId {
        seat: id.seat,
        number: id.number,
        copy: 0,
    }
}

/// What an entry of the journal tells of a message: where the post of this id goes, where the entry makes it.
fn dest_by(entry: &Entry, id: MsgId) -> Option<Dest>
    ensures { result ≡ dest_by id entry.now }
{
    if entry.seat != id.seat {
        return None;
    }
    match &entry.act {
        Act::Post { message, dest } if message.id == id => Some(*dest),
        _ => None,
    }
}

/// The answer that the act gives for its message, by which it tells what became of it.
fn said_of(act: &Act) -> Option<Answer>
    ensures { result ≡ said_of act.now }
{
    match act {
        Act::Told { answer, .. } => {
            if answer.is_final() {
                Some(*answer)
            } else {
                None
            }
        }
        Act::Heard { answer, .. } => Some(*answer),
        Act::Choose { .. } => act.answer(),
        _ => { if act.is_verdict() { act.answer() } else { None } }
    }
}

/// Whether the act is about the message whose outcome is told.
fn is_about(act: &Act, id: MsgId) -> bool
    ensures { result ≡ are_same same_id (Some id) (message_of act.now) }
{
    match act.message() {
        Some(other) => id == other,
        None => false,
    }
}

/// The answer that the act gives for this message, by which it tells what became of it.
fn answer_by(act: &Act, id: MsgId) -> Option<Answer>
    ensures { result ≡ answer_by id act.now }
{
    if is_about(act, id) {
        said_of(act)
    } else {
        None
    }
}

/// What the entries of a journal say of the message: the parts of its outcome.
fn read(entries: &[Entry], id: MsgId) -> Said
    ensures dest { result.dest ≡ goes_to (post_of id (reverse entries.now)) }
    ensures post { result.post ≡ answer_for (source id) (reverse entries.now) }
    ensures own { result.own ≡ answer_for id (reverse entries.now) }
{
    let post_id = source(id);
    let mut dest = None;
    let mut post = None;
    let mut own = None;
    for entry in entries.iter() {
        dest = dest.or(dest_by(entry, post_id));
        post = post.or(answer_by(&entry.act, post_id));
        own = own.or(answer_by(&entry.act, id));
    }
    Said { dest, post, own }
}

/// How many copies a post with this destination has, by its answer in the journal.
fn copies(dest: Dest, answer: Option<Answer>) -> u16
    ensures { result ≡ copies_by dest answer }
{
    match (dest, answer) {
        (Dest::Port(_), _) => 0,
        (_, Some(Answer::Chosen { count })) => count,
        _ => 0,
    }
}

/// The outcome of a message that is known, by its answer.
fn became(answer: Option<Answer>) -> Outcome
    ensures { result ≡ became answer }
{
    match answer {
        Some(answer) => Outcome::Answer(answer),
        None => Outcome::Pending,
    }
}

/// What became of the message, by what the journal says of it.
fn outcome_by(id: MsgId, said: Said) -> Outcome
    ensures { result ≡ outcome_by id said.dest said.post said.own }
{
    let Said { dest, post, own } = said;
    let Some(dest) = dest else {
        return Outcome::Unknown;
    };
    if id.copy <= copies(dest, post) {
        became(own)
    } else {
        Outcome::Unknown
    }
}

/// What became of the message, by the entries of the place where it was posted. It reads them once, and takes no memory.
pub(crate) fn outcome_in(entries: &[Entry], id: MsgId) -> Outcome
    ensures { result ≡ outcome id (reverse entries.now) }
{
    outcome_by(id, read(entries, id))
}
