//! What stands at each word of a fact.

ghost use Rattle.std.specs.Prelude.{◌≡◌};
ghost use Rattle.chorus_claims.specs.Places.{message_place, port_place, script_place, place_or, first_place, place_behind, fact_behind, is_fact, may_end, kind_of};

use crate::words::{is_mark, is_rest};
use chorus_lines::number_in;

/// What stands at a word of a claim.
#[derive(Clone, Copy)]
pub enum Place {
    /// The first word of a fact, or what follows a mark.
    Start,
    /// `answer`: the number of a script.
    Script,
    /// `answer`: the number of a command, of the script that has this number, or of any script.
    Command(Option<u128>),
    /// `answer`: an act.
    Act,
    /// `verdict`: a message.
    Verdict,
    /// `verdict`: an answer.
    Answer,
    /// `stale`, `open`: a message, and nothing behind it.
    Only,
    /// `copy`: a message.
    Copied,
    /// `copy`: the port that it goes to.
    Member,
    /// `port`: a port.
    Port,
    /// `port`: the actor that holds it.
    Actor,
    /// `accepted`: a port.
    Accepts,
    /// `port`, `accepted`: messages.
    Messages,
    /// `moving`: a port.
    Moving,
    /// `moving`: the actor that it goes to.
    Mover,
    /// `members`: a group.
    Group,
    /// `members`: ports.
    Members,
    /// `next`: the number of a script.
    Goer,
    /// `next`: the number of a command, as above.
    NextCommand(Option<u128>),
    /// `hand`: the number of the script that holds a request.
    Holder,
    /// `outstanding`: the number of a script; `hand`: that of the script that asks.
    Caller,
    /// `outstanding`, `hand`: the number of a call.
    Call,
    /// Any word, which is not tested.
    Untested,
    /// Behind the last word of a fact.
    Ended,
    /// Behind a word that no fact begins with.
    Nowhere,
}

/// What a word of a fact is.
#[derive(Clone, Copy)]
pub enum Kind {
    /// The number of a script.
    Script,
    /// The number of a command, of the script that has this number, or of any script.
    Command(Option<u128>),
    /// A number.
    Number,
    /// A message.
    Message,
    /// A port.
    Port,
    /// An actor.
    Actor,
    /// A group.
    Group,
    /// Something else.
    Other,
}

/// What the first word of a fact about a message says of the word behind it.
#[tactic(auto, unfolding(crate::specs::Places::message_place))]
fn message_place(word: &[u8]) -> Place
    ensures { result ≡ message_place word.now }
{
    if word == b"verdict".as_slice() {
        Place::Verdict
    } else if word == b"stale".as_slice() || word == b"open".as_slice() {
        Place::Only
    } else if word == b"copy".as_slice() {
        Place::Copied
    } else {
        Place::Nowhere
    }
}

/// What the first word of a fact about a port or a group says of the word behind it.
#[tactic(auto, unfolding(crate::specs::Places::port_place))]
fn port_place(word: &[u8]) -> Place
    ensures { result ≡ port_place word.now }
{
    if word == b"port".as_slice() {
        Place::Port
    } else if word == b"accepted".as_slice() {
        Place::Accepts
    } else if word == b"moving".as_slice() {
        Place::Moving
    } else if word == b"members".as_slice() {
        Place::Group
    } else {
        Place::Nowhere
    }
}

/// What the first word of a fact about a script says of the word behind it.
#[tactic(auto, unfolding(crate::specs::Places::script_place))]
fn script_place(word: &[u8]) -> Place
    ensures { result ≡ script_place word.now }
{
    if word == b"answer".as_slice() {
        Place::Script
    } else if word == b"next".as_slice() {
        Place::Goer
    } else if word == b"outstanding".as_slice() {
        Place::Caller
    } else if word == b"hand".as_slice() {
        Place::Holder
    } else {
        Place::Nowhere
    }
}

/// The place itself, or else another.
fn place_or(place: Place, other: Place) -> Place
    ensures { result ≡ place_or place other }
{
    match place {
        Place::Nowhere => other,
        place => place,
    }
}

/// What the first word of a fact says of the word behind it.
fn first_place(word: &[u8]) -> Place
    ensures { result ≡ first_place word.now }
{
    place_or(
        message_place(word),
        place_or(port_place(word), script_place(word)),
    )
}

/// Whether a fact begins with this word.
pub(crate) fn starts_fact(word: &[u8]) -> bool
    ensures { result ≡ is_fact word.now }
{
    !matches!(first_place(word), Place::Nowhere)
}

/// What stands at the word behind this one of a fact.
fn fact_behind(place: Place, word: &[u8]) -> Place
    ensures { result ≡ fact_behind place word.now }
{
    match place {
        Place::Start => first_place(word),
        Place::Script => Place::Command(number_in(word)),
        Place::Command(_) => Place::Act,
        Place::Verdict => Place::Answer,
        Place::Copied => Place::Member,
        Place::Port => Place::Actor,
        Place::Actor | Place::Accepts | Place::Messages => Place::Messages,
        Place::Moving => Place::Mover,
        Place::Group | Place::Members => Place::Members,
        Place::Goer => Place::NextCommand(number_in(word)),
        Place::Holder => Place::Caller,
        Place::Caller => Place::Call,
        Place::Act | Place::Answer | Place::Untested => Place::Untested,
        Place::Only
        | Place::Member
        | Place::Mover
        | Place::NextCommand(_)
        | Place::Call
        | Place::Ended => Place::Ended,
        Place::Nowhere => Place::Nowhere,
    }
}

/// What stands at the word behind this one. A fact starts behind a mark, and what stands behind `..` is not tested.
pub(crate) fn place_behind(place: Place, word: &[u8]) -> Place
    ensures { result ≡ place_behind place word.now }
{
    if is_mark(word) {
        Place::Start
    } else if is_rest(word) && !matches!(place, Place::Start) {
        Place::Untested
    } else {
        fact_behind(place, word)
    }
}

/// Whether a fact may end in front of what stands here.
pub(crate) fn may_end(place: Place) -> bool
    ensures { result ≡ may_end place }
{
    matches!(
        place,
        Place::Messages | Place::Members | Place::Untested | Place::Ended | Place::Nowhere
    )
}

/// What a word is, at its place.
pub(crate) fn kind_of(place: Place) -> Kind
    ensures { result ≡ kind_of place }
{
    match place {
        Place::Script | Place::Goer | Place::Caller | Place::Holder => Kind::Script,
        Place::Command(script) | Place::NextCommand(script) => Kind::Command(script),
        Place::Call => Kind::Number,
        Place::Verdict | Place::Only | Place::Copied | Place::Messages => Kind::Message,
        Place::Port | Place::Accepts | Place::Moving | Place::Member | Place::Members => {
            Kind::Port
        }
        Place::Actor | Place::Mover => Kind::Actor,
        Place::Group => Kind::Group,
        _ => Kind::Other,
    }
}
