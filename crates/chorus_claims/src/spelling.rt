//! What is asked of a word, by its place in a claim.

ghost use Rattle.std.specs.Prelude.{◌≡◌, is_some};
ghost use Rattle.chorus_ui.specs.NameKind.{is_port, is_actor, is_group};
ghost use Rattle.chorus_ui.specs.Text.{parse_name};
ghost use Rattle.chorus_claims.specs.Places.{is_free, is_open, is_post_act, is_port_act, is_group_act, is_act, is_refusal, is_answer, is_fact, word_fits, is_word, id_in, is_named, spelled, is_spelled, is_small, is_small_id, within, is_within};

use crate::place::{Kind, Place, kind_of, may_end, starts_fact};
use crate::words::{is_any, is_mark, is_rest, letter_in};
use chorus_lines::{BEYOND, cut, number_in};
use chorus_ui::{Ui, is_decimal};

/// A message, as a claim names it. A number of more than 64 bits counts as `BEYOND`.
#[derive(Clone, Copy)]
pub struct Id {
    /// The seat that posted it.
    pub seat: u128,
    /// Its number there.
    pub number: u128,
    /// Its copy.
    pub copy: u128,
}

/// Whether the word is `*` or a letter.
fn is_free(word: &[u8]) -> bool
    ensures { result ≡ is_free word.now }
{
    is_any(word) || letter_in(word).is_some()
}

/// Whether the word of a claim is one that no spelling is asked of: `*`, a letter, `..` or a mark.
pub(crate) fn is_open(word: &[u8]) -> bool
    ensures { result ≡ is_open word.now }
{
    is_free(word) || is_rest(word) || is_mark(word)
}

/// Whether the word is the name of an act that answers what is said of messages and calls.
#[tactic(auto, unfolding(crate::specs::Places::is_post_act))]
fn is_post_act(word: &[u8]) -> bool
    ensures { result ≡ is_post_act word.now }
{
    word == b"post".as_slice()
        || word == b"take".as_slice()
        || word == b"empty".as_slice()
        || word == b"not-here".as_slice()
        || word == b"outstanding".as_slice()
        || word == b"no-call".as_slice()
        || word == b"no-request".as_slice()
        || word == b"cancel".as_slice()
}

/// Whether the word is the name of an act that answers what is done with ports.
#[tactic(auto, unfolding(crate::specs::Places::is_port_act))]
fn is_port_act(word: &[u8]) -> bool
    ensures { result ≡ is_port_act word.now }
{
    word == b"rehome".as_slice()
        || word == b"depart".as_slice()
        || word == b"delete".as_slice()
        || word == b"make".as_slice()
        || word == b"make-full".as_slice()
        || word == b"no-actor".as_slice()
        || word == b"no-site".as_slice()
}

/// Whether the word is the name of an act that answers what is done with groups.
#[tactic(auto, unfolding(crate::specs::Places::is_group_act))]
fn is_group_act(word: &[u8]) -> bool
    ensures { result ≡ is_group_act word.now }
{
    word == b"group".as_slice()
        || word == b"groups-full".as_slice()
        || word == b"join".as_slice()
        || word == b"leave".as_slice()
        || word == b"there".as_slice()
        || word == b"not-there".as_slice()
        || word == b"members-full".as_slice()
        || word == b"no-group".as_slice()
}

/// Whether the word is the name of an act that answers a command.
fn is_act(word: &[u8]) -> bool
    ensures { result ≡ is_act word.now }
{
    is_post_act(word) || is_port_act(word) || is_group_act(word)
}

/// Whether the word is the name of a verdict by which a message is not accepted.
#[tactic(auto, unfolding(crate::specs::Places::is_refusal))]
fn is_refusal(word: &[u8]) -> bool
    ensures { result ≡ is_refusal word.now }
{
    word == b"full".as_slice()
        || word == b"early".as_slice()
        || word == b"no-port".as_slice()
        || word == b"already".as_slice()
        || word == b"clients-full".as_slice()
        || word == b"elsewhere".as_slice()
        || word == b"no-member".as_slice()
        || word == b"gone".as_slice()
}

/// Whether the word is the name of a verdict.
fn is_answer(word: &[u8]) -> bool
    ensures { result ≡ is_answer word.now }
{
    word == b"accepted".as_slice() || word == b"chosen".as_slice() || is_refusal(word)
}

/// Whether a word that is no mark may stand at the place.
fn word_fits(place: Place, word: &[u8]) -> bool
    ensures { result ≡ word_fits place word.now }
{
    match place {
        Place::Start => starts_fact(word),
        Place::Act => is_free(word) || is_rest(word) || is_act(word),
        Place::Answer => is_free(word) || is_rest(word) || is_answer(word),
        Place::Ended => is_rest(word),
        _ => !word.is_empty(),
    }
}

/// Whether the word may stand at the place.
pub(crate) fn is_word(place: Place, word: &[u8]) -> bool
    ensures { result ≡ is_word place word.now }
{
    if is_mark(word) {
        may_end(place)
    } else {
        word_fits(place, word)
    }
}

/// The message that the word of a claim names. None exactly where it is not three decimals with a colon between two.
#[tactic(auto, using(crate::proofs::Cuts::cut_parts))]
pub(crate) fn id_in(word: &[u8]) -> Option<Id>
    ensures { result ≡ id_in word.now }
{
    let (seat, rest) = cut(b':', word);
    let (number, rest) = cut(b':', rest?);
    let (copy, rest) = cut(b':', rest?);
    if rest.is_some() {
        return None;
    }
    Some(Id {
        seat: number_in(seat)?,
        number: number_in(number)?,
        copy: number_in(copy)?,
    })
}

/// Whether the word is spelled as a word of the kind.
fn spelled(kind: Kind, word: &[u8]) -> bool
    ensures { result ≡ spelled kind word.now }
{
    match kind {
        Kind::Script | Kind::Command(_) | Kind::Number => is_decimal(word),
        Kind::Message => id_in(word).is_some(),
        Kind::Port => names_port(Ui::parse(word)),
        Kind::Actor => names_actor(Ui::parse(word)),
        Kind::Group => names_group(Ui::parse(word)),
        Kind::Other => true,
    }
}

/// Whether it is the name of a port.
fn names_port(name: Option<Ui>) -> bool
    ensures { result ≡ is_named is_port name }
{
    match name {
        Some(port) => port.is_port(),
        None => false,
    }
}

/// Whether it is the name of an actor.
fn names_actor(name: Option<Ui>) -> bool
    ensures { result ≡ is_named is_actor name }
{
    match name {
        Some(actor) => actor.is_actor(),
        None => false,
    }
}

/// Whether it is the name of a group.
fn names_group(name: Option<Ui>) -> bool
    ensures { result ≡ is_named is_group name }
{
    match name {
        Some(group) => group.is_group(),
        None => false,
    }
}

/// Whether nothing is spelled wrong at the place.
pub(crate) fn is_spelled(place: Place, word: &[u8]) -> bool
    ensures { result ≡ is_spelled place word.now }
{
    is_open(word) || spelled(kind_of(place), word)
}

/// Whether the number has 64 bits.
fn is_small(number: Option<u128>) -> bool
    ensures { result ≡ is_small number }
{
    match number {
        Some(number) => number < BEYOND,
        None => true,
    }
}

/// Whether the numbers of the message have 64 bits.
fn is_small_id(id: Option<Id>) -> bool
    ensures { result ≡ is_small_id id }
{
    match id {
        Some(id) => id.seat < BEYOND && id.number < BEYOND && id.copy < BEYOND,
        None => true,
    }
}

/// Whether the decimals of a word of the kind have 64 bits.
fn within(kind: Kind, word: &[u8]) -> bool
    ensures { result ≡ within kind word.now }
{
    match kind {
        Kind::Script | Kind::Command(_) | Kind::Number => is_small(number_in(word)),
        Kind::Message => is_small_id(id_in(word)),
        _ => true,
    }
}

/// Whether no decimal at the place has more than 64 bits.
pub(crate) fn is_within(place: Place, word: &[u8]) -> bool
    ensures { result ≡ is_within place word.now }
{
    is_open(word) || within(kind_of(place), word)
}
