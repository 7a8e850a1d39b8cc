//! The parts of an act that have several forms: destinations, tags, answers and bodies.

ghost use Rattle.std.specs.Prelude.{◌≡◌, ◌∷◌, [], ◌<◌, OnOk, IfOk, IfSome, None, Some, MatchOption, MatchResult, length};
ghost use Rattle.chorus_show.specs.Reading.{dest_in, behind_dest, tag_in, behind_tag, answer_in, body_in, unescape, digit_in};
ghost use Rattle.chorus_show.specs.Bounds.{IsDest, IsTag, IsAnswer, AreBytes};
ghost use Rattle.chorus_audit.specs.Calls.{IsLong, IsUnescaped, Reads, short};

use crate::fault::Unread;
use crate::words::Words;
use chorus_entry::{Answer, BODY_LIMIT, Body, Dest, Tag};
use std::alloc::Global;

/// Where a message is posted to, by the words of a printed line.
#[tactic(auto, unfolding(chorus_show::specs::Reading::dest_in))]
pub(crate) fn dest(words: &mut Words<'_>) -> Result<Dest, Unread>
    ensures reads { Reads result (dest_in words.old) }
    ensures left { OnOk result (words.new ≡ behind_dest words.old) }
    ensures allowed { IfOk result IsDest }
{
    let form = words.next();
    if form == b"port".as_slice() {
        Ok(Dest::Port(words.one()?))
    } else if form == b"all".as_slice() {
        Ok(Dest::All(words.one()?))
    } else if form == b"one".as_slice() {
        Ok(Dest::One(words.one()?))
    } else if form == b"at".as_slice() {
        let (group, site) = words.two()?;
        Ok(Dest::OneAt(group, site))
    } else {
        Err(Unread::NoEntry)
    }
}

/// Whether a message is a request, a reply or neither, by the words of a printed line.
#[tactic(auto, unfolding(chorus_show::specs::Reading::tag_in))]
pub(crate) fn tag(words: &mut Words<'_>) -> Result<Tag, Unread>
    ensures reads { Reads result (tag_in words.old) }
    ensures left { OnOk result (words.new ≡ behind_tag words.old) }
    ensures allowed { IfOk result IsTag }
{
    let form = words.next();
    if form == b"plain".as_slice() {
        Ok(Tag::Plain)
    } else if form == b"request".as_slice() {
        let (number, back) = words.two()?;
        Ok(Tag::Request { number, back })
    } else if form == b"reply".as_slice() {
        let (client, number) = words.two()?;
        Ok(Tag::Reply { client, number })
    } else {
        Err(Unread::NoEntry)
    }
}

/// What was decided, by the words of a printed line.
#[tactic(auto, unfolding(chorus_show::specs::Reading::answer_in))]
pub(crate) fn answer(words: &mut Words<'_>) -> Result<Answer, Unread>
    ensures reads { Reads result (answer_in words.old) }
    ensures allowed { IfOk result IsAnswer }
{
    let form = words.next();
    if form == b"accepted".as_slice() {
        Ok(Answer::Accepted { pos: words.one()? })
    } else if form == b"full".as_slice() {
        Ok(Answer::Full { len: words.one()? })
    } else if form == b"stale".as_slice() {
        let (to, hop) = words.two()?;
        Ok(Answer::Stale { to, hop })
    } else if form == b"early".as_slice() {
        Ok(Answer::Early { hop: words.one()? })
    } else if form == b"no-port".as_slice() {
        Ok(Answer::NoPort)
    } else if form == b"already".as_slice() {
        Ok(Answer::Already)
    } else if form == b"clients-full".as_slice() {
        Ok(Answer::ClientsFull)
    } else if form == b"elsewhere".as_slice() {
        let (to, hop) = words.two()?;
        Ok(Answer::Elsewhere { to, hop })
    } else if form == b"no-member".as_slice() {
        Ok(Answer::NoMember)
    } else if form == b"chosen".as_slice() {
        Ok(Answer::Chosen {
            count: words.one()?,
        })
    } else if form == b"gone".as_slice() {
        Ok(Answer::Gone)
    } else {
        Err(Unread::NoEntry)
    }
}

/// The body that the end of a printed line says, whose bytes are read in the room.
#[tactic(auto, using(crate::proofs::Bodies::short_some, crate::proofs::Bodies::short_none))]
pub(crate) fn body(alloc: Global, room: &mut Vec<u8>, text: &[u8]) -> Result<Body, Unread>
    ensures reads { Reads result (short (body_in text.now)) }
    ensures allowed { IfOk result AreBytes }
{
    match text {
        [b'=', escaped @ ..] => {
            unescape(escaped, room)?;
            Ok(Body::new(alloc, room)?)
        }
        _ => Err(Unread::NoEntry),
    }
}

/// Writes the bytes of the escaped text in a printed line over what `bytes` had, where they are few enough for a body.
fn unescape(text: &[u8], bytes: &mut Vec<u8>) -> Result<(), Unread>
    ensures { MatchResult result
        (λ _. IsUnescaped bytes.new.items text.now)
        (λ fault. IsLong fault (unescape None text.now)) }
{
    bytes.clear();
    let mut left = text;
    while let Some((byte, rest)) = next_byte(left) {
        if bytes.len() == BODY_LIMIT {
            return Err(Unread::NoEntry);
        }
        bytes.push(byte)?;
        left = rest;
    }
    Ok(())
}

/// The first byte of an escaped text in a printed line, and the text behind it. None where the text ends, also within an escape.
fn next_byte(text: &[u8]) -> Option<(u8, &[u8])>
    ensures byte { MatchOption result
        (unescape None text.now ≡ [])
        (λ x. unescape None text.now ≡ x.0 ∷ unescape None x.1.now) }
    ensures shorter { IfSome result (λ x. length x.1.now < length text.now) }
    ensures small { IfSome result (λ x. x.0 < 256) }
{
    match text {
        [] => None,
        [b'%', digits @ ..] => escaped_byte(digits),
        [byte, rest @ ..] => Some((*byte, rest)),
    }
}

/// The byte of the two digits of an escape in a printed line, and the text behind them. None where there are fewer.
fn escaped_byte(digits: &[u8]) -> Option<(u8, &[u8])>
    ensures byte { MatchOption result
        (unescape (Some None) digits.now ≡ [])
        (λ x. unescape (Some None) digits.now ≡ x.0 ∷ unescape None x.1.now) }
    ensures shorter { IfSome result (λ x. length x.1.now < length digits.now) }
    ensures small { IfSome result (λ x. x.0 < 256) }
{
    match digits {
        [high, low, rest @ ..] => Some((digit_in(*high) * 16 + digit_in(*low), rest)),
        _ => None,
    }
}

/// The value of a hexadecimal digit in a printed line, and 0 of another byte.
fn digit_in(c: u8) -> u8
    ensures value { result ≡ digit_in c }
    ensures small { result < 16 }
{
    match c {
        b'0'..=b'9' => c - b'0',
        b'a'..=b'f' => c - b'a' + 10,
        _ => 0,
    }
}
