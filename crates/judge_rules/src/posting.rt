//! The conditions of posts, and of the end of a call.

ghost use Rattle.std.specs.Prelude.{◌≡◌, ◌∷◌, is_some};
ghost use Rattle.chorus_entry.specs.declared.act.Act.TheVariants as Act;
ghost use Rattle.chorus_world.specs.Places.{just_taken};
ghost use Rattle.chorus_world.specs.Seats.{call_in};
ghost use Rattle.chorus_world.specs.Steps.{is_taken_by};
ghost use Rattle.chorus_world.specs.Views.{at};
ghost use Rattle.judge_rules.specs.Conditions.{conditions, first_failing, tagging, that_stays};

use crate::about::About;
use crate::failing::{Failed, fails_at};
use checker_ledger::Ledger;
use chorus_entry::{Dest, Message, Tag};

/// Whether the post, of which a condition is judged, is a request to a port of this number.
fn is_call(number: u32, message: &Message, dest: &Dest) -> bool
    ensures { result ≡ is_some (call_in number message.now.tag dest.now message.now.body) }
{
    match (&message.tag, dest) {
        (Tag::Request { number: named, .. }, Dest::Port(_)) => *named == number,
        _ => false,
    }
}

/// Whether the caller just took a reply of this number at the place, by which a condition is judged.
fn is_taken_by(ledger: &Ledger, place: u16, seat: u32, number: u32) -> bool
    ensures { result ≡ is_taken_by seat number
        (just_taken ledger.now.past (at place ledger.now.past)) }
{
    match ledger.just_taken(place) {
        Some(reply) => reply.taker == seat && reply.number == number,
        None => false,
    }
}

/// The first condition that fails of those that the caller may post the message.
pub(crate) fn post_failed(
    ledger: &Ledger,
    place: u16,
    seat: u32,
    message: &Message,
    dest: &Dest,
) -> Failed
    ensures { result ≡ first_failing 2
        (conditions ledger.now.layout ledger.now.past place seat (Act.Post message.now dest.now)) }
{
    if message.id.seat != seat {
        return fails_at(2, About::Nothing);
    }
    if message.id.number == 0 || u64::from(message.id.number) - 1 != ledger.posts(seat) {
        return fails_at(3, About::Posts { seat });
    }
    if message.id.copy != 0 {
        return fails_at(4, About::Nothing);
    }
    tag_failed(ledger, place, seat, message, dest)
}

/// The first condition that fails of those behind the third, of which the last is about the tag.
fn tag_failed(ledger: &Ledger, place: u16, seat: u32, message: &Message, dest: &Dest) -> Failed
    ensures { result ≡ first_failing 5 (that_stays ledger.now.past place seat
        ∷ tagging ledger.now.past place seat message.now dest.now message.now.tag) }
{
    let posts = About::Posts { seat };
    match &message.tag {
        Tag::Plain => fails_at(5, posts),
        _ if !ledger.posts_stay(seat, place) => fails_at(5, posts),
        Tag::Request { number, .. } if is_call(*number, message, dest) => {
            fails_at(7, About::Calls { seat })
        }
        Tag::Request { .. } => fails_at(6, About::Nothing),
        Tag::Reply { .. } => fails_at(6, About::Hands { seat }),
    }
}

/// The first condition that fails of those that the reply which was taken may end a call.
pub(crate) fn done_failed(ledger: &Ledger, place: u16, seat: u32, number: u32) -> Failed
    ensures { result ≡ first_failing 2
        (conditions ledger.now.layout ledger.now.past place seat (Act.Done number)) }
{
    if is_taken_by(ledger, place, seat, number) {
        fails_at(3, About::Calls { seat })
    } else {
        fails_at(2, About::At { place })
    }
}

/// The first condition that fails of those that the reply which was taken may end no call.
pub(crate) fn late_failed(ledger: &Ledger, place: u16, seat: u32, number: u32) -> Failed
    ensures { result ≡ first_failing 2
        (conditions ledger.now.layout ledger.now.past place seat (Act.Late number)) }
{
    if is_taken_by(ledger, place, seat, number) {
        fails_at(3, About::Calls { seat })
    } else {
        fails_at(2, About::At { place })
    }
}
