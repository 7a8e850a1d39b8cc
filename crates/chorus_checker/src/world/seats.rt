//! Posting, and the calls of a caller.

ghost use Rattle.std.specs.Prelude.{◌≡◌, Some, is_none};
ghost use Rattle.chorus_entry.specs.declared.act.Act.TheVariants as Act;
ghost use Rattle.chorus_world.specs.Seats.{call, hand};
ghost use Rattle.chorus_world.specs.Steps.{ends_call};
ghost use Rattle.chorus_world.specs.Views.{by};
ghost use Rattle.chorus_entry.specs.Same.{is_number};
ghost use Rattle.chorus_checker.specs.Worlds.{may_do, may_reply_in, may_request_in, may_tag_in};

use crate::world::World;
use chorus_entry::{Dest, Message, Tag};
use chorus_world::TakenReply;

impl World {
    /// Whether the message is a new request of the caller, with this number, or its outstanding one again.
    fn may_request(
        &self,
        place: u16,
        seat: u32,
        number: u32,
        message: &Message,
        dest: &Dest,
    ) -> bool
        ensures { result ≡ may_request_in self.now place seat number message.now dest.now }
    {
        let request = match (&message.tag, dest) {
            (Tag::Request { number: named, .. }, Dest::Port(_)) => *named == number,
            _ => false,
        };
        request
            && match self.ledger.call(seat) {
                None => number != 0 && number - 1 == self.ledger.requests(seat),
                Some(call) => {
                    call == number && self.ledger.is_call_again(seat, number, message, dest)
                }
            }
    }

    /// Whether the message is the reply to the request in the caller's hand: it has this client and number, and goes to
    /// the reply port.
    fn may_reply(&self, seat: u32, client: u32, number: u32, dest: &Dest) -> bool
        ensures { result ≡ may_reply_in self.now seat client number dest.now }
    {
        match self.ledger.hand(seat) {
            Some(hand) => match dest {
                Dest::Port(port) => {
                    hand.client == client && hand.number == number && hand.back == *port
                }
                _ => false,
            },
            None => false,
        }
    }

    /// Whether the message that the caller posts may have its tag.
    fn may_tag(&self, place: u16, seat: u32, message: &Message, dest: &Dest) -> bool
        ensures { result ≡ may_tag_in self.now place seat message.now dest.now }
    {
        match &message.tag {
            Tag::Plain => true,
            Tag::Request { number, .. } => self.may_request(place, seat, *number, message, dest),
            Tag::Reply { client, number } => self.may_reply(seat, *client, *number, dest),
        }
    }

    /// Whether this may be the caller's next post: its number is the next, and it has a tag that the caller may give.
    pub(super) fn may_post(&self, place: u16, seat: u32, message: &Message, dest: &Dest) -> bool
        ensures { result ≡ may_do self.now place seat (Act.Post message.now dest.now) }
    {
        message.id.seat == seat
            && message.id.number != 0
            && u64::from(message.id.number) - 1 == self.ledger.posts(seat)
            && message.id.copy == 0
            && self.ledger.posts_stay(seat, place)
            && self.may_tag(place, seat, message, dest)
    }

    /// Whether this is the number of the caller's outstanding call.
    pub(super) fn is_outstanding(&self, seat: u32, number: u32) -> bool
        ensures { result ≡ is_number number (call (by seat self.now.past)) }
    {
        match self.ledger.call(seat) {
            Some(call) => call == number,
            None => false,
        }
    }

    /// Whether the caller has no outstanding call, so that there is none to repeat or to cancel.
    pub(super) fn has_no_call(&self, seat: u32) -> bool
        ensures { result ≡ is_none (call (by seat self.now.past)) }
    {
        self.ledger.call(seat).is_none()
    }

    /// Whether the caller holds no request in hand to which it could reply.
    pub(super) fn has_no_request(&self, seat: u32) -> bool
        ensures { result ≡ is_none (hand self.now.past (by seat self.now.past)) }
    {
        self.ledger.hand(seat).is_none()
    }

    /// Whether the reply that was taken ends the caller's outstanding call, which has this number.
    fn ends_call(&self, seat: u32, number: u32, reply: &TakenReply) -> bool
        ensures { result ≡ ends_call seat number (call (by seat self.now.past)) (Some reply.now) }
    {
        reply.client == seat && self.is_outstanding(seat, number)
    }

    /// Whether the reply that the caller just took at the place ends its outstanding call of this number.
    pub(super) fn may_be_done(&self, place: u16, seat: u32, number: u32) -> bool
        ensures { result ≡ may_do self.now place seat (Act.Done number) }
    {
        match self.ledger.just_taken(place) {
            Some(reply) => {
                reply.taker == seat
                    && reply.number == number
                    && self.ends_call(seat, number, &reply)
            }
            None => false,
        }
    }

    /// Whether the reply that the caller just took at the place has this number and ends no call of the caller's.
    pub(super) fn may_be_late(&self, place: u16, seat: u32, number: u32) -> bool
        ensures { result ≡ may_do self.now place seat (Act.Late number) }
    {
        match self.ledger.just_taken(place) {
            Some(reply) => {
                reply.taker == seat
                    && reply.number == number
                    && !self.ends_call(seat, number, &reply)
            }
            None => false,
        }
    }
}
