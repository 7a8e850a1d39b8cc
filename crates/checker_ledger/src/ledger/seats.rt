//! Callers, their calls and what they have in hand.

ghost use Rattle.std.specs.Prelude.{◌≡◌, Some, slice_get};
ghost use Rattle.std.specs.Option.{option_copied};
ghost use Rattle.chorus_world.specs.Seats.{posts, posts_stay, requests, call, call_by, hand};
ghost use Rattle.chorus_world.specs.Views.{by};
ghost use Rattle.checker_ledger.specs.Worlds.{IsOutstanding, call_to, is_call_again, repeats};

use crate::ledger::Ledger;
use checker_rows::seats::{seat_in, stays};
use chorus_entry::{Act, Dest, Entry, Hand, Message, Tag};
use chorus_ui::Ui;

impl Ledger {
    /// How many messages the caller posted.
    pub fn posts(&self, seat: u32) -> u64
        ensures { result ≡ posts (by seat self.now.past) }
    {
        seat_in(&self.tables.seats, seat).posts
    }

    /// Whether the caller posted at this place alone.
    pub fn posts_stay(&self, seat: u32, place: u16) -> bool
        ensures { result ≡ posts_stay place (by seat self.now.past) }
    {
        stays(seat_in(&self.tables.seats, seat).stay, place)
    }

    /// The greatest request number that the caller posted, or 0.
    pub fn requests(&self, seat: u32) -> u32
        ensures { result ≡ requests (by seat self.now.past) }
    {
        seat_in(&self.tables.seats, seat).requests
    }

    /// The number of the caller's outstanding call.
    pub fn call(&self, seat: u32) -> Option<u32>
        ensures { result ≡ call (by seat self.now.past) }
    {
        seat_in(&self.tables.seats, seat).call
    }

    /// The request in the caller's hand: the last one that it took, where it posted no reply since.
    pub fn hand(&self, seat: u32) -> Option<Hand>
        ensures { result ≡ hand self.now.past (by seat self.now.past) }
    {
        seat_in(&self.tables.seats, seat).hand
    }

    /// Whether the message is the caller's outstanding request again, as it was posted first.
    pub fn is_call_again(&self, seat: u32, number: u32, message: &Message, dest: &Dest) -> bool
        requires { IsOutstanding self.now seat number }
        ensures { result ≡ is_call_again self.now seat number message.now dest.now }
    {
        match seat_in(&self.tables.seats, seat).first {
            Some(index) => match entry_at(self.entries.as_slice(), index) {
                Some(first) => repeats(&first.act, number, message, dest),
                None => false,
            },
            None => false,
        }
    }
}

/// The entry of the ledger behind `index` others.
fn entry_at(entries: &[Entry], index: usize) -> Option<&Entry>
    ensures { option_copied result ≡ slice_get entries.now index }
{
    entries.get(index)
}

/// Whether the caller's message is again the call of this number that the act posts.
fn repeats(act: &Act, number: u32, message: &Message, dest: &Dest) -> bool
    ensures { result ≡ repeats (call_by number act.now) number message.now dest.now }
{
    match act {
        Act::Post {
            message: first,
            dest: Dest::Port(port),
        } => match &first.tag {
            Tag::Request {
                number: named,
                back,
            } if *named == number => {
                is_call(message, dest, number, *port, *back, first.body.bytes())
            }
            _ => false,
        },
        _ => false,
    }
}

/// Whether a caller's post of the request `number` is this call again: the same port, reply port and body.
fn is_call(message: &Message, dest: &Dest, number: u32, port: Ui, back: Ui, body: &[u8]) -> bool
    ensures { result ≡ repeats (Some (call_to port back body.now)) number message.now dest.now }
{
    match dest {
        Dest::Port(to) => match &message.tag {
            Tag::Request {
                number: named,
                back: reply,
            } => {
                *named == number && port == *to && back == *reply && body == message.body.bytes()
            }
            _ => false,
        },
        _ => false,
    }
}
