//! What a place knows of the messages that it sent.

ghost use Rattle.std.specs.Prelude.{◌≡◌, is_some, true};
ghost use Rattle.chorus_world.specs.Places.{sent, find_sent, unsettled, first_for, is_tried, is_first};
ghost use Rattle.chorus_world.specs.Views.{at};

use crate::ledger::Ledger;
use checker_rows::keys::LineKey;
use checker_rows::message_lines::{End, first_open};
use checker_rows::messages::{is_tried_in, sent_in};
use chorus_entry::MsgId;
use chorus_ui::Ui;
use chorus_world::Sent;

impl Ledger {
    /// The message of this id that was sent from the place.
    fn find_sent(&self, place: u16, id: MsgId) -> Option<Sent>
        ensures { result ≡ find_sent id (sent (at place self.now.past)) }
    {
        sent_in(&self.tables.messages, place, id)
    }

    /// Whether the place knows of a try of the message, which it sent, that it was not told of yet.
    fn is_tried(&self, place: u16, id: MsgId) -> bool
        requires { is_some (find_sent id (sent (at place self.now.past))) ≡ true }
        ensures { result ≡ is_tried id (at place self.now.past) }
    {
        // The place is for the contract alone.
        is_tried_in(&self.tables.messages, id)
    }

    /// The first message that was sent from the place to the port by the route and is not settled there.
    fn first_for(&self, place: u16, port: Ui, route: Option<Ui>) -> Option<MsgId>
        ensures { result ≡
            first_for port route
            (unsettled (at place self.now.past) (sent (at place self.now.past))) }
    {
        let line = LineKey {
            place,
            name: port,
            route,
        };
        first_open(
            &self.tables.lines,
            &self.tables.messages,
            &line,
            End::Settled,
        )
    }

    /// Whether the message is the next to go from the place to the port: it was sent there, it is the first unsettled one
    /// of its port and route, and it is not under way.
    pub fn is_first(&self, place: u16, id: MsgId, port: Ui) -> bool
        ensures { result ≡ is_first id port (at place self.now.past) }
    {
        match self.find_sent(place, id) {
            Some(sent) if sent.port == port => match self.first_for(place, port, sent.route) {
                Some(first) => id == first && !self.is_tried(place, id),
                None => false,
            },
            _ => false,
        }
    }
}
