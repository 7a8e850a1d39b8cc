//! Where a message was sent from, and how it goes.

ghost use Rattle.std.specs.Prelude.{◌≡◌, ◌<◌, ◌+◌};
ghost use Rattle.chorus_ui.specs.declared.limits.TheConstants.{MEMBERS_LIMIT};
ghost use Rattle.checker_rows.specs.Messages.{is_from, posts_as, sent_from};

use chorus_entry::{Act, Dest, MEMBERS_LIMIT, MsgId};
use chorus_ui::Ui;
use chorus_world::Sent;

/// Where a message was sent from, and how it goes: a direct post, or a copy, which goes by the route of its group.
#[derive(Clone, Copy)]
pub struct Sending {
    /// The place that it was sent from.
    pub place: u16,
    /// The port that it goes to.
    pub port: Ui,
    /// The group of a copy; None of a direct post.
    pub route: Option<Ui>,
}

/// Whether the message was sent from the place.
pub(crate) fn is_from(place: u16, sent: &Option<Sending>) -> bool
    ensures { result ≡ is_from place sent.now }
{
    match sent {
        Some(sent) => place == sent.place,
        None => false,
    }
}

/// The message as the place sent it, where it did.
pub(crate) fn sent_from(place: u16, id: MsgId, sent: &Option<Sending>) -> Option<Sent>
    ensures { result ≡ sent_from place id sent.now }
{
    match sent {
        Some(sent) if place == sent.place => Some(Sent {
            id,
            port: sent.port,
            route: sent.route,
        }),
        _ => None,
    }
}

/// What the act posts from the place to a port, under this id.
pub(crate) fn posts_as(id: MsgId, place: u16, act: &Act) -> Option<Sending>
    ensures { result ≡ posts_as id place act.now }
{
    match act {
        Act::Post {
            message,
            dest: Dest::Port(port),
        } if message.id == id => Some(Sending {
            place,
            port: *port,
            route: None,
        }),
        _ => None,
    }
}

/// The id of a post's copy for the member at this place in the list, counted from 0, in the checker's rows.
pub fn copy_of(post: MsgId, at: usize) -> MsgId
    requires { at < MEMBERS_LIMIT }
    ensures { result ≡ record post { copy = at + 1 } }
{
    MsgId {
        seat: post.seat,
        number: post.number,
        copy: at as u16 + 1,
    }
}
