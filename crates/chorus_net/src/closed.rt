//! What is left when the sites are closed, or the places at which threads took turns.

ghost use Rattle.std.specs.Prelude.{◌≡◌};
ghost use Rattle.chorus_net.specs.Closing.{worn_of, HasParts, IsOfTurns};

use crate::mark::Mark;
use chorus_calls::Caller;
use chorus_entry::{Command, Entry, Packet};
use chorus_turn::Spent;
use law_closing::Noted;
use law_network::Placed;

/// What is left when the sites, or the places at which threads took turns, are closed.
///
/// Its origin is private, and tells contracts which sites it is of, or which pass closed the places.
/// [`Sites::close`](crate::Sites::close) and [`Sites::restart`](crate::Sites::restart) alone make one of sites, and [`Closed::of`] one of
/// places at which passes took turns, which needs what is left of the pass that closed them.
#[derive(Drop)]
pub struct Closed {
    /// The journal of each place, by place, in order.
    pub journals: Vec<Vec<Entry>>,
    /// The packets that were put and not worked off.
    pub rest: Vec<Packet>,
    /// The ports that are held, by place, then in table order.
    pub ports: Vec<Placed>,
    /// What made it.
    pub(crate) origin: Origin,
}

/// What a `Closed` was made by.
#[derive(Drop)]
pub(crate) enum Origin {
    /// `Sites::close` or `Sites::restart`, of the sites with this mark.
    Sites(Mark),
    /// `Closed::of`, of the pass that closed the places, and the clock that the caller gave as worn.
    Turns {
        spent: Spent<Noted<Caller, Command, Packet>>,
        worn: Option<u64>,
    },
}

impl Closed {
    /// What is left of places at which passes took turns, of these parts: what is left of the pass that closed them, which
    /// `Turns::close` gave, and the clock that the caller gives as worn. Meant is that of the pass's first call that was refused as
    /// worn, if one was; no clause asks for it. It takes no memory.
    pub fn of(
        journals: Vec<Vec<Entry>>,
        rest: Vec<Packet>,
        ports: Vec<Placed>,
        spent: Spent<Noted<Caller, Command, Packet>>,
        worn: Option<u64>,
    ) -> Closed
        ensures parts { HasParts journals rest ports result }
        ensures origin { IsOfTurns spent worn result }
    {
        Closed {
            journals,
            rest,
            ports,
            origin: Origin::Turns { spent, worn },
        }
    }

    /// The clock that the caller of [`Closed::of`] gave as worn. None where none was given, and None for sites.
    pub fn worn(&self) -> Option<u64>
        ensures { result ≡ worn_of self.now }
    {
        match &self.origin {
            Origin::Sites(_) => None,
            Origin::Turns { worn, .. } => *worn,
        }
    }
}
