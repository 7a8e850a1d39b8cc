//! What a place may decide on a message that is due there.

ghost use Rattle.std.specs.Prelude.{◌≡◌};
ghost use Rattle.chorus_entry.specs.declared.act.Act.TheVariants as Act;
ghost use Rattle.chorus_world.specs.Steps.{is_early};
ghost use Rattle.chorus_checker.specs.Worlds.{finds_elsewhere, may_do};

use crate::port::{has_room, is_coming, is_ended_at, is_full, is_held_at, is_made};
use crate::world::World;
use chorus_entry::MsgId;
use chorus_ui::Ui;
use chorus_world::{Due, Location};

impl World {
    /// Whether the port may take the message in at this position: the message may enter, and the queue has room.
    pub(super) fn may_accept(&self, place: u16, id: MsgId, port: Ui, pos: u64) -> bool
        ensures { result ≡ may_do self.now place 0 (Act.Accept id port pos) }
    {
        self.may_enter(place, id, port) && has_room(self.port(port), pos)
    }

    /// Whether the message may be refused with Full: it could enter, but the port's queue is full with so many.
    pub(super) fn may_find_full(&self, place: u16, id: MsgId, port: Ui, len: u8) -> bool
        ensures { result ≡ may_do self.now place 0 (Act.Full id port len) }
    {
        self.may_enter(place, id, port) && is_full(self.port(port), len)
    }

    /// Whether the message, due where its port is held, may be refused as a request that the port accepted before.
    pub(super) fn may_find_already(&self, place: u16, id: MsgId, port: Ui) -> bool
        ensures { result ≡ may_do self.now place 0 (Act.Already id port) }
    {
        self.meets(place, id, port) && self.ledger.is_already(port, id)
    }

    /// Whether the message, due where its port is held, may be refused as the port remembers too many clients.
    pub(super) fn may_find_clients_full(&self, place: u16, id: MsgId, port: Ui) -> bool
        ensures { result ≡ may_do self.now place 0 (Act.ClientsFull id port) }
    {
        self.meets(place, id, port) && self.ledger.finds_clients_full(port, id)
    }

    /// Whether the message, which demands no site, may be answered with where its port went since the hop tried.
    pub(super) fn may_be_stale(
        &self,
        place: u16,
        id: MsgId,
        port: Ui,
        tried: u64,
        to: u16,
        hop: u64,
    ) -> bool
        ensures { result ≡ may_do self.now place 0 (Act.Stale id port tried to hop) }
    {
        let due = match self.due(place, id, port) {
            Due::NotDue => false,
            Due::ByTry { hop } | Due::AtHome { hop } => hop == tried,
        };
        due && !is_held_at(self.port(port), place)
            && self.is_located(place, port, to, hop)
            && tried < hop
            && to != place
            && self.ledger.site_asked(id).is_none()
    }

    /// Whether the message may be answered with Early: it is due, but its port is still under way here by this hop.
    pub(super) fn may_be_early(&self, place: u16, id: MsgId, port: Ui, hop: u64) -> bool
        ensures { result ≡ may_do self.now place 0 (Act.Early id port hop) }
    {
        let location = self.ledger.located(place, port);
        let early = match self.due(place, id, port) {
            Due::NotDue => false,
            Due::ByTry { hop: tried } | Due::AtHome { hop: tried } => {
                is_early(place, hop, location, tried)
            }
        };
        early && is_coming(self.port(port), place, hop)
    }

    /// Whether the message may be answered with NoPort: its port is not made, or its site is beyond the layout.
    pub(super) fn may_find_no_port(&self, place: u16, id: MsgId, port: Ui) -> bool
        ensures { result ≡ may_do self.now place 0 (Act.NoPort id port) }
    {
        let unmade = match self.due(place, id, port) {
            Due::NotDue => false,
            Due::ByTry { hop } | Due::AtHome { hop } => hop == 0 && !is_made(self.port(port)),
        };
        unmade || self.is_beyond(port) && self.ledger.is_first(place, id, port)
    }

    /// Whether the place where the message waits, or was tried, finds the port elsewhere than on the site asked for.
    fn is_elsewhere(&self, place: u16, id: MsgId, port: Ui, to: u16, hop: u64) -> bool
        ensures { result ≡ finds_elsewhere self.now place id port to hop }
    {
        let off_site = !self.is_on_site(self.ledger.site_asked(id), to);
        if off_site && self.is_to_go(place, id, port, to) {
            return true;
        }
        match self.due(place, id, port) {
            Due::ByTry { hop: tried } => {
                tried < hop && !is_held_at(self.port(port), place) && to != place
            }
            _ => false,
        }
    }

    /// Whether the message, which demands a site, may be answered with where else the place locates its port.
    pub(super) fn may_be_elsewhere(
        &self,
        place: u16,
        id: MsgId,
        port: Ui,
        to: u16,
        hop: u64,
    ) -> bool
        ensures { result ≡ may_do self.now place 0 (Act.Elsewhere id port to hop) }
    {
        self.ledger.site_asked(id).is_some()
            && self.is_located(place, port, to, hop)
            && self.is_elsewhere(place, id, port, to, hop)
    }

    /// Whether the message may be answered with Gone: it is due at the place, and its port was deleted there.
    pub(super) fn may_find_gone(&self, place: u16, id: MsgId, port: Ui) -> bool
        ensures { result ≡ may_do self.now place 0 (Act.Gone id port) }
    {
        self.is_due(place, id, port) && is_ended_at(self.port(port), place)
    }
}

/// Whether a port on its way to the place by this hop is early for a message that is due with the hop `tried`: it is
/// located there by a later hop, or else the message was tried with its last hop.
fn is_early(place: u16, hop: u64, location: Location, tried: u64) -> bool
    ensures { result ≡ is_early place hop location tried }
{
    location.to == place && location.hop == hop && tried < hop
        || location.hop <= tried && hop == tried && 0 < tried
}
