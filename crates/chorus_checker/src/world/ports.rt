//! Making, receiving from, moving and deleting ports, and the end of a call.

ghost use Rattle.std.specs.Prelude.{◌≡◌, ◌==◌};
ghost use Rattle.chorus_ui.specs.Layout.{has_actor};
ghost use Rattle.chorus_entry.specs.declared.act.Act.TheVariants as Act;
ghost use Rattle.chorus_world.specs.Steps.{is_home, is_full_of_ports};
ghost use Rattle.chorus_world.specs.Views.{at};
ghost use Rattle.chorus_checker.specs.Worlds.{may_do, next_in};

use crate::group::site_of;
use crate::port::{are_waiting, is_coming, is_empty, is_first_waiting, is_held_at, is_next_hop};
use crate::world::World;
use chorus_entry::{Ids, MsgId, PENDING_LIMIT};
use chorus_ui::{ACTORS_PER_SITE_LIMIT, PORTS_PER_SITE_LIMIT, Ui};

impl World {
    /// Whether the actor is one of the layout.
    fn has_actor(&self, actor: Ui) -> bool
        ensures { result ≡ has_actor self.now.layout actor }
    {
        self.layout().has_site(actor.site()) && actor.number() <= ACTORS_PER_SITE_LIMIT
    }

    /// Whether the actor is one of the layout, and the place its home place.
    fn is_home(&self, actor: Ui, place: u16) -> bool
        ensures { result ≡ is_home self.now.layout actor place }
    {
        self.has_actor(actor) && self.layout().place_at(actor.site(), actor) == place
    }

    /// Whether the place has made its share of the ports of a site.
    fn is_full_of_ports(&self, place: u16) -> bool
        ensures { result ≡ is_full_of_ports self.now.layout (at place self.now.past) }
    {
        let made = self.ledger.ports_made(place);
        PORTS_PER_SITE_LIMIT / u64::from(self.layout().turns()) <= made
    }

    /// The number of the next port that the place makes, which has not made its share.
    fn is_next_number(&self, place: u16, number: u64) -> bool
        ensures { result ≡ (number == next_in self.now place) }
    {
        let made = u128::from(self.ledger.ports_made(place));
        let turns = u128::from(self.layout().turns());
        let turn = u128::from(place.saturating_sub(1)) % turns;
        u128::from(number) == made * turns + turn + 1
    }

    /// Whether the place may make this port for an actor at home there: its next name, within its share of ports.
    pub(super) fn may_make(&self, place: u16, port: Ui, actor: Ui, capacity: u8) -> bool
        ensures { result ≡ may_do self.now place 0 (Act.Make port actor capacity) }
    {
        self.is_home(actor, place)
            && 1 <= capacity
            && capacity as usize <= PENDING_LIMIT
            && !self.is_full_of_ports(place)
            && port.site() == actor.site()
            && self.is_next_number(place, port.number())
    }

    /// Whether the place may answer that it has made its share of the site's ports, when one is asked for its actor.
    pub(super) fn may_find_ports_full(&self, place: u16, actor: Ui) -> bool
        ensures { result ≡ may_do self.now place 0 (Act.MakeFull actor) }
    {
        self.is_home(actor, place) && self.is_full_of_ports(place)
    }

    /// Whether a journal may say that a port was for an actor that the layout does not have.
    pub(super) fn may_find_no_actor(&self, place: u16, actor: Ui) -> bool
        ensures { result ≡ may_do self.now place 0 (Act.NoActor actor) }
    {
        !self.has_actor(actor)
    }

    /// Whether this message, at this position, may be received: the place holds the port, and it waits there first.
    pub(super) fn may_take(&self, place: u16, port: Ui, pos: u64, id: MsgId) -> bool
        ensures { result ≡ may_do self.now place 0 (Act.Take port pos id) }
    {
        is_held_at(self.port(port), place) && is_first_waiting(self.port(port), pos, id)
    }

    /// Whether the place may answer a receive with Empty: it holds the port, and no message waits in it.
    pub(super) fn may_find_empty(&self, place: u16, port: Ui) -> bool
        ensures { result ≡ may_do self.now place 0 (Act.Empty port) }
    {
        is_held_at(self.port(port), place) && is_empty(self.port(port))
    }

    /// Whether the port, which the place holds, may move to this actor: one of the place's own site.
    pub(super) fn may_rehome(&self, place: u16, port: Ui, actor: Ui) -> bool
        ensures { result ≡ may_do self.now place 0 (Act.Rehome port actor) }
    {
        is_held_at(self.port(port), place)
            && self.has_actor(actor)
            && actor.site() == site_of(self.layout(), place)
    }

    /// Whether the port may leave this place, by its next hop, for its place on the other site where the actor is.
    pub(super) fn may_depart(&self, place: u16, port: Ui, to: u16, actor: Ui, hop: u64) -> bool
        ensures { result ≡ may_do self.now place 0 (Act.Depart port to actor hop) }
    {
        is_held_at(self.port(port), place)
            && self.has_actor(actor)
            && actor.site() != site_of(self.layout(), place)
            && to == self.layout().place_at(actor.site(), port)
            && is_next_hop(self.port(port), hop)
    }

    /// Whether the port may arrive at the place: it is on its way there, and this is its last hop.
    pub(super) fn may_arrive(&self, place: u16, port: Ui, hop: u64) -> bool
        ensures { result ≡ may_do self.now place 0 (Act.Arrive port hop) }
    {
        is_coming(self.port(port), place, hop)
    }

    /// Whether the place may delete the port: it holds it, and just these messages wait in it, in this order.
    pub(super) fn may_delete(&self, place: u16, port: Ui, discarded: &Ids) -> bool
        ensures { result ≡ may_do self.now place 0 (Act.Delete port discarded.now) }
    {
        is_held_at(self.port(port), place) && are_waiting(self.port(port), discarded.ids())
    }
}
