//! How a message is due at a place, and whether it meets its port there.

ghost use Rattle.std.specs.Prelude.{◌≡◌};
ghost use Rattle.chorus_world.specs.Posts.{is_on_site};
ghost use Rattle.chorus_world.specs.Steps.{is_beyond, is_to_go, suits, due_at_home, is_due, meets, may_enter};
ghost use Rattle.chorus_world.specs.Places.{is_location};
ghost use Rattle.chorus_checker.specs.Worlds.{due_in, located_in, seen};

use crate::group::site_of;
use crate::port::is_held_at;
use crate::world::World;
use chorus_entry::MsgId;
use chorus_ui::Ui;
use chorus_world::{Due, Progress};

impl World {
    /// Whether the layout has no such site as the name of a message's port has.
    pub(super) fn is_beyond(&self, ui: Ui) -> bool
        ensures { result ≡ is_beyond self.now.layout ui }
    {
        !self.layout().has_site(ui.site())
    }

    /// Whether the place is on this site, where a message asks for one.
    pub(super) fn is_on_site(&self, site: Option<u16>, place: u16) -> bool
        ensures { result ≡ is_on_site self.now.layout site place }
    {
        match site {
            Some(site) => site_of(self.layout(), place) == site,
            None => true,
        }
    }

    /// Whether the place is on the site that the message asks for, where it asks for one.
    fn suits(&self, place: u16, id: MsgId, port: Ui) -> bool
        ensures { result ≡ suits self.now.layout (seen self.now place id port) place id }
    {
        // The port is for the contract alone.
        self.is_on_site(self.ledger.site_asked(id), place)
    }

    /// Whether the message is to be tried from the place, and its port is located at `to`.
    pub(super) fn is_to_go(&self, place: u16, id: MsgId, port: Ui, to: u16) -> bool
        ensures { result ≡ is_to_go self.now.layout (seen self.now place id port) id port to }
    {
        self.ledger.is_first(place, id, port)
            && !self.is_beyond(port)
            && self.ledger.located(place, port).to == to
    }

    /// How the message is due at the place where it waits.
    fn due_at_home(&self, place: u16, id: MsgId, port: Ui) -> Due
        ensures { result ≡ due_at_home self.now.layout (seen self.now place id port) place id port }
    {
        if self.is_to_go(place, id, port, place) && self.suits(place, id, port) {
            let hop = self.ledger.located(place, port).hop;
            Due::AtHome { hop }
        } else {
            Due::NotDue
        }
    }

    /// How the message is due at the place.
    pub(super) fn due(&self, place: u16, id: MsgId, port: Ui) -> Due
        ensures { result ≡ due_in self.now place id port }
    {
        let progress = self.ledger.progress(id);
        match &progress {
            Progress::Tried {
                port: tried,
                to,
                hop,
                ..
            } if *to == place && *tried == port => Due::ByTry { hop: *hop },
            _ => self.due_at_home(place, id, port),
        }
    }

    /// Whether the message is due at the place.
    pub(super) fn is_due(&self, place: u16, id: MsgId, port: Ui) -> bool
        ensures { result ≡ is_due (due_in self.now place id port) }
    {
        match self.due(place, id, port) {
            Due::NotDue => false,
            _ => true,
        }
    }

    /// Whether the message is due at the place, and its port is held there.
    pub(super) fn meets(&self, place: u16, id: MsgId, port: Ui) -> bool
        ensures { result ≡ meets self.now.layout (seen self.now place id port) place id port }
    {
        self.is_due(place, id, port) && is_held_at(self.port(port), place)
    }

    /// Whether the message meets its port there, suits the site, and neither Already nor ClientsFull answers it.
    pub(super) fn may_enter(&self, place: u16, id: MsgId, port: Ui) -> bool
        ensures { result ≡ may_enter self.now.layout (seen self.now place id port) place id port }
    {
        self.meets(place, id, port)
            && self.suits(place, id, port)
            && !self.ledger.is_already(port, id)
            && !self.ledger.finds_clients_full(port, id)
    }

    /// Whether the place locates the port at `to`, by this hop.
    pub(super) fn is_located(&self, place: u16, port: Ui, to: u16, hop: u64) -> bool
        ensures { result ≡ is_location to hop (located_in self.now place port) }
    {
        let location = self.ledger.located(place, port);
        location.to == to && location.hop == hop
    }
}
