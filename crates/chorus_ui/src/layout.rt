//! The places of a layout.

ghost use Rattle.std.specs.Prelude.{◌≡◌, ◌<◌, ◌≤◌, IsTrue, IfSome};
ghost use Rattle.chorus_ui.specs.declared.limits.TheConstants.{PLACES_LIMIT};

use crate::kind::Kind;
use crate::limits::{
    ACTORS_PER_SITE_LIMIT, PLACES_PER_SITE_LIMIT, PORTS_PER_SITE_LIMIT, SITES_LIMIT,
};
use crate::ui::Ui;
use std::marker::Model;

/// How many sites there are, from 1 to 16, and how many places per site: 1, 2 or 4. Places are numbered from 1, those of
/// site 1 first. Places are this project's own.
#[derive(Clone, Copy)]
pub struct Layout {
    sites: u16,
    turns: u16,
}

impl Model for Layout {
    ghost use Rattle.chorus_ui.specs.Layout.{Shape, IsLayout};

    ghost Value = { Shape };

    ghost view = { λ l. record { sites = l.sites; turns = l.turns } };

    ghost invariant = { λ l. IsLayout (record { sites = l.sites; turns = l.turns }) };

    ghost inverse = { λ shape. record { sites = shape.sites; turns = shape.turns } };
}

impl Layout {
    ghost use Rattle.chorus_ui.specs.Layout.{IsLayout, new_layout, places, has_site, has_place, can_make_port, ports_of, port_row, first_place, place_at, site_of, home, group_place};

    /// The layout of these numbers. None exactly outside 1 to 16 sites and 1, 2 or 4 places per site.
    pub fn new(sites: u16, turns: u16) -> Option<Layout>
        ensures { result ≡ new_layout sites turns }
    {
        if 1 <= sites && sites <= SITES_LIMIT && matches!(turns, 1 | 2 | PLACES_PER_SITE_LIMIT) {
            Some(Layout { sites, turns })
        } else {
            None
        }
    }

    /// The number of sites, from 1 to 16.
    pub fn sites(&self) -> u16
        ensures value { result ≡ self.now.sites }
        ensures layout { IsLayout self.now }
    {
        self.sites
    }

    /// The number of places per site: 1, 2 or 4.
    pub fn turns(&self) -> u16
        ensures value { result ≡ self.now.turns }
        ensures layout { IsLayout self.now }
    {
        self.turns
    }

    /// The number of places, from 1 to 64.
    pub fn places(&self) -> u16
        ensures value { result ≡ places self.now }
        ensures bounds { (1 ≤ result) × (result ≤ PLACES_LIMIT) }
    {
        self.sites * self.turns
    }

    /// Whether this is a site of the layout.
    pub fn has_site(&self, site: u16) -> bool
        ensures { result ≡ has_site self.now site }
    {
        1 <= site && site <= self.sites
    }

    /// Whether this is a place of the layout.
    pub fn has_place(&self, place: u16) -> bool
        ensures { result ≡ has_place self.now place }
    {
        1 <= place && place <= self.places()
    }

    /// Whether the layout can make this port: its site is one of the layout's and its number at most 32.
    pub fn can_make_port(&self, port: Ui) -> bool
        requires { port.kind ≡ Kind.Port }
        ensures { result ≡ can_make_port self.now port }
    {
        self.has_site(port.site()) && port.number() <= PORTS_PER_SITE_LIMIT
    }

    /// The number of ports that the layout can make, from 32 to 512.
    pub fn ports(&self) -> usize
        ensures { result ≡ ports_of self.now }
    {
        usize::from(self.sites) * PORTS_PER_SITE_LIMIT as usize
    }

    /// Where a port that the layout can make stands among them, by site and then by number, counted from 0: its row in a
    /// table of all of them.
    pub fn port_row(&self, port: Ui) -> usize
        requires { IsTrue (can_make_port self.now port) }
        ensures value { result ≡ port_row port }
        ensures inside { result < ports_of self.now }
    {
        usize::from(port.site() - 1) * PORTS_PER_SITE_LIMIT as usize + (port.number() - 1) as usize
    }

    /// The first place of a site, where its groups stand.
    pub fn first_place(&self, site: u16) -> u16
        requires { IsTrue (has_site self.now site) }
        ensures value { result ≡ first_place self.now site }
        ensures in_layout { IsTrue (has_place self.now result) }
        ensures on_site { site_of self.now result ≡ site }
    {
        (site - 1) * self.turns + 1
    }

    /// The place at which a thing of this name stands on this site: the things of a site are divided among its
    /// places by their numbers.
    pub fn place_at(&self, site: u16, ui: Ui) -> u16
        requires { IsTrue (has_site self.now site) }
        ensures value { result ≡ place_at self.now site ui }
        ensures in_layout { IsTrue (has_place self.now result) }
        ensures on_site { site_of self.now result ≡ site }
    {
        let turn = (ui.number() - 1) % u64::from(self.turns);
        self.first_place(site) + turn as u16
    }

    /// The home place of an actor. None exactly where the actor is not one of the layout's: its site is above
    /// the number of sites, or its number above 8.
    pub fn home(&self, actor: Ui) -> Option<u16>
        requires { actor.kind ≡ Kind.Actor }
        ensures value { result ≡ home self.now actor }
        ensures in_layout { IfSome result (λ place. IsTrue (has_place self.now place)) }
    {
        let site = actor.site();
        if self.has_site(site) && actor.number() <= ACTORS_PER_SITE_LIMIT {
            Some(self.place_at(site, actor))
        } else {
            None
        }
    }

    /// The place of a group, which never moves: the first of the site that made it. None exactly where that
    /// site is above the number of sites.
    pub fn group_place(&self, group: Ui) -> Option<u16>
        requires { group.kind ≡ Kind.Group }
        ensures value { result ≡ group_place self.now group }
        ensures in_layout { IfSome result (λ place. IsTrue (has_place self.now place)) }
    {
        let site = group.site();
        if self.has_site(site) {
            Some(self.first_place(site))
        } else {
            None
        }
    }

    /// The site of a place.
    pub fn site_of(&self, place: u16) -> u16
        requires { IsTrue (has_place self.now place) }
        ensures value { result ≡ site_of self.now place }
        ensures in_layout { IsTrue (has_site self.now result) }
    {
        (place - 1) / self.turns + 1
    }
}
