//! What a condition asks of places and sites.

ghost use Rattle.std.specs.Prelude.{◌≡◌, ◌==◌};
ghost use Rattle.chorus_ui.specs.Layout.{first_place, has_actor, place_at, site_of};
ghost use Rattle.chorus_world.specs.Groups.{is_group_place};
ghost use Rattle.chorus_world.specs.Places.{is_location};
ghost use Rattle.chorus_world.specs.Posts.{is_on_site, source};
ghost use Rattle.chorus_world.specs.Steps.{is_beyond, is_full_of_ports};
ghost use Rattle.chorus_world.specs.Views.{at};
ghost use Rattle.judge_rules.specs.Conditions.{about_location};
ghost use Rattle.judge_rules.specs.Terms.{located_at, suits_site};

use crate::about::About;
use checker_ledger::Ledger;
use chorus_entry::MsgId;
use chorus_ui::{ACTORS_PER_SITE_LIMIT, Layout, PORTS_PER_SITE_LIMIT, Ui};

/// The site of a place by which a condition is judged, which may not be one of the layout's.
pub(crate) fn site_of(layout: Layout, place: u16) -> u16
    ensures { result ≡ site_of layout place }
{
    place.saturating_sub(1) / layout.turns() + 1
}

/// Whether the layout has the actor, by which a condition is judged.
pub(crate) fn has_actor(layout: Layout, actor: Ui) -> bool
    ensures { result ≡ has_actor layout actor }
{
    layout.has_site(actor.site()) && actor.number() <= ACTORS_PER_SITE_LIMIT
}

/// Whether the place has made its share of ports, by which a condition is judged.
pub(crate) fn is_full_of_ports(ledger: &Ledger, place: u16) -> bool
    ensures { result ≡ is_full_of_ports ledger.now.layout (at place ledger.now.past) }
{
    let made = ledger.ports_made(place);
    PORTS_PER_SITE_LIMIT / u64::from(ledger.layout().turns()) <= made
}

/// Whether the layout has no such site as the port's name has, by which a condition is judged.
pub(crate) fn is_beyond(layout: Layout, port: Ui) -> bool
    ensures { result ≡ is_beyond layout port }
{
    !layout.has_site(port.site())
}

/// Whether the place is on the site, where one is asked for, by which a condition is judged.
fn is_on_site(layout: Layout, site: Option<u16>, place: u16) -> bool
    ensures { result ≡ is_on_site layout site place }
{
    match site {
        Some(site) => site_of(layout, place) == site,
        None => true,
    }
}

/// Whether the place is on the site that the message asks for, where it asks for one, by which a condition is judged.
pub(crate) fn suits_site(ledger: &Ledger, place: u16, id: MsgId) -> bool
    ensures { result ≡ suits_site ledger.now.layout ledger.now.past place id }
{
    is_on_site(ledger.layout(), ledger.site_asked(id), place)
}

/// Whether the place is the group's, by which a condition is judged.
pub(crate) fn is_group_place(layout: Layout, place: u16, group: Ui) -> bool
    ensures { result ≡ is_group_place layout group place }
{
    layout.has_site(group.site()) && layout.first_place(group.site()) == place
}

/// Whether the place locates the port there, by this hop, by which a condition is judged.
pub(crate) fn is_located(ledger: &Ledger, place: u16, port: Ui, to: u16, hop: u64) -> bool
    ensures { result ≡ is_location to hop
        (located_at ledger.now.layout ledger.now.past place port) }
{
    let at = ledger.located(place, port);
    at.to == to && at.hop == hop
}

/// The earlier entry that a condition is about where the place locates the port elsewhere.
pub(crate) fn location_of(ledger: &Ledger, place: u16, port: Ui) -> About
    ensures { result ≡ about_location ledger.now.layout ledger.now.past place port }
{
    let at = ledger.located(place, port);
    About::Location {
        place,
        port,
        to: at.to,
        hop: at.hop,
    }
}

/// The post that a condition is about, of a message or of a copy of it.
pub(crate) fn source_of(id: MsgId) -> About
    ensures { result ≡ About.Source (source id) }
{
    About::Source {
        id: MsgId {
            seat: id.seat,
            number: id.number,
            copy: 0,
        },
    }
}
