//! Where each place locates each port.

ghost use Rattle.std.specs.Prelude.{◌≡◌, ◌<◌};
ghost use Rattle.std.specs.HashMap.{spare};
ghost use Rattle.chorus_world.specs.Places.{taught, farther, named_location};
ghost use Rattle.checker_rows.specs.Locations.{lesson, location_in, LocationsAfter};

use crate::keep::put;
use crate::keys::NameAt;
use chorus_entry::{Act, Answer, Entry};
use chorus_ui::{Layout, Ui};
use chorus_world::{Location, Sent};
use std::collections::HashMap;

/// What an entry teaches its place: where a port is.
#[derive(Clone, Copy)]
pub(crate) struct Lesson {
    pub port: Ui,
    pub location: Location,
}

/// Where the answer in a Told entry says that the port is.
fn taught(answer: Answer) -> Option<Location>
    ensures { result ≡ taught answer }
{
    match answer {
        Answer::Stale { to, hop } | Answer::Elsewhere { to, hop } => Some(Location { to, hop }),
        _ => None,
    }
}

/// The farther of the location that a place knows and the one that an entry teaches it, the first where they are as far.
fn farther(known: Location, learned: Option<Location>) -> Location
    ensures { result ≡ farther known learned }
{
    match learned {
        Some(location) if known.hop < location.hop => location,
        _ => known,
    }
}

/// Where a place with no row of the port locates it, as far as its name tells: at its creation place, and at no place,
/// which is 0, where the layout has no such site.
fn named_location(layout: Layout, port: Ui) -> Location
    ensures { result ≡ named_location layout port }
{
    let to = if layout.has_site(port.site()) {
        layout.place_at(port.site(), port)
    } else {
        0
    };
    Location { to, hop: 0 }
}

/// Where the place locates the port, by its row of the port, or by the port's name where it has none.
pub fn location_in(locations: &HashMap<NameAt, Location>, layout: Layout, key: &NameAt) -> Location
    ensures { result ≡ location_in layout locations.now key.now }
{
    match locations.get(key) {
        Some(location) => *location,
        None => named_location(layout, key.name),
    }
}

/// What the entry teaches its place of where a port is, where its message was sent from there as `sent` says.
fn lesson_of(entry: &Entry, sent: Option<Sent>) -> Option<Lesson>
    ensures { result ≡ lesson entry.now.place sent entry.now.act }
{
    match &entry.act {
        Act::Arrive { port, hop } => Some(Lesson {
            port: *port,
            location: Location {
                to: entry.place,
                hop: *hop,
            },
        }),
        Act::Depart { port, to, hop, .. } => Some(Lesson {
            port: *port,
            location: Location { to: *to, hop: *hop },
        }),
        Act::Told { answer, .. } => match sent {
            Some(sent) => match taught(*answer) {
                Some(location) => Some(Lesson {
                    port: sent.port,
                    location,
                }),
                None => None,
            },
            None => None,
        },
        _ => None,
    }
}

/// The rows of where each place locates each port, after the entry.
pub fn follow_locations(
    locations: &mut HashMap<NameAt, Location>,
    layout: Layout,
    entry: &Entry,
    sent: Option<Sent>,
)
    requires { 0 < spare locations.old }
    ensures { LocationsAfter entry.now sent
        (location_in layout locations.old) (location_in layout locations.new) }
{
    if let Some(lesson) = lesson_of(entry, sent) {
        let key = NameAt {
            place: entry.place,
            name: lesson.port,
        };
        let known = location_in(locations, layout, &key);
        put(locations, key, farther(known, Some(lesson.location)));
    }
}
