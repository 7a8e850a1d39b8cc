//! The eight ports, each of an actor of its site.
ghost use Rattle.std.specs.Prelude.{◌≡◌, ◌≤◌};
ghost use Rattle.chorus_run.specs.DrawnCrew.Names.{crew_actor, crew_pair, crew_pairs, crew_port};

use chorus_ui::{Kind, Ui};

/// The ports, one of each of the first sites.
pub const CREW_PORTS: u16 = 8;

/// The actor of a site, from 1: it holds the site's port.
pub(crate) fn crew_actor(site: u16) -> Ui
    requires { 1 ≤ site }
    ensures { result ≡ crew_actor site }
{
    Ui::new(site, Kind::Actor, 1).unwrap()
}

/// The port of a site, from 1.
pub(crate) fn crew_port(site: u16) -> Ui
    requires { 1 ≤ site }
    ensures { result ≡ crew_port site }
{
    Ui::new(site, Kind::Port, 1).unwrap()
}

/// The port of a site with the actor that takes from it.
fn crew_pair(site: u16) -> (Ui, Ui)
    requires { 1 ≤ site }
    ensures { result ≡ crew_pair site }
{
    (crew_port(site), crew_actor(site))
}

/// The ports with their actors.
pub(crate) fn crew_pairs() -> [(Ui, Ui); 8]
    ensures { result ≡ crew_pairs }
{
    [
        crew_pair(1),
        crew_pair(2),
        crew_pair(3),
        crew_pair(4),
        crew_pair(5),
        crew_pair(6),
        crew_pair(7),
        crew_pair(8),
    ]
}
