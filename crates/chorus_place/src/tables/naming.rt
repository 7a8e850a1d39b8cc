//! The names that a place gives.

ghost use Rattle.std.specs.Prelude.{◌≡◌, ◌<◌, true, false};
ghost use Rattle.chorus_ui.specs.Layout.{has_site};
ghost use Rattle.chorus_ui.specs.declared.limits.TheConstants.{GROUPS_PER_SITE_LIMIT};
ghost use Rattle.chorus_world.specs.Groups.{groups_made};
ghost use Rattle.chorus_world.specs.Steps.{is_full_of_ports};
ghost use Rattle.law_machine.specs.Own.{next_group, next_port};
ghost use Rattle.chorus_place.specs.PlaceTables.Tables.{state};

use crate::tables::Tables;
use chorus_ui::{Kind, PORTS_PER_SITE_LIMIT, Ui};

/// Whether the place made as many ports as it may, so that it gives no further name of a port.
pub(crate) fn has_made_all(tables: &Tables) -> bool
    ensures { result ≡ is_full_of_ports tables.now.layout tables.now.journal.past }
{
    tables.ports_made() >= PORTS_PER_SITE_LIMIT / u64::from(tables.layout().turns())
}

/// The name of the port that the place makes next, for an actor of its site.
pub(crate) fn next_port(tables: &Tables, actor: Ui) -> Ui
    requires few { is_full_of_ports tables.now.layout tables.now.journal.past ≡ false }
    ensures { result ≡ next_port (state tables.now) actor }
{
    let turns = u64::from(tables.layout().turns());
    let made = tables.ports_made();
    let number = made * turns + (u64::from(tables.number()) - 1) % turns + 1;
    Ui::new(actor.site(), Kind::Port, number).unwrap()
}

/// The name of the group that the place makes next, of its site.
pub(crate) fn next_group(tables: &Tables, site: u16) -> Ui
    requires site { has_site tables.now.layout site ≡ true }
    requires few { groups_made tables.now.journal.past < GROUPS_PER_SITE_LIMIT }
    ensures { result ≡ next_group (state tables.now) site }
{
    let number = tables.groups_made() + 1;
    Ui::new(site, Kind::Group, number).unwrap()
}
