//! Lawful packets: those that a place works off.

ghost use Rattle.std.specs.Prelude.{◌≡◌, ◌==◌, ◌&&◌, ◌||◌, not, nat_le, true, is_none};
ghost use Rattle.chorus_ui.specs.Layout.{has_site, has_place, can_make_port, creation_place, group_place, place_at, site_of};
ghost use Rattle.chorus_ui.specs.NameKind.{is_port};
ghost use Rattle.chorus_entry.specs.Ranges.{has_ranges_of_record, has_ranges_of_cargo, has_ranges};
ghost use Rattle.chorus_entry.specs.Same.{is_number};
ghost use Rattle.chorus_ports.specs.Table.{find};
ghost use Rattle.place_unsettled.specs.Queues.{queue};
ghost use Rattle.chorus_world.specs.Places.{is_made_here};
ghost use Rattle.law_machine.specs.Lawful.{is_under_way, is_known_answer, may_teach, may_receive, is_asked_here, is_lawful_cargo, is_lawful};
ghost use Rattle.chorus_place.specs.PlaceTables.Tables.{state, end_of};

use crate::tables::Tables;
use chorus_entry::{Answer, Cargo, MsgId, Packet, PortRecord};
use chorus_ui::{Layout, Ui};
use place_ranges::has_ranges;
use place_unsettled::Key;

/// Whether the place that an answer names is one of the layout, as it is in a lawful packet.
fn is_known_answer(layout: Layout, answer: Answer) -> bool
    ensures { result ≡ is_known_answer layout answer }
{
    match answer {
        Answer::Stale { to, .. } | Answer::Elsewhere { to, .. } => layout.has_place(to),
        _ => true,
    }
}

/// Whether what an answer in a packet teaches of the port may be learned: the layout can make the port, and the hop is at least 1.
fn may_teach(layout: Layout, port: Ui, answer: Answer) -> bool
    requires { is_port port ≡ true }
    ensures { result ≡ may_teach layout port answer }
{
    match answer {
        Answer::Stale { hop, .. } | Answer::Elsewhere { hop, .. } => {
            layout.can_make_port(port) && 1 <= hop
        }
        _ => true,
    }
}

/// Whether the position of the next message of a port that a packet brings is not above the packet's clock.
fn ends_by(port: &PortRecord, clock: u64) -> bool
    ensures { result ≡ nat_le (end_of port.now) clock }
{
    let waiting = port.pending.len() as u64;
    port.first <= clock && waiting <= clock - port.first
}

/// Whether a packet that came from the place `from` may be worked off.
pub(crate) fn is_lawful(tables: &Tables, from: u16, packet: &Packet) -> bool
    ensures { result ≡ is_lawful from packet.now (state tables.now) }
{
    packet.from == from
        && from != tables.number()
        && tables.layout().has_place(from)
        && has_ranges(packet)
        && is_lawful_cargo(tables, packet.clock, from, &packet.cargo)
}

/// Whether the contents of a packet of the place `from`, with this clock and within their ranges, may be worked off.
fn is_lawful_cargo(tables: &Tables, clock: u64, from: u16, cargo: &Cargo) -> bool
    requires { has_ranges_of_cargo clock cargo.now ≡ true }
    ensures { result ≡ is_lawful_cargo clock from cargo.now (state tables.now) }
{
    match cargo {
        Cargo::Try { port, .. } => tables.layout().has_site(port.site()),
        Cargo::Verdict {
            id,
            port,
            route,
            answer,
        } => {
            let key = Key {
                port: *port,
                route: *route,
            };
            is_under_way(tables, *id, from, &key)
                && is_known_answer(tables.layout(), *answer)
                && may_teach(tables.layout(), *port, *answer)
        }
        Cargo::Transfer { port } => may_receive(tables, clock, port),
        Cargo::Ask { dest, .. } => is_asked_here(tables, dest.group()),
        Cargo::Report { id, answer } => {
            tables.unheard().is_unheard(*id) && is_known_answer(tables.layout(), *answer)
        }
    }
}

/// Whether the first message of the port and route of a verdict has this id and is under way to the place.
fn is_under_way(tables: &Tables, id: MsgId, place: u16, key: &Key) -> bool
    ensures { result ≡ is_under_way id place (queue tables.now.waits key.now) }
{
    match tables.waits().first_under_way(key, place) {
        Some(wait) => wait.message.id == id,
        None => false,
    }
}

/// Whether the port that a packet brings may be held here: this is its place on this site, it is not held here, and it was made
/// here if anywhere; its actor is one of this site; it moved at least once; and no position of its messages is above the clock.
fn may_receive(tables: &Tables, clock: u64, port: &PortRecord) -> bool
    requires { has_ranges_of_record clock port.now ≡ true }
    ensures { result ≡ may_receive clock port.now (state tables.now) }
{
    if !tables.layout().can_make_port(port.ui) {
        return false;
    }
    stands_here(tables, port.ui)
        && is_absent(tables, port.ui)
        && tables.layout().home(port.actor).is_some()
        && is_own_site(tables, port.actor.site())
        && 1 <= port.hop
        && is_made_if_own(tables, port.ui)
        && ends_by(port, clock)
}

/// Whether the site, that of the actor of a port that a packet brings, is the place's own.
fn is_own_site(tables: &Tables, site: u16) -> bool
    ensures { result ≡ (site == site_of tables.now.layout tables.now.number) }
{
    site == tables.layout().site_of(tables.number())
}

/// Whether a port that a packet brings stands, on the place's own site, at this place.
fn stands_here(tables: &Tables, port: Ui) -> bool
    ensures { result ≡
        (place_at tables.now.layout (site_of tables.now.layout tables.now.number) port
        == tables.now.number) }
{
    let site = tables.layout().site_of(tables.number());
    tables.layout().place_at(site, port) == tables.number()
}

/// Whether the port that a packet brings is not held here.
fn is_absent(tables: &Tables, port: Ui) -> bool
    ensures { result ≡ is_none (find port tables.now.ports.records) }
{
    match tables.ports().get(port) {
        Some(_) => false,
        None => true,
    }
}

/// Whether the port that a packet brings, which the layout can make, was made here if this is its creation place.
fn is_made_if_own(tables: &Tables, port: Ui) -> bool
    requires { can_make_port tables.now.layout port ≡ true }
    ensures { result ≡ not (creation_place tables.now.layout port == tables.now.number)
        || is_made_here port tables.now.journal.past }
{
    tables.layout().place_at(port.site(), port) != tables.number() || tables.is_made(port)
}

/// Whether there is a group, as in a lawful Ask, and this is its place.
fn is_asked_here(tables: &Tables, group: Option<Ui>) -> bool
    ensures { result ≡ is_asked_here group (state tables.now) }
{
    match group {
        Some(group) => is_place_of(tables, group),
        None => false,
    }
}

/// Whether this is the place of the group, as in a lawful Ask.
fn is_place_of(tables: &Tables, group: Ui) -> bool
    ensures { result ≡ is_number tables.now.number (group_place tables.now.layout group) }
{
    let site = group.site();
    tables.layout().has_site(site) && tables.layout().first_place(site) == tables.number()
}
