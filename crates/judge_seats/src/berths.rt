//! Where each port is, in a table, and what an act asks of the actor of its caller.

ghost use Rattle.std.specs.Prelude.{◌≡◌, OnOk};
ghost use Rattle.chorus_world.specs.Ports.{arrived};
ghost use Rattle.judge_seats.specs.Berths.{berth_after, berth_in, come, gone_to, holder, holder_at, missed_in, moved, needed_in, with_spot, BerthsAfter, IsBerthed};

use checker_rows::keys::PortKey;
use chorus_entry::{Act, Entry};
use chorus_ui::Ui;
use chorus_world::Spot;
use std::alloc::AllocError;
use std::collections::HashMap;

/// Where a port is.
#[derive(Clone, Copy)]
pub struct Berth {
    /// The last place of its path.
    pub place: u16,
    /// Whether it is held, moving or deleted.
    pub spot: Spot,
}

/// Where the port is, by its row in the table.
pub(crate) fn berth_in(berths: &HashMap<PortKey, Berth>, port: Ui) -> Option<Berth>
    ensures { result ≡ berth_in berths.now port }
{
    berths.get(&PortKey { port }).copied()
}

/// The actor that holds the port with this spot of its berth.
fn holder(spot: Spot) -> Option<Ui>
    ensures { result ≡ holder spot }
{
    match spot {
        Spot::Held(actor) => Some(actor),
        _ => None,
    }
}

/// The actor that holds, at the place, the port with this berth.
fn holder_at(place: u16, berth: Option<Berth>) -> Option<Ui>
    ensures { result ≡ holder_at place berth }
{
    let berth = berth?;
    if berth.place == place {
        holder(berth.spot)
    } else {
        None
    }
}

/// The actor in which the caller of the entry has to be: that which holds the port.
pub(crate) fn needed_in(berths: &HashMap<PortKey, Berth>, entry: &Entry) -> Option<Ui>
    ensures { result ≡ needed_in (berth_in berths.now) entry.now.place entry.now.act }
{
    match &entry.act {
        Act::Take { port, .. }
        | Act::Empty { port }
        | Act::Rehome { port, .. }
        | Act::Depart { port, .. }
        | Act::Delete { port, .. } => holder_at(entry.place, berth_in(berths, *port)),
        _ => None,
    }
}

/// The actor in which the caller of the entry cannot be: that which holds the port that it does not find.
pub(crate) fn missed_in(berths: &HashMap<PortKey, Berth>, entry: &Entry) -> Option<Ui>
    ensures { result ≡ missed_in (berth_in berths.now) entry.now.place entry.now.act }
{
    match &entry.act {
        Act::NotHere { port } => holder_at(entry.place, berth_in(berths, *port)),
        _ => None,
    }
}

/// A berth with another spot.
fn with_spot(spot: Spot, berth: Option<Berth>) -> Option<Berth>
    ensures { result ≡ with_spot spot berth }
{
    let berth = berth?;
    Some(Berth {
        place: berth.place,
        spot,
    })
}

/// A berth once its port has gone to the actor's place.
fn gone_to(place: u16, actor: Ui, berth: Option<Berth>) -> Option<Berth>
    ensures { result ≡ gone_to place actor berth }
{
    match berth {
        Some(_) => Some(Berth {
            place,
            spot: Spot::Moving(actor),
        }),
        None => None,
    }
}

/// The spot of a berth once its port has come.
fn arrived(spot: Spot) -> Spot
    ensures { result ≡ arrived spot }
{
    match spot {
        Spot::Moving(actor) => Spot::Held(actor),
        other => other,
    }
}

/// A berth once its port has come.
fn come(berth: Option<Berth>) -> Option<Berth>
    ensures { result ≡ come berth }
{
    let berth = berth?;
    Some(Berth {
        place: berth.place,
        spot: arrived(berth.spot),
    })
}

/// A berth after an act on the line of its port at the place.
fn berth_after(place: u16, act: &Act, berth: Option<Berth>) -> Option<Berth>
    ensures { result ≡ berth_after place act.now berth }
{
    match act {
        Act::Make { actor, .. } => Some(Berth {
            place,
            spot: Spot::Held(*actor),
        }),
        Act::Rehome { actor, .. } => with_spot(Spot::Held(*actor), berth),
        Act::Depart { to, actor, .. } => gone_to(*to, *actor, berth),
        Act::Arrive { .. } => come(berth),
        Act::Delete { .. } => with_spot(Spot::Ended, berth),
        _ => berth,
    }
}

/// The port whose berth the act changes.
fn moved(act: &Act) -> Option<Ui>
    ensures { result ≡ moved act.now }
{
    match act {
        Act::Make { port, .. }
        | Act::Rehome { port, .. }
        | Act::Depart { port, .. }
        | Act::Arrive { port, .. }
        | Act::Delete { port, .. } => Some(*port),
        _ => None,
    }
}

/// Puts the port's berth into the table, in place of the one that it has.
fn put_berth(berths: &mut HashMap<PortKey, Berth>, port: Ui, berth: Berth) -> Result<(), AllocError>
    ensures { OnOk result (IsBerthed port berth (berth_in berths.old) (berth_in berths.new)) }
{
    if let Some(row) = berths.get_mut(&PortKey { port }) {
        *row = berth;
        return Ok(());
    }
    berths.insert(PortKey { port }, berth)?;
    Ok(())
}

/// The berths after the entry.
pub(crate) fn follow_berths(
    berths: &mut HashMap<PortKey, Berth>,
    entry: &Entry,
) -> Result<(), AllocError>
    ensures { OnOk result (BerthsAfter entry.now (berth_in berths.old) (berth_in berths.new)) }
{
    let Some(port) = moved(&entry.act) else {
        return Ok(());
    };
    if let Some(berth) = berth_after(entry.place, &entry.act, berth_in(berths, port)) {
        put_berth(berths, port, berth)?;
    }
    Ok(())
}
