//! Packets, kind by kind.

ghost use Rattle.chorus_frame.specs.Calls.{Reads};
ghost use Rattle.chorus_frame.specs.Reading.{asked_at, try_at, verdict_at, transfer_at, ask_at, report_at, cargo_at, packet_at};

use super::answer::{reported_from, told_from};
use super::message::{id_from, message_from};
use super::number::{name_from, only_from, place_from, route_from, up_to_clock_from};
use super::record::record_from;
use crate::fault::DecodeFault;
use crate::reader::Reader;
use chorus_entry::{Cargo, Dest, Packet};
use chorus_ui::{Kind, SITES_LIMIT};
use std::alloc::Global;

/// Of what an Ask packet carries, the mode of a post to a group, the group, and the site that the post demands or 0.
#[tactic(auto, unfolding(crate::specs::Reading::asked_at, crate::specs::Numbers::tested_at))]
fn asked_from(reader: &mut Reader<'_>) -> Result<Dest, DecodeFault>
    ensures { Reads result reader.new (asked_at reader.old) }
{
    let mode = reader.u8()?;
    if mode == 0 || mode > 3 {
        return Err(DecodeFault::Kind);
    }
    let group = name_from(reader, Kind::Group)?;
    let site = reader.u16()?;
    match (mode, site) {
        (1, 0) => Ok(Dest::All(group)),
        (2, 0) => Ok(Dest::One(group)),
        (3, 1..=SITES_LIMIT) => Ok(Dest::OneAt(group, site)),
        _ => Err(DecodeFault::Range),
    }
}

/// Decodes what a Try packet carries: the route, the site demanded, the port's hop, the port, and the message.
#[tactic(auto, unfolding(crate::specs::Reading::try_at))]
fn try_from(alloc: Global, reader: &mut Reader<'_>, clock: u64) -> Result<Cargo, DecodeFault>
    ensures { Reads result reader.new (try_at clock reader.old) }
{
    let route = route_from(reader)?;
    let only = only_from(reader)?;
    let hop = up_to_clock_from(reader, clock)?;
    let port = name_from(reader, Kind::Port)?;
    let message = message_from(alloc, reader)?;
    Ok(Cargo::Try {
        message,
        port,
        route,
        only,
        hop,
    })
}

/// Decodes what a Verdict packet carries: whose decision it is, at which port, by which route, and its answer.
#[tactic(auto, unfolding(crate::specs::Reading::verdict_at))]
fn verdict_from(reader: &mut Reader<'_>, clock: u64) -> Result<Cargo, DecodeFault>
    ensures { Reads result reader.new (verdict_at clock reader.old) }
{
    Ok(Cargo::Verdict {
        id: id_from(reader)?,
        port: name_from(reader, Kind::Port)?,
        route: route_from(reader)?,
        answer: told_from(reader, clock)?,
    })
}

/// Decodes what a Transfer packet carries: the record of the port that moves.
#[tactic(auto, unfolding(crate::specs::Reading::transfer_at))]
fn transfer_from(alloc: Global, reader: &mut Reader<'_>, clock: u64) -> Result<Cargo, DecodeFault>
    ensures { Reads result reader.new (transfer_at clock reader.old) }
{
    let port = record_from(alloc, reader, clock)?;
    Ok(Cargo::Transfer { port })
}

/// Decodes what an Ask packet carries: for which group members are to be chosen, and the post itself.
#[tactic(auto, unfolding(crate::specs::Reading::ask_at))]
fn ask_from(alloc: Global, reader: &mut Reader<'_>) -> Result<Cargo, DecodeFault>
    ensures { Reads result reader.new (ask_at reader.old) }
{
    let dest = asked_from(reader)?;
    let message = message_from(alloc, reader)?;
    Ok(Cargo::Ask { message, dest })
}

/// Decodes what a Report packet carries: the id of a post or copy, and what became of it.
#[tactic(auto, unfolding(crate::specs::Reading::report_at))]
fn report_from(reader: &mut Reader<'_>, clock: u64) -> Result<Cargo, DecodeFault>
    ensures { Reads result reader.new (report_at clock reader.old) }
{
    let id = id_from(reader)?;
    let answer = reported_from(reader, clock)?;
    Ok(Cargo::Report { id, answer })
}

/// What a packet of this kind carries.
#[tactic(auto, unfolding(crate::specs::Reading::cargo_at))]
fn cargo_from(
    alloc: Global,
    reader: &mut Reader<'_>,
    kind: u8,
    clock: u64,
) -> Result<Cargo, DecodeFault>
    ensures { Reads result reader.new (cargo_at kind clock reader.old) }
{
    match kind {
        1 => try_from(alloc, reader, clock),
        2 => verdict_from(reader, clock),
        3 => transfer_from(alloc, reader, clock),
        4 => ask_from(alloc, reader),
        _ => report_from(reader, clock),
    }
}

/// Decodes a packet, with what its kind carries; what stands behind it is left.
#[tactic(auto, unfolding(crate::specs::Reading::packet_at, crate::specs::Numbers::tested_at))]
pub(super) fn packet_from(alloc: Global, reader: &mut Reader<'_>) -> Result<Packet, DecodeFault>
    ensures { Reads result reader.new (packet_at reader.old) }
{
    let kind = reader.u8()?;
    if kind == 0 || kind > 5 {
        return Err(DecodeFault::Kind);
    }
    let clock = reader.u64()?;
    let from = place_from(reader)?;
    let cargo = cargo_from(alloc, reader, kind, clock)?;
    Ok(Packet { clock, from, cargo })
}
