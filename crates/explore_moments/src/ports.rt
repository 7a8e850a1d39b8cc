//! The lines of ports: who holds each, and what it accepted.

ghost use Rattle.std.specs.Prelude.{◌≡◌, ◌++◌, ℕ, length, map, reverse, IfOk, OnOk, Some};
ghost use Rattle.std.specs.List.{flat_map};
ghost use Rattle.std.specs.Option.{option_copied};
ghost use Rattle.law_explore.specs.Outcome.{Accepted as HasAccepted, held_in, made_at, made_by, made_in};
ghost use Rattle.law_explore.specs.Moment.{accept_in, accepts_by, accepts_in, at_position, in_order, place_facts};
ghost use Rattle.explore_report.specs.Facts.{fact_line, outcome_lines};
ghost use Rattle.explore_report.specs.Outcomes.{held_line};
ghost use Rattle.explore_moments.specs.Moments.{accepted_as, states};

use chorus_entry::{Act, Entry, MsgId, PortRecord};
use chorus_place::Place;
use chorus_ui::Ui;
use explore_report::{push_accepted, push_held};
use std::alloc::{AllocError, Global};

/// A message that a port accepted.
#[derive(Clone, Copy, PartialEq, Eq)]
pub struct Accepted {
    /// Its position there, from 0.
    pub position: u64,
    /// The message.
    pub id: MsgId,
}

/// Appends the lines of the ports that the places made: of those that are held who holds them and what waits there, and behind them
/// of all what they accepted. The only error is want of memory; the lines may then be cut off.
pub fn push_ports(alloc: Global, places: &[Place], text: &mut Vec<u8>) -> Result<(), AllocError>
    ensures { OnOk result (text.new.items
        ≡ text.old.items ++ outcome_lines (place_facts (states places.now))) }
{
    let made = made_at(alloc, places)?;
    push_all_held(&made, places, text)?;
    push_all_accepted(alloc, &made, places, text)
}

/// The ports that the places made, in the order in which each made them.
fn made_at(alloc: Global, places: &[Place]) -> Result<Vec<Ui>, AllocError>
    ensures { IfOk result (λ made. made.items ≡ made_at (states places.now)) }
{
    let mut made = Vec::new(alloc);
    for place in places {
        push_made(place.journal(), &mut made)?;
    }
    Ok(made)
}

/// Appends the ports that the journal makes, in order.
fn push_made(journal: &[Entry], made: &mut Vec<Ui>) -> Result<(), AllocError>
    ensures { OnOk result (made.new.items ≡ made.old.items ++ made_by (reverse journal.now)) }
{
    for entry in journal {
        push_port(&entry.act, made)?;
    }
    Ok(())
}

/// Appends the port that the act makes, if it makes one.
fn push_port(act: &Act, made: &mut Vec<Ui>) -> Result<(), AllocError>
    ensures { OnOk result (made.new.items ≡ made.old.items ++ made_in act.now) }
{
    match act {
        Act::Make { port, .. } => {
            made.push(*port)?;
            Ok(())
        }
        _ => Ok(()),
    }
}

/// Appends the lines of those of the ports that are held.
fn push_all_held(made: &[Ui], places: &[Place], text: &mut Vec<u8>) -> Result<(), AllocError>
    ensures { OnOk result (text.new.items ≡ text.old.items
        ++ flat_map (λ (q : Ui). held_line (held_in q (states places.now))) made.now) }
{
    for port in made {
        push_if_held(held_in(*port, places), text)?;
    }
    Ok(())
}

/// Appends the line of the port, where it is held.
fn push_if_held(held: Option<&PortRecord>, text: &mut Vec<u8>) -> Result<(), AllocError>
    ensures { OnOk result
        (text.new.items ≡ text.old.items ++ held_line (option_copied held.entry)) }
{
    match held {
        Some(port) => push_held(port, text),
        None => Ok(()),
    }
}

/// The record of the port, where one of the places holds it.
fn held_in<'a>(port: Ui, places: &'a [Place]) -> Option<&'a PortRecord>
    ensures { option_copied result ≡ held_in port (states places.now) }
{
    for place in places {
        if let Some(held) = place.tables().ports().get(port) {
            return Some(held);
        }
    }
    None
}

/// Appends the lines of what the ports accepted.
fn push_all_accepted(
    alloc: Global,
    made: &[Ui],
    places: &[Place],
    text: &mut Vec<u8>,
) -> Result<(), AllocError>
    ensures { OnOk result (text.new.items ≡ text.old.items ++ flat_map (λ (q : Ui).
        fact_line (HasAccepted q (in_order (accepts_in q (states places.now))))) made.now) }
{
    for port in made {
        let ids = accepted_by(alloc, *port, places)?;
        push_accepted(*port, &ids, text)?;
    }
    Ok(())
}

/// The messages that the port accepted, in their order.
fn accepted_by(alloc: Global, port: Ui, places: &[Place]) -> Result<Vec<MsgId>, AllocError>
    ensures { IfOk result (λ ids. ids.items ≡ in_order (accepts_in port (states places.now))) }
{
    let mut accepts = Vec::new(alloc);
    push_all_accepts(port, places, &mut accepts)?;
    in_order(alloc, &accepts)
}

/// Appends what the port accepted, as the places tell of it.
fn push_all_accepts(
    port: Ui,
    places: &[Place],
    accepts: &mut Vec<Accepted>,
) -> Result<(), AllocError>
    ensures { OnOk result (map accepted_as accepts.new.items
        ≡ map accepted_as accepts.old.items ++ accepts_in port (states places.now)) }
{
    for place in places {
        push_accepts(port, place.journal(), accepts)?;
    }
    Ok(())
}

/// Appends what the port accepted by the journal.
pub fn push_accepts(
    port: Ui,
    journal: &[Entry],
    accepts: &mut Vec<Accepted>,
) -> Result<(), AllocError>
    ensures { OnOk result (map accepted_as accepts.new.items
        ≡ map accepted_as accepts.old.items ++ accepts_by port (reverse journal.now)) }
{
    for entry in journal {
        push_accept(port, &entry.act, accepts)?;
    }
    Ok(())
}

/// Appends what the port accepts by the act, if it does.
fn push_accept(port: Ui, act: &Act, accepts: &mut Vec<Accepted>) -> Result<(), AllocError>
    ensures { OnOk result (map accepted_as accepts.new.items
        ≡ map accepted_as accepts.old.items ++ accept_in port act.now) }
{
    match act {
        Act::Accept { id, port: by, pos } => {
            if *by == port {
                accepts.push(Accepted {
                    position: *pos,
                    id: *id,
                })?;
            }
            Ok(())
        }
        _ => Ok(()),
    }
}

/// The messages that were accepted, by their positions.
fn in_order(alloc: Global, accepts: &[Accepted]) -> Result<Vec<MsgId>, AllocError>
    ensures { IfOk result (λ ids. ids.items ≡ in_order (map accepted_as accepts.now)) }
{
    let mut ids = Vec::new(alloc);
    for index in 0..accepts.len() {
        if let Some(id) = at_position(accepts, index as u64) {
            ids.push(id)?;
        }
    }
    Ok(ids)
}

/// The first of the messages that was accepted at the position.
fn at_position(accepts: &[Accepted], position: u64) -> Option<MsgId>
    ensures { result ≡ at_position (map accepted_as accepts.now) position }
{
    for accepted in accepts {
        if accepted.position == position {
            return Some(accepted.id);
        }
    }
    None
}
