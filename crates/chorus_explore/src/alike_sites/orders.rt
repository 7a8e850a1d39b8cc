//! What claims see of two journals besides: what each port accepted, and to which member each copy goes.

ghost use Rattle.std.specs.Prelude.{◌≡◌, true, reverse, IfOk};
ghost use Rattle.law_explore.specs.Moment.{accepts_by, sent_by};
ghost use Rattle.law_explore.specs.Positions.{OrderAlike};
ghost use Rattle.chorus_explore.specs.AlikeSites.Orders.{AgreeOn, AgreeOnAll};

use chorus_entry::{Act, Entry, MsgId};
use chorus_ui::Ui;
use explore_moments::{Accepted, Copied, push_accepts, push_sent};
use std::alloc::{AllocError, Global};

/// Whether the same message was accepted, at one position.
fn is_same_accept(one: &Accepted, other: &Accepted) -> bool
    ensures { result ≡ true → one.now ≡ other.now }
{
    one.position == other.position && one.id == other.id
}

/// Whether the same messages were accepted at the same positions, in one order.
fn are_same_accepts(one: &[Accepted], other: &[Accepted]) -> bool
    ensures { result ≡ true → one.now ≡ other.now }
{
    if one.len() != other.len() {
        return false;
    }
    for at in 0..one.len() {
        if !is_same_accept(&one[at], &other[at]) {
            return false;
        }
    }
    true
}

/// Whether the same copy goes to one member.
fn is_same_copy(one: &Copied, other: &Copied) -> bool
    ensures { result ≡ true → one.now ≡ other.now }
{
    one.id == other.id && one.port == other.port
}

/// Whether the same copies go to the same members, in one order.
fn are_same_copies(one: &[Copied], other: &[Copied]) -> bool
    ensures { result ≡ true → one.now ≡ other.now }
{
    if one.len() != other.len() {
        return false;
    }
    for at in 0..one.len() {
        if !is_same_copy(&one[at], &other[at]) {
            return false;
        }
    }
    true
}

/// Whether the port accepted the same by both journals.
fn accept_same(alloc: Global, port: Ui, one: &[Entry], other: &[Entry]) -> Result<bool, AllocError>
    ensures { IfOk result (λ same. same ≡ true →
        accepts_by port (reverse one.now) ≡ accepts_by port (reverse other.now)) }
{
    let mut accepts = Vec::new(alloc);
    push_accepts(port, one, &mut accepts)?;
    let mut others = Vec::new(alloc);
    push_accepts(port, other, &mut others)?;
    let same = are_same_accepts(accepts.as_slice(), others.as_slice());
    Ok(same)
}

/// Whether both journals make the same copies of the message, for the same members.
fn send_same(alloc: Global, id: MsgId, one: &[Entry], other: &[Entry]) -> Result<bool, AllocError>
    ensures { IfOk result (λ same. same ≡ true →
        sent_by id (reverse one.now) ≡ sent_by id (reverse other.now)) }
{
    let mut copies = Vec::new(alloc);
    push_sent(id, one, &mut copies)?;
    let mut others = Vec::new(alloc);
    push_sent(id, other, &mut others)?;
    let same = are_same_copies(copies.as_slice(), others.as_slice());
    Ok(same)
}

/// Whether the journals agree on the port that accepts by the act, or on the message of which it makes copies.
fn agree_on(alloc: Global, act: &Act, one: &[Entry], other: &[Entry]) -> Result<bool, AllocError>
    ensures { IfOk result (λ same. same ≡ true →
        AgreeOn (reverse one.now) (reverse other.now) act.now) }
{
    match act {
        Act::Accept { port, .. } => accept_same(alloc, *port, one, other),
        Act::Choose { id, .. } => send_same(alloc, *id, one, other),
        _ => Ok(true),
    }
}

/// Whether the journals agree so on these entries.
fn agree_on_all(
    alloc: Global,
    entries: &[Entry],
    one: &[Entry],
    other: &[Entry],
) -> Result<bool, AllocError>
    ensures { IfOk result (λ same. same ≡ true →
        AgreeOnAll (reverse one.now) (reverse other.now) entries.now) }
{
    for entry in entries {
        if !agree_on(alloc, &entry.act, one, other)? {
            return Ok(false);
        }
    }
    Ok(true)
}

/// Whether by both journals each port accepted the same messages in one order, and each copy goes to the same member.
pub(crate) fn are_in_one_order(
    alloc: Global,
    one: &[Entry],
    other: &[Entry],
) -> Result<bool, AllocError>
    ensures { IfOk result (λ same. same ≡ true →
        OrderAlike (reverse one.now) (reverse other.now)) }
{
    if !agree_on_all(alloc, one, one, other)? {
        return Ok(false);
    }
    let back = agree_on_all(alloc, other, one, other)?;
    Ok(back)
}
