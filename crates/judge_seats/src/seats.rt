//! What is known of each caller, in tables.

ghost use Rattle.std.specs.Prelude.{◌≡◌, ℕ, OnOk, nat_eq, cond, Some};
ghost use Rattle.judge_seats.specs.Seats.{agree, goes_with, is_out_in, sitting_here, sitting_in, OutAfter};

use checker_rows::keys::ClientOf;
use chorus_entry::Entry;
use chorus_ui::Ui;
use std::alloc::AllocError;
use std::collections::HashMap;

/// What the entries of a caller say of where it was.
#[derive(Clone, Copy)]
pub struct Sitting {
    /// The place of its first entry.
    pub place: u16,
    /// The clock of its last one.
    pub clock: u64,
    /// The actor in which the last one put it that did.
    pub actor: Option<Ui>,
}

/// What is known of the caller, by its row in the table.
pub(crate) fn sitting_in(sittings: &HashMap<u32, Sitting>, seat: u32) -> Option<Sitting>
    ensures { result ≡ sitting_in sittings.now seat }
{
    sittings.get(&seat).copied()
}

/// Whether both actors are one, where each is known, in which an entry puts its caller and others put it.
fn agree(one: Option<Ui>, other: Option<Ui>) -> bool
    ensures { result ≡ agree one other }
{
    match (one, other) {
        (Some(one), Some(other)) => one == other,
        _ => true,
    }
}

/// Whether the entry's clock, and the actor in which it puts its caller, go with what is known of the caller.
pub(crate) fn goes_with(actor: &Option<Ui>, entry: &Entry, row: &Option<Sitting>) -> bool
    ensures { result ≡ goes_with actor.now entry.now row.now }
{
    match row {
        None => 0 < entry.clock,
        Some(row) => row.clock < entry.clock && agree(*actor, row.actor),
    }
}

/// What is known of the entry's caller after the entry, which puts it into this actor.
pub(crate) fn sitting_here(actor: &Option<Ui>, entry: &Entry, row: &Option<Sitting>) -> Sitting
    ensures { result ≡ sitting_here actor.now entry.now row.now }
{
    match row {
        None => Sitting {
            place: entry.place,
            clock: entry.clock,
            actor: *actor,
        },
        Some(row) => Sitting {
            place: row.place,
            clock: entry.clock,
            actor: actor.or(row.actor),
        },
    }
}

/// Puts what is known of the caller into the table, in place of what was.
pub(crate) fn put_sitting(
    sittings: &mut HashMap<u32, Sitting>,
    seat: u32,
    row: &Sitting,
) -> Result<(), AllocError>
    ensures { OnOk result ((s : ℕ) → sitting_in sittings.new s
        ≡ cond (nat_eq seat s) (Some row.now) (sitting_in sittings.old s)) }
{
    if let Some(place) = sittings.get_mut(&seat) {
        *place = *row;
        return Ok(());
    }
    sittings.insert(seat, *row)?;
    Ok(())
}

/// Whether the caller was not in the actor, by the table.
pub(crate) fn is_out_in(outs: &HashMap<ClientOf, bool>, seat: u32, actor: Ui) -> bool
    ensures { result ≡ is_out_in outs.now seat actor }
{
    outs.contains_key(&ClientOf {
        port: actor,
        client: seat,
    })
}

/// Puts into the table that the caller was not in the actor.
fn put_out(outs: &mut HashMap<ClientOf, bool>, seat: u32, actor: Ui) -> Result<(), AllocError>
    ensures { OnOk result (OutAfter seat (Some actor) (is_out_in outs.old) (is_out_in outs.new)) }
{
    let key = ClientOf {
        port: actor,
        client: seat,
    };
    outs.insert(key, true)?;
    Ok(())
}

/// In which actors callers were not, after an entry of this caller that does not find a port which this actor holds.
pub(crate) fn follow_outs(
    outs: &mut HashMap<ClientOf, bool>,
    seat: u32,
    missed: Option<Ui>,
) -> Result<(), AllocError>
    ensures { OnOk result (OutAfter seat missed (is_out_in outs.old) (is_out_in outs.new)) }
{
    match missed {
        Some(actor) => put_out(outs, seat, actor),
        None => Ok(()),
    }
}
