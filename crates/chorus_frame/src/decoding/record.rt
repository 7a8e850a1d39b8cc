//! The record of a port.

ghost use Rattle.std.specs.Prelude.{◌≡◌, ◌≤◌, ◌+◌, [], length, IfOk, IsNone};
ghost use Rattle.chorus_entry.specs.ClientTable.{number_of};
ghost use Rattle.chorus_frame.specs.Calls.{Reads, Fills};
ghost use Rattle.chorus_frame.specs.Reading.{capacity_at, messages_at, pending_at, client_at, entries_at, clients_at, record_at};

use super::message::message_from;
use super::number::{name_from, positive_from, up_to_clock_from};
use crate::fault::DecodeFault;
use crate::reader::Reader;
use chorus_entry::{CLIENTS_LIMIT, ClientTable, PENDING_LIMIT, Pending, PortRecord};
use chorus_ui::Kind;
use std::alloc::Global;

/// The most messages that the port of a record holds.
#[tactic(auto, unfolding(crate::specs::Numbers::tested_at))]
fn capacity_from(reader: &mut Reader<'_>) -> Result<u8, DecodeFault>
    ensures reads { Reads result reader.new (capacity_at reader.old) }
    ensures least { IfOk result (λ capacity. 1 ≤ capacity) }
    ensures most { IfOk result (λ capacity. capacity ≤ PENDING_LIMIT) }
{
    let capacity = reader.u8()?;
    if capacity == 0 || usize::from(capacity) > PENDING_LIMIT {
        return Err(DecodeFault::Range);
    }
    Ok(capacity)
}

/// So many messages of a port's record, each put last into its queue.
fn messages_from(
    alloc: Global,
    reader: &mut Reader<'_>,
    count: u8,
    pending: &mut Pending,
) -> Result<(), DecodeFault>
    requires { length pending.old + count ≤ PENDING_LIMIT }
    ensures { Fills result pending.new reader.new (messages_at pending.old count reader.old) }
{
    for _ in 0..count {
        let message = message_from(alloc, reader)?;
        pending.push(message);
    }
    Ok(())
}

/// The number of messages in a port's record, and the messages, put into an empty queue.
#[tactic(auto, unfolding(crate::specs::Reading::pending_at, crate::specs::Numbers::tested_at))]
fn pending_from(
    alloc: Global,
    reader: &mut Reader<'_>,
    capacity: u8,
    pending: &mut Pending,
) -> Result<(), DecodeFault>
    requires empty { pending.old ≡ [] }
    requires most { capacity ≤ PENDING_LIMIT }
    ensures { Fills result pending.new reader.new (pending_at capacity reader.old) }
{
    let count = reader.u8()?;
    if count > capacity {
        return Err(DecodeFault::Range);
    }
    messages_from(alloc, reader, count, pending)
}

/// A client that the table of a port's record does not have, and its number.
#[tactic(auto, unfolding(crate::specs::Reading::client_at, crate::specs::Numbers::tested_at))]
fn client_from(reader: &mut Reader<'_>, clients: &ClientTable) -> Result<(u32, u32), DecodeFault>
    ensures reads { Reads result reader.new (client_at clients.now reader.old) }
    ensures absent { IfOk result (λ entry. IsNone (number_of clients.now entry.0)) }
{
    let client = reader.u32()?;
    if clients.number_of(client).is_some() {
        return Err(DecodeFault::Range);
    }
    let number = positive_from(reader)?;
    Ok((client, number))
}

/// So many clients of a port's record, each put last into its table.
fn entries_from(
    reader: &mut Reader<'_>,
    count: u8,
    clients: &mut ClientTable,
) -> Result<(), DecodeFault>
    requires { length clients.old + count ≤ CLIENTS_LIMIT }
    ensures { Fills result clients.new reader.new (entries_at clients.old count reader.old) }
{
    for _ in 0..count {
        let (client, number) = client_from(reader, clients)?;
        clients.push(client, number);
    }
    Ok(())
}

/// The number of clients in a port's record, and the clients, put into an empty table.
#[tactic(auto, unfolding(crate::specs::Reading::clients_at, crate::specs::Numbers::tested_at))]
fn clients_from(reader: &mut Reader<'_>, clients: &mut ClientTable) -> Result<(), DecodeFault>
    requires { clients.old ≡ [] }
    ensures { Fills result clients.new reader.new (clients_at reader.old) }
{
    let count = reader.u8()?;
    if usize::from(count) > CLIENTS_LIMIT {
        return Err(DecodeFault::Range);
    }
    entries_from(reader, count, clients)
}

/// The record of a port that migrates. Memory for it is taken once its first fields are read.
#[tactic(auto, unfolding(crate::specs::Reading::record_at))]
pub(super) fn record_from(
    alloc: Global,
    reader: &mut Reader<'_>,
    clock: u64,
) -> Result<PortRecord, DecodeFault>
    ensures { Reads result reader.new (record_at clock reader.old) }
{
    let ui = name_from(reader, Kind::Port)?;
    let actor = name_from(reader, Kind::Actor)?;
    let capacity = capacity_from(reader)?;
    let hop = up_to_clock_from(reader, clock)?;
    let first = up_to_clock_from(reader, clock)?;
    let mut port = PortRecord::with_room(alloc, ui, actor, capacity)?;
    port.hop = hop;
    port.first = first;
    pending_from(alloc, reader, capacity, &mut port.pending)?;
    clients_from(reader, &mut port.clients)?;
    Ok(port)
}
