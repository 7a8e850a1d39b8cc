//! The record of a port.

ghost use Rattle.std.specs.Prelude.{◌≡◌, ◌++◌, OnOk, OnErr, length, take};
ghost use Rattle.std.specs.List.{AllByRecursion};
ghost use Rattle.chorus_frame.specs.Spelling.{client_fields, pending_fields, clients_fields, record_fields};
ghost use Rattle.chorus_frame.specs.Held.{IsHeldMessage, IsHeldClient, IsHeldRecord};

use super::message::push_message;
use super::number::{push_name, push_u8, push_u32, push_u64};
use chorus_entry::{ClientTable, Pending, PortRecord};
use std::alloc::AllocError;

/// Appends to a frame how many messages wait in a port, and each of them, or a front of that for want of memory, here and in
/// the calls below.
fn push_pending(pending: &Pending, out: &mut Vec<u8>) -> Result<(), AllocError>
    ensures ok { OnOk result (out.new.items ≡ out.old.items ++ pending_fields pending.now) }
    ensures err { OnErr result (take (length out.old.items) out.new.items ≡ out.old.items) }
    ensures held { OnOk result (AllByRecursion IsHeldMessage pending.now) }
{
    push_u8(pending.len() as u8, out)?;
    for at in 0..pending.len() {
        match pending.get(at) {
            Some(message) => push_message(message, out)?,
            None => unreachable!(),
        }
    }
    Ok(())
}

/// Appends to a frame how many clients are remembered, and each of them.
fn push_clients(clients: &ClientTable, out: &mut Vec<u8>) -> Result<(), AllocError>
    ensures ok { OnOk result (out.new.items ≡ out.old.items ++ clients_fields clients.now) }
    ensures err { OnErr result (take (length out.old.items) out.new.items ≡ out.old.items) }
    ensures held { OnOk result (AllByRecursion IsHeldClient clients.now) }
{
    push_u8(clients.len() as u8, out)?;
    for at in 0..clients.len() {
        match clients.get(at) {
            Some((client, number)) => push_client(client, number, out)?,
            None => unreachable!(),
        }
    }
    Ok(())
}

/// Appends to a frame a client and its number.
fn push_client(client: u32, number: u32, out: &mut Vec<u8>) -> Result<(), AllocError>
    ensures ok { OnOk result (out.new.items ≡ out.old.items ++ client_fields (client, number)) }
    ensures err { OnErr result (take (length out.old.items) out.new.items ≡ out.old.items) }
    ensures held { IsHeldClient (client, number) }
{
    push_u32(client, out)?;
    push_u32(number, out)
}

/// Appends to a frame the record of a port.
pub(super) fn push_record(port: &PortRecord, out: &mut Vec<u8>) -> Result<(), AllocError>
    ensures ok { OnOk result (out.new.items ≡ out.old.items ++ record_fields port.now) }
    ensures err { OnErr result (take (length out.old.items) out.new.items ≡ out.old.items) }
    ensures held { OnOk result (IsHeldRecord port.now) }
{
    push_name(&port.ui, out)?;
    push_name(&port.actor, out)?;
    push_u8(port.capacity, out)?;
    push_u64(port.hop, out)?;
    push_u64(port.first, out)?;
    push_pending(&port.pending, out)?;
    push_clients(&port.clients, out)
}
