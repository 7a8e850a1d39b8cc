//! What is put into a port's record before a packet brings it.

use chorus_entry::{CLIENTS_LIMIT, ClientTable, Message, PENDING_LIMIT, Pending};
use std::process::Abort;

/// A message more waits in a port's record.
pub(crate) fn push_message(rt: &impl Abort, pending: &mut Pending, message: Message) {
    assert!(rt; pending.len() < PENDING_LIMIT);
    pending.push(message);
}

/// A client more is remembered in the record of a port that a packet is to bring.
pub(crate) fn push_client(rt: &impl Abort, clients: &mut ClientTable, client: u32, number: u32) {
    assert!(rt; clients.len() < CLIENTS_LIMIT);
    assert!(rt; clients.number_of(client).is_none());
    clients.push(client, number);
}
