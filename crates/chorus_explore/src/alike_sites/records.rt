//! Messages, and the records of ports with the messages that wait in them.

ghost use Rattle.std.specs.Prelude.{◌≡◌, true};
ghost use Rattle.std.specs.Option.{option_copied};

use chorus_entry::{ClientTable, Message, Pending, PortRecord};

/// Whether the messages are the same.
pub(crate) fn is_same_message(one: &Message, other: &Message) -> bool
    ensures { result ≡ true → one.now ≡ other.now }
{
    one == other
}

/// Whether the messages are the same, or none is there.
fn is_same_at(one: Option<&Message>, other: Option<&Message>) -> bool
    ensures { result ≡ true → option_copied one.entry ≡ option_copied other.entry }
{
    match one {
        Some(message) => match other {
            Some(same) => is_same_message(message, same),
            None => false,
        },
        None => other.is_none(),
    }
}

/// Whether the same messages wait in two ports, in one order.
fn is_same_pending(one: &Pending, other: &Pending) -> bool
    ensures { result ≡ true → one.now ≡ other.now }
{
    if one.len() != other.len() {
        return false;
    }
    for at in 0..one.len() {
        if !is_same_at(one.get(at), other.get(at)) {
            return false;
        }
    }
    true
}

/// Whether the clients that two port records remember, and their numbers, are the same, or none is there.
fn is_same_client(one: Option<(u32, u32)>, other: Option<(u32, u32)>) -> bool
    ensures { result ≡ true → one ≡ other }
{
    match one {
        Some((client, number)) => match other {
            Some((c, n)) => client == c && number == n,
            None => false,
        },
        None => other.is_none(),
    }
}

/// Whether two port records remember the same clients, in one order.
fn is_same_clients(one: &ClientTable, other: &ClientTable) -> bool
    ensures { result ≡ true → one.now ≡ other.now }
{
    if one.len() != other.len() {
        return false;
    }
    for at in 0..one.len() {
        if !is_same_client(one.get(at), other.get(at)) {
            return false;
        }
    }
    true
}

/// Whether the records are the same.
pub(crate) fn is_same_record(one: &PortRecord, other: &PortRecord) -> bool
    ensures { result ≡ true → one.now ≡ other.now }
{
    one.ui == other.ui
        && one.actor == other.actor
        && one.capacity == other.capacity
        && one.hop == other.hop
        && one.first == other.first
        && is_same_pending(&one.pending, &other.pending)
        && is_same_clients(&one.clients, &other.clients)
}

/// Whether the records are the same, in one order.
pub(crate) fn are_same_records(one: &[PortRecord], other: &[PortRecord]) -> bool
    ensures { result ≡ true → one.now ≡ other.now }
{
    if one.len() != other.len() {
        return false;
    }
    for at in 0..one.len() {
        if !is_same_record(&one[at], &other[at]) {
            return false;
        }
    }
    true
}
