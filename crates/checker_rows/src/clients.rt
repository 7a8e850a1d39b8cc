//! What each port remembers of the requests that it accepted: the greatest number of each client, and of how many clients.

ghost use Rattle.std.specs.Prelude.{◌≡◌, ◌<◌, ◌^◌};
ghost use Rattle.std.specs.HashMap.{spare};
ghost use Rattle.chorus_ui.specs.declared.ui.Ui.{Ui};
ghost use Rattle.chorus_entry.specs.Clients.{raised};
ghost use Rattle.checker_rows.specs.Clients.{kept_in, clients_in, KeptAfter, ClientsAfter};

use crate::keep::put;
use crate::keys::{ClientOf, PortKey};
use chorus_entry::{Act, Entry, Tag};
use chorus_ui::Ui;
use std::collections::HashMap;

/// The number that the port keeps of the client, by the checker's row of the two.
pub fn kept_in(kept: &HashMap<ClientOf, u32>, port: Ui, client: u32) -> Option<u32>
    ensures { result ≡ kept_in kept.now port client }
{
    kept.get(&ClientOf { port, client }).copied()
}

/// Of how many clients the port keeps a number, by the checker's row of the port.
pub fn clients_in(clients: &HashMap<PortKey, usize>, port: Ui) -> usize
    ensures { result ≡ clients_in clients.now port }
{
    match clients.get(&PortKey { port }) {
        Some(count) => *count,
        None => 0,
    }
}

/// The greater of a request's number and the one that the port keeps of its client.
fn raised(number: u32, kept: Option<u32>) -> u32
    ensures { result ≡ raised number kept }
{
    match kept {
        Some(kept) => number.max(kept),
        None => number,
    }
}

/// The numbers that ports keep of clients, after the entry. The message that it accepts has this tag.
pub fn follow_kept(kept: &mut HashMap<ClientOf, u32>, entry: &Entry, tag: &Tag)
    requires { 0 < spare kept.old }
    ensures { KeptAfter tag.now entry.now (kept_in kept.old) (kept_in kept.new) }
{
    if let Act::Accept { id, port, .. } = &entry.act {
        if let Tag::Request { number, .. } = tag {
            let known = kept_in(kept, *port, id.seat);
            let key = ClientOf {
                port: *port,
                client: id.seat,
            };
            put(kept, key, raised(*number, known));
        }
    }
}

/// The counts of the clients of whom ports keep numbers, after the entry. The message that it accepts has this tag, and
/// `kept` has the numbers before it.
pub fn follow_clients(
    clients: &mut HashMap<PortKey, usize>,
    kept: &HashMap<ClientOf, u32>,
    entry: &Entry,
    tag: &Tag,
)
    requires room { 0 < spare clients.old }
    requires few { (q : Ui) → clients_in clients.old q < 2 ^ 63 }
    ensures { ClientsAfter (kept_in kept.now) tag.now entry.now
        (clients_in clients.old) (clients_in clients.new) }
{
    if let Act::Accept { id, port, .. } = &entry.act {
        if matches!(tag, Tag::Request { .. }) && kept_in(kept, *port, id.seat).is_none() {
            let count = clients_in(clients, *port) + 1;
            put(clients, PortKey { port: *port }, count);
        }
    }
}
