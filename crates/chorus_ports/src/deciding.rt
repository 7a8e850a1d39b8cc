//! Deciding on a message at a port that is held.

ghost use Rattle.std.specs.Prelude.{◌≡◌, ◌+◌, ◌-◌, ◌<◌, false};
ghost use Rattle.chorus_ports.specs.Limits.{IsWithinLimits, HasPositionLeft};
ghost use Rattle.chorus_ports.specs.Deciding.{answer_to, after_offer};
ghost use Rattle.chorus_entry.specs.Clients.{is_repeated, is_one_too_many, remembered};

use chorus_entry::{CLIENTS_LIMIT, ClientTable, Message, PortRecord, Tag};

/// What a port answers to a message. Each refusal hands the message back.
#[derive(Drop)]
pub enum Accept {
    /// It waits in the port, at this position among all that the port ever accepted, counted from 0.
    Accepted { pos: u64 },
    /// It is a request that its client sent again: the port accepted one of this number or of a later one.
    Already(Message),
    /// It is a request of a client that is not remembered, and 64 clients are.
    ClientsFull(Message),
    /// As many messages wait as the port's capacity, 1 to 64: `len`.
    Full { len: u8, message: Message },
}

/// Whether the message is a request that the port accepted before, or is one before such a one.
fn is_repeated(clients: &ClientTable, message: &Message) -> bool
    ensures { result ≡ is_repeated message.now.id.seat message.now.tag clients.now }
{
    match &message.tag {
        Tag::Request { number, .. } => match clients.number_of(message.id.seat) {
            Some(kept) => *number <= kept,
            None => false,
        },
        Tag::Plain | Tag::Reply { .. } => false,
    }
}

/// Whether the message is a request of a client for whom the port has no room.
fn is_one_too_many(clients: &ClientTable, message: &Message) -> bool
    ensures { result ≡ is_one_too_many message.now.id.seat message.now.tag clients.now }
{
    match &message.tag {
        Tag::Request { .. } => {
            clients.number_of(message.id.seat).is_none() && clients.len() >= CLIENTS_LIMIT
        }
        Tag::Plain | Tag::Reply { .. } => false,
    }
}

/// Has the port remember the client of a request.
fn remember(clients: &mut ClientTable, message: &Message)
    requires { is_one_too_many message.now.id.seat message.now.tag clients.old ≡ false }
    ensures { clients.new ≡ remembered message.now.id.seat message.now.tag clients.old }
{
    if let Tag::Request { number, .. } = &message.tag {
        let client = message.id.seat;
        match clients.number_of(client) {
            Some(kept) => clients.set(client, (*number).max(kept)),
            None => clients.push(client, *number),
        }
    }
}

/// Decides on the message at a port that is held, and enqueues it where it is accepted. Takes no memory.
pub(crate) fn offer(port: &mut PortRecord, message: Message) -> Accept
    requires limits { IsWithinLimits port.old }
    requires positions { HasPositionLeft port.old }
    ensures answer { result ≡ answer_to message port.old }
    ensures after { port.new ≡ after_offer message port.old }
{
    if is_repeated(&port.clients, &message) {
        return Accept::Already(message);
    }
    if is_one_too_many(&port.clients, &message) {
        return Accept::ClientsFull(message);
    }
    let waiting = port.pending.len();
    if waiting == usize::from(port.capacity) {
        let len = port.capacity;
        return Accept::Full { len, message };
    }
    remember(&mut port.clients, &message);
    port.pending.push(message);
    let pos = port.first + waiting as u64;
    Accept::Accepted { pos }
}
