//! The ranges of what a packet holds.

ghost use Rattle.std.specs.Prelude.{◌≡◌, ◌&&◌, true};
ghost use Rattle.std.specs.List.{list_all};
ghost use Rattle.chorus_entry.specs.Ranges.{is_from, is_place_number, is_site_number, has_range_of_id, has_range_of_tag, has_ranges_of_message, is_route, is_demanded_site, has_ranges_of_answer, is_told, has_range_of_client, has_ranges_of_clients, has_ranges_of_record, is_asked, has_ranges_of_cargo, has_ranges};

use chorus_entry::{
    Answer, BODY_LIMIT, Cargo, ClientTable, Dest, MEMBERS_LIMIT, Message, MsgId, PENDING_LIMIT,
    Packet, Pending, PortRecord, Tag,
};
use chorus_ui::{PLACES_LIMIT, SITES_LIMIT, Ui};

/// Whether the number, one that a packet holds, is from `low` to `high`.
fn is_from(low: usize, high: usize, number: usize) -> bool
    ensures { result ≡ is_from low high number }
{
    low <= number && number <= high
}

/// Whether a number that a packet holds is within the range of places: that of a place in the largest layout.
fn is_place_number(place: u16) -> bool
    ensures { result ≡ is_place_number place }
{
    1 <= place && place <= PLACES_LIMIT
}

/// Whether a number that a packet holds is within the range of sites: that of a site in the largest layout.
fn is_site_number(site: u16) -> bool
    ensures { result ≡ is_site_number site }
{
    1 <= site && site <= SITES_LIMIT
}

/// Whether the id is within its ranges.
fn has_range_of_id(id: MsgId) -> bool
    ensures { result ≡ has_range_of_id id }
{
    1 <= id.number && usize::from(id.copy) <= MEMBERS_LIMIT
}

/// Whether a request or a reply has a number from 1 on.
fn has_range_of_tag(tag: Tag) -> bool
    ensures { result ≡ has_range_of_tag tag }
{
    match tag {
        Tag::Plain => true,
        Tag::Request { number, .. } => 1 <= number,
        Tag::Reply { number, .. } => 1 <= number,
    }
}

/// Whether the message is within its ranges.
fn has_ranges_of_message(message: &Message) -> bool
    ensures { result ≡ has_ranges_of_message message.now }
{
    has_range_of_id(message.id)
        && has_range_of_tag(message.tag)
        && message.tag.has_kinds()
        && message.body.bytes().len() <= BODY_LIMIT
}

/// Whether each of the messages is within its ranges.
fn have_ranges(pending: &Pending) -> bool
    ensures { result ≡ list_all has_ranges_of_message pending.now }
{
    let len = pending.len();
    for at in 0..len {
        let Some(message) = pending.get(at) else {
            unreachable!()
        };
        if !has_ranges_of_message(message) {
            return false;
        }
    }
    true
}

/// Whether the route that a packet holds is a group, where there is one.
fn is_route(route: Option<Ui>) -> bool
    ensures { result ≡ is_route route }
{
    match route {
        Some(group) => group.is_group(),
        None => true,
    }
}

/// Whether the site that is demanded, where a packet holds one, is within its range: one of the largest layout.
fn is_demanded_site(only: Option<u16>) -> bool
    ensures { result ≡ is_demanded_site only }
{
    match only {
        Some(site) => is_site_number(site),
        None => true,
    }
}

/// Whether the answer is within its ranges, in a packet with this clock.
fn has_ranges_of_answer(clock: u64, answer: Answer) -> bool
    ensures { result ≡ has_ranges_of_answer clock answer }
{
    match answer {
        Answer::Accepted { pos } => pos <= clock,
        Answer::Full { len } => is_from(1, PENDING_LIMIT, usize::from(len)),
        Answer::Stale { to, hop } => is_place_number(to) && hop <= clock,
        Answer::Early { hop } => hop <= clock,
        Answer::Elsewhere { to, hop } => is_place_number(to) && hop <= clock,
        Answer::Chosen { count } => is_from(1, MEMBERS_LIMIT, usize::from(count)),
        Answer::NoPort | Answer::Already | Answer::ClientsFull | Answer::NoMember | Answer::Gone =>
            true,
    }
}

/// Whether the answer that a Verdict holds is one that it may hold: a decision.
fn is_told(answer: Answer) -> bool
    ensures { result ≡ is_told answer }
{
    !matches!(answer, Answer::NoMember | Answer::Chosen { .. })
}

/// Whether the client has a number from 1 on.
fn has_range_of_client(entry: (u32, u32)) -> bool
    ensures { result ≡ has_range_of_client entry }
{
    1 <= entry.1
}

/// Whether each client of the table that a packet holds has a number from 1 on.
fn are_numbered(clients: &ClientTable) -> bool
    ensures { result ≡ list_all has_range_of_client clients.now }
{
    let len = clients.len();
    for at in 0..len {
        let Some(entry) = clients.get(at) else {
            unreachable!()
        };
        if !has_range_of_client(entry) {
            return false;
        }
    }
    true
}

/// Whether the table of clients is within its ranges.
fn has_ranges_of_clients(clients: &ClientTable) -> bool
    ensures { result ≡ has_ranges_of_clients clients.now }
{
    let _few = clients.len();
    are_numbered(clients)
}

/// Whether the record of a port is within its ranges, in a packet with this clock.
fn has_ranges_of_record(clock: u64, port: &PortRecord) -> bool
    ensures { result ≡ has_ranges_of_record clock port.now }
{
    port.ui.is_port()
        && port.actor.is_actor()
        && is_from(1, PENDING_LIMIT, usize::from(port.capacity))
        && port.hop <= clock
        && port.first <= clock
        && port.pending.len() <= usize::from(port.capacity)
        && have_ranges(&port.pending)
        && has_ranges_of_clients(&port.clients)
}

/// Whether a post with this destination, which an Ask holds, may be asked for: it goes to a group.
fn is_asked(dest: Dest) -> bool
    ensures { result ≡ is_asked dest }
{
    match dest {
        Dest::Port(_) => false,
        Dest::All(group) | Dest::One(group) => group.is_group(),
        Dest::OneAt(group, site) => group.is_group() && is_site_number(site),
    }
}

/// Whether the contents are within their ranges, in a packet with this clock.
fn has_ranges_of_cargo(clock: u64, cargo: &Cargo) -> bool
    ensures { result ≡ has_ranges_of_cargo clock cargo.now }
{
    match cargo {
        Cargo::Try {
            message,
            port,
            route,
            only,
            hop,
        } => {
            is_route(*route)
                && is_demanded_site(*only)
                && *hop <= clock
                && port.is_port()
                && has_ranges_of_message(message)
        }
        Cargo::Verdict {
            id,
            port,
            route,
            answer,
        } => {
            has_range_of_id(*id)
                && port.is_port()
                && is_route(*route)
                && is_told(*answer)
                && has_ranges_of_answer(clock, *answer)
        }
        Cargo::Transfer { port } => has_ranges_of_record(clock, port),
        Cargo::Ask { message, dest } => is_asked(*dest) && has_ranges_of_message(message),
        Cargo::Report { id, answer } => {
            has_range_of_id(*id) && answer.is_final() && has_ranges_of_answer(clock, *answer)
        }
    }
}

/// Whether the packet is within its ranges. It reads the packet once, and takes no memory.
pub fn has_ranges(packet: &Packet) -> bool
    ensures { result ≡ has_ranges packet.now }
{
    is_place_number(packet.from) && has_ranges_of_cargo(packet.clock, &packet.cargo)
}
