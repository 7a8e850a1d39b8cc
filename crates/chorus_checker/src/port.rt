//! What is asked of a port, which may not be made.

ghost use Rattle.std.specs.Prelude.{◌≡◌};
ghost use Rattle.std.specs.Option.{option_copied};
ghost use Rattle.chorus_world.specs.Ports.{is_made, is_held_at, is_ended_at, is_coming, is_next_hop, waiting, has_room, is_full, is_first_waiting, is_empty, are_waiting};

use checker_ledger::PortState;
use chorus_entry::MsgId;
use chorus_world::Spot;

/// Whether the port is made.
pub fn is_made(port: Option<&PortState>) -> bool
    ensures { result ≡ is_made (option_copied port.entry) }
{
    port.is_some()
}

/// Whether the port is held at the place.
pub fn is_held_at(port: Option<&PortState>, place: u16) -> bool
    ensures { result ≡ is_held_at place (option_copied port.entry) }
{
    match port {
        Some(fate) => matches!(fate.spot(), Spot::Held(_)) && fate.last_place() == place,
        None => false,
    }
}

/// Whether the port was deleted at the place.
pub fn is_ended_at(port: Option<&PortState>, place: u16) -> bool
    ensures { result ≡ is_ended_at place (option_copied port.entry) }
{
    match port {
        Some(fate) => matches!(fate.spot(), Spot::Ended) && fate.last_place() == place,
        None => false,
    }
}

/// Whether the port is on its way to the place by its last hop, and this is that hop.
pub fn is_coming(port: Option<&PortState>, place: u16, hop: u64) -> bool
    ensures { result ≡ is_coming place hop (option_copied port.entry) }
{
    match port {
        Some(fate) => {
            matches!(fate.spot(), Spot::Moving(_))
                && fate.last_place() == place
                && hop == fate.path().len().saturating_sub(1) as u64
        }
        None => false,
    }
}

/// Whether this is the number of the port's next hop.
pub fn is_next_hop(port: Option<&PortState>, hop: u64) -> bool
    ensures { result ≡ is_next_hop hop (option_copied port.entry) }
{
    match port {
        Some(fate) => hop == fate.path().len() as u64,
        None => false,
    }
}

/// How many messages wait in the port.
fn waiting(fate: &PortState) -> usize
    ensures { result ≡ waiting fate.now }
{
    fate.accepted().len() - fate.taken() as usize
}

/// Whether the port has room, and accepts its next message at this position.
pub fn has_room(port: Option<&PortState>, pos: u64) -> bool
    ensures { result ≡ has_room pos (option_copied port.entry) }
{
    match port {
        Some(fate) => {
            waiting(fate) < fate.capacity() as usize && pos == fate.accepted().len() as u64
        }
        None => false,
    }
}

/// Whether so many messages wait in the port, and it has no room for more.
pub fn is_full(port: Option<&PortState>, len: u8) -> bool
    ensures { result ≡ is_full len (option_copied port.entry) }
{
    match port {
        Some(fate) => { waiting(fate) == fate.capacity() as usize && len as usize == waiting(fate) }
        None => false,
    }
}

/// Whether the message, at this position, is the first that waits in the port.
pub fn is_first_waiting(port: Option<&PortState>, pos: u64, id: MsgId) -> bool
    ensures { result ≡ is_first_waiting pos id (option_copied port.entry) }
{
    match port {
        Some(fate) => {
            pos == fate.taken()
                && match fate.accepted().get(pos as usize) {
                    Some(first) => id == *first,
                    None => false,
                }
        }
        None => false,
    }
}

/// Whether nothing waits in the port.
pub fn is_empty(port: Option<&PortState>) -> bool
    ensures { result ≡ is_empty (option_copied port.entry) }
{
    match port {
        Some(fate) => fate.taken() == fate.accepted().len() as u64,
        None => false,
    }
}

/// Whether these messages wait in the port, in this order.
pub fn are_waiting(port: Option<&PortState>, ids: &[MsgId]) -> bool
    ensures { result ≡ are_waiting ids.now (option_copied port.entry) }
{
    match port {
        Some(fate) => ids == &fate.accepted()[fate.taken() as usize..],
        None => false,
    }
}
