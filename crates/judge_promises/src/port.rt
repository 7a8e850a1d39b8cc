//! What a promise asks of a port, beside what a rule does, which may not be made.

ghost use Rattle.std.specs.Prelude.{◌≡◌};
ghost use Rattle.std.specs.Option.{option_copied};
ghost use Rattle.judge_promises.specs.Terms.{departed, is_coming_to, is_deleted, waits_first};
ghost use Rattle.judge_rules.specs.Terms.{accepted_so_far, has_space, taken_so_far};

use checker_ledger::PortState;
use chorus_entry::MsgId;
use chorus_world::Spot;

/// Whether the port has space for a message more, as is promised.
pub(crate) fn has_space(port: Option<&PortState>) -> bool
    ensures { result ≡ has_space (option_copied port.entry) }
{
    match port {
        Some(fate) => { fate.accepted().len() - (fate.taken() as usize) < fate.capacity() as usize }
        None => false,
    }
}

/// Whether the port accepted so many messages, as is promised.
pub(crate) fn accepted_so_far(port: Option<&PortState>, count: u64) -> bool
    ensures { result ≡ accepted_so_far count (option_copied port.entry) }
{
    match port {
        Some(fate) => count == fate.accepted().len() as u64,
        None => false,
    }
}

/// Whether the port gave out so many messages, as is promised.
pub(crate) fn taken_so_far(port: Option<&PortState>, count: u64) -> bool
    ensures { result ≡ taken_so_far count (option_copied port.entry) }
{
    match port {
        Some(fate) => count == fate.taken(),
        None => false,
    }
}

/// Whether the message waits first in the port.
pub(crate) fn waits_first(port: Option<&PortState>, id: MsgId) -> bool
    ensures { result ≡ waits_first id (option_copied port.entry) }
{
    match port {
        Some(fate) => match fate.accepted().get(fate.taken() as usize) {
            Some(first) => id == *first,
            None => false,
        },
        None => false,
    }
}

/// Whether the port is on its way to the place.
pub(crate) fn is_coming_to(port: Option<&PortState>, place: u16) -> bool
    ensures { result ≡ is_coming_to place (option_copied port.entry) }
{
    match port {
        Some(fate) => matches!(fate.spot(), Spot::Moving(_)) && fate.last_place() == place,
        None => false,
    }
}

/// Whether the port departed so many times.
pub(crate) fn departed(port: Option<&PortState>, count: u64) -> bool
    ensures { result ≡ departed count (option_copied port.entry) }
{
    match port {
        Some(fate) => count == fate.path().len().saturating_sub(1) as u64,
        None => false,
    }
}

/// Whether the port was deleted.
pub(crate) fn is_deleted(port: Option<&PortState>) -> bool
    ensures { result ≡ is_deleted (option_copied port.entry) }
{
    match port {
        Some(fate) => matches!(fate.spot(), Spot::Ended),
        None => false,
    }
}
