//! What a condition asks of a port, which may not be made.

ghost use Rattle.std.specs.Prelude.{◌≡◌};
ghost use Rattle.std.specs.Option.{option_copied};
ghost use Rattle.chorus_world.specs.Ports.{is_coming, is_ended_at, is_held_at, is_made, waiting};
ghost use Rattle.judge_rules.specs.Terms.{accepted_so_far, has_no_space, has_space, so_many_wait, taken_so_far};

use checker_ledger::PortState;
use chorus_world::Spot;

/// Whether the port is made, by which a condition is judged.
pub(crate) fn is_made(port: Option<&PortState>) -> bool
    ensures { result ≡ is_made (option_copied port.entry) }
{
    port.is_some()
}

/// Whether the port is held at the place, by which a condition is judged.
pub(crate) fn is_held_at(port: Option<&PortState>, place: u16) -> bool
    ensures { result ≡ is_held_at place (option_copied port.entry) }
{
    match port {
        Some(fate) => matches!(fate.spot(), Spot::Held(_)) && fate.last_place() == place,
        None => false,
    }
}

/// Whether the port was deleted at the place, by which a condition is judged.
pub(crate) fn is_ended_at(port: Option<&PortState>, place: u16) -> bool
    ensures { result ≡ is_ended_at place (option_copied port.entry) }
{
    match port {
        Some(fate) => matches!(fate.spot(), Spot::Ended) && fate.last_place() == place,
        None => false,
    }
}

/// Whether the port is on its way to the place by its last hop, and this is that hop, by which a condition is judged.
pub(crate) fn is_coming(port: Option<&PortState>, place: u16, hop: u64) -> bool
    ensures { result ≡ is_coming place hop (option_copied port.entry) }
{
    match port {
        Some(fate) => {
            matches!(fate.spot(), Spot::Moving(_))
                && fate.last_place() == place
                && hop == fate.path().len().saturating_sub(1) as u64
        }
        None => false,
    }
}

/// How many messages wait in the port, by which a condition is judged.
fn waiting(fate: &PortState) -> usize
    ensures { result ≡ waiting fate.now }
{
    fate.accepted().len() - fate.taken() as usize
}

/// Whether the port has space for a message more, by which a condition is judged.
pub(crate) fn has_space(port: Option<&PortState>) -> bool
    ensures { result ≡ has_space (option_copied port.entry) }
{
    match port {
        Some(fate) => waiting(fate) < fate.capacity() as usize,
        None => false,
    }
}

/// Whether the port accepted so many messages, by which a condition is judged.
pub(crate) fn accepted_so_far(port: Option<&PortState>, count: u64) -> bool
    ensures { result ≡ accepted_so_far count (option_copied port.entry) }
{
    match port {
        Some(fate) => count == fate.accepted().len() as u64,
        None => false,
    }
}

/// Whether the port has no space, by which a condition is judged.
pub(crate) fn has_no_space(port: Option<&PortState>) -> bool
    ensures { result ≡ has_no_space (option_copied port.entry) }
{
    match port {
        Some(fate) => waiting(fate) == fate.capacity() as usize,
        None => false,
    }
}

/// Whether so many messages wait in the port, by which a condition is judged.
pub(crate) fn so_many_wait(port: Option<&PortState>, count: u8) -> bool
    ensures { result ≡ so_many_wait count (option_copied port.entry) }
{
    match port {
        Some(fate) => count as usize == waiting(fate),
        None => false,
    }
}

/// Whether the port gave out so many messages, by which a condition is judged.
pub(crate) fn taken_so_far(port: Option<&PortState>, count: u64) -> bool
    ensures { result ≡ taken_so_far count (option_copied port.entry) }
{
    match port {
        Some(fate) => count == fate.taken(),
        None => false,
    }
}
