//! The messages that wait in a port.

ghost use Rattle.std.specs.Prelude.{◌≡◌, ◌≤◌, length, IfOk};
ghost use Rattle.chorus_ui.specs.declared.limits.TheConstants.{PENDING_LIMIT};
ghost use Rattle.chorus_place.specs.PlaceTables.Ports.{ids_of};

use chorus_entry::{Ids, Pending};
use std::alloc::{AllocError, Global};

/// The ids of the messages, in order. The only error is want of memory.
pub(crate) fn ids_of(alloc: Global, pending: &Pending) -> Result<Ids, AllocError>
    ensures ids { IfOk result (λ ids. ids ≡ ids_of pending.now) }
    ensures few { IfOk result (λ ids. length ids ≤ PENDING_LIMIT) }
{
    let len = pending.len();
    let mut ids = Vec::with_capacity(alloc, len)?;
    for at in 0..len {
        let Some(message) = pending.get(at) else {
            unreachable!()
        };
        ids.push_reserved(message.id);
    }
    Ids::of(alloc, &ids)
}
