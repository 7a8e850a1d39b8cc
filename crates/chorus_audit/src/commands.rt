//! How many commands each seat gave.

ghost use Rattle.std.specs.Prelude.{◌≡◌, ◌≤◌, ◌+◌, ◌∷◌, ℕ, List, length, IfOk, OnOk};
ghost use Rattle.chorus_entry.specs.declared.entry.Entry.{Entry};
ghost use Rattle.chorus_entry.specs.Act.{is_command_entry};
ghost use Rattle.chorus_audit.specs.declared.limits.TheConstants.{AUDIT_LIMIT};
ghost use Rattle.chorus_audit.specs.Stuck.{commands_of, given_by, AreGiven};

use chorus_entry::{Act, Entry};
use std::alloc::{AllocError, Global};
use std::collections::BTreeMap;

/// How many commands each seat gave in the audited entries.
pub(crate) fn commands_in(
    alloc: Global,
    entries: &[Entry],
) -> Result<BTreeMap<u32, u32>, AllocError>
    requires { length entries.now ≤ AUDIT_LIMIT }
    ensures { IfOk result (λ table. AreGiven table entries.now) }
{
    let mut table = BTreeMap::new(alloc);
    let mut left = entries;
    while let [entry, more @ ..] = left {
        count_entry(&mut table, entry)?;
        left = more;
    }
    Ok(table)
}

/// How many commands the seat gave, by the table of an audit.
pub(crate) fn given_by(table: &BTreeMap<u32, u32>, seat: u32) -> u32
    ensures { result ≡ given_by table.now seat }
{
    table.get(&seat).copied().unwrap_or(0)
}

/// Counts the entry of an audited text, where it answers a command of its seat.
fn count_entry(table: &mut BTreeMap<u32, u32>, entry: &Entry) -> Result<(), AllocError>
    requires { given_by table.old entry.now.seat ≤ AUDIT_LIMIT }
    ensures { OnOk result ((k : ℕ) (more : List Entry) →
        given_by table.new k + commands_of k more
        ≡ given_by table.old k + commands_of k (entry.now ∷ more)) }
{
    if is_command_entry(&entry.act) {
        let count = given_by(table, entry.seat);
        table.insert(entry.seat, count + 1)?;
    }
    Ok(())
}

/// Whether the act is the one by which a command is answered, in an audited text.
fn is_command_entry(act: &Act) -> bool
    ensures { result ≡ is_command_entry act.now }
{
    !matches!(
        act,
        Act::Accept { .. }
            | Act::Full { .. }
            | Act::Already { .. }
            | Act::ClientsFull { .. }
            | Act::Stale { .. }
            | Act::Early { .. }
            | Act::NoPort { .. }
            | Act::Elsewhere { .. }
            | Act::Gone { .. }
            | Act::NoMember { .. }
            | Act::Choose { .. }
            | Act::Try { .. }
            | Act::Told { .. }
            | Act::Heard { .. }
            | Act::Arrive { .. }
            | Act::Done { .. }
            | Act::Late { .. }
    )
}
