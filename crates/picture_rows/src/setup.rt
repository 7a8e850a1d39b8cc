//! The setup at the front of a picture's entries.

ghost use Rattle.std.specs.Prelude.{◌≡◌, ◌≤◌, length};
ghost use Rattle.picture_rows.specs.declared.limits.TheConstants.{ENTRIES_LIMIT};
ghost use Rattle.picture_rows.specs.Setup.{is_setup, setup_rows, sets_up};

use chorus_entry::{Act, Entry};

/// How many of a picture's entries, from the first one on, are of the setup.
pub fn setup_rows(entries: &[Entry]) -> u32
    requires { length entries.now ≤ ENTRIES_LIMIT }
    ensures value { result ≡ setup_rows entries.now }
    ensures bound { result ≤ length entries.now }
{
    match entries {
        [entry, more @ ..] if is_setup(entry) => setup_rows(more) + 1,
        _ => 0,
    }
}

/// Whether an entry is of the setup: no caller makes a port or a group, or lets a port join.
pub(crate) fn is_setup(entry: &Entry) -> bool
    ensures { result ≡ is_setup entry.now }
{
    entry.seat == 0 && sets_up(&entry.act)
}

/// Whether the act is one that a setup leads to.
fn sets_up(act: &Act) -> bool
    ensures { result ≡ sets_up act.now }
{
    matches!(
        act,
        Act::Make { .. } | Act::GroupMake { .. } | Act::Join { .. }
    )
}
