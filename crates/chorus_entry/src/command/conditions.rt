//! The conditions under which a command is given.

ghost use Rattle.std.specs.Prelude.{◌≡◌};
ghost use Rattle.chorus_entry.specs.Command.{is_capacity, demands_a_site, meets_conditions};

use super::Command;
use crate::dest::Dest;
use chorus_ui::{PENDING_LIMIT, SITES_LIMIT};

/// Whether a port may have this capacity, as the conditions of a command demand.
fn is_capacity(capacity: u8) -> bool
    ensures { result ≡ is_capacity capacity }
{
    1 <= capacity && usize::from(capacity) <= PENDING_LIMIT
}

/// Whether the site that the destination of a command demands, where it demands one, is from 1 to 16.
fn demands_a_site(dest: &Dest) -> bool
    ensures { result ≡ demands_a_site dest.now }
{
    match dest {
        Dest::OneAt(_, site) => 1 <= *site && *site <= SITES_LIMIT,
        _ => true,
    }
}

impl Command {
    /// Whether it meets the conditions under which it may be given: each name in it is of the kind that it stands for, its
    /// capacity is from 1 to 64, and the site that its destination demands is from 1 to 16.
    pub fn meets_conditions(&self) -> bool
        ensures { result ≡ meets_conditions self.now }
    {
        match self {
            Command::Make { actor, capacity } => actor.is_actor() && is_capacity(*capacity),
            Command::Send { dest, .. } => dest.has_kinds() && demands_a_site(dest),
            Command::Call { port, back, .. } => port.is_port() && back.is_port(),
            Command::Retry | Command::Cancel | Command::Reply { .. } | Command::GroupMake { .. } =>
                true,
            Command::Take { port } | Command::Delete { port } => port.is_port(),
            Command::Move { port, actor } => port.is_port() && actor.is_actor(),
            Command::Join { group, port } | Command::Leave { group, port } => group.is_group()
                && port.is_port(),
        }
    }
}
