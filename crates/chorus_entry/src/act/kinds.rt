//! The kinds of the names in an act.

ghost use Rattle.std.specs.Prelude.{◌≡◌};
ghost use Rattle.std.specs.List.{list_all};
ghost use Rattle.chorus_ui.specs.NameKind.{is_port};
ghost use Rattle.chorus_entry.specs.Kinds.{has_kinds};

use crate::act::Act;
use chorus_ui::Ui;

/// Whether all the names in an act's list of members are ports'.
fn all_ports(uis: &[Ui]) -> bool
    ensures { result ≡ list_all is_port uis.now }
{
    uis.iter().all(|ui| ui.is_port())
}

impl Act {
    /// Whether each name in the act is of the kind that it stands for.
    pub fn has_kinds(&self) -> bool
        ensures { result ≡ has_kinds self.now }
    {
        match self {
            Act::Make { port, actor, .. }
            | Act::Rehome { port, actor }
            | Act::Depart { port, actor, .. } => port.is_port() && actor.is_actor(),
            Act::MakeFull { actor } | Act::NoActor { actor } => actor.is_actor(),
            Act::Post { message, dest } => message.tag.has_kinds() && dest.has_kinds(),
            Act::Accept { port, .. }
            | Act::Full { port, .. }
            | Act::Already { port, .. }
            | Act::ClientsFull { port, .. }
            | Act::Stale { port, .. }
            | Act::Early { port, .. }
            | Act::NoPort { port, .. }
            | Act::Elsewhere { port, .. }
            | Act::Try { port, .. }
            | Act::Take { port, .. }
            | Act::Empty { port }
            | Act::NotHere { port }
            | Act::Arrive { port, .. }
            | Act::Delete { port, .. }
            | Act::Gone { port, .. } => port.is_port(),
            Act::Choose { group, members, .. } => group.is_group() && all_ports(members.uis()),
            Act::NoMember { group, .. }
            | Act::GroupMake { group }
            | Act::NoGroup { group }
            | Act::MembersFull { group } => group.is_group(),
            Act::Join { group, port }
            | Act::Leave { group, port }
            | Act::There { group, port }
            | Act::NotThere { group, port } => group.is_group() && port.is_port(),
            _ => true,
        }
    }
}
