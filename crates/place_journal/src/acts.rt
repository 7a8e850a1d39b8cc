//! What one act adds to the counts.

ghost use Rattle.std.specs.Prelude.{◌≡◌, ◌≤◌, ◌||◌};
ghost use Rattle.chorus_ui.specs.declared.ui.Ui.{Ui};
ghost use Rattle.chorus_world.specs.Places.{ports_after, makes, deletes};
ghost use Rattle.place_journal.specs.Marks.{is_marked};
ghost use Rattle.place_journal.specs.Counting.{groups_with, made_by, deleted_by, MayFollow};

use crate::marks::PortMarks;
use chorus_entry::Act;
use chorus_groups::Groups;
use chorus_ui::{Layout, Ui};

/// How many ports the act makes: what it adds to the count of a journal.
pub(crate) fn count_made(act: &Act) -> u64
    ensures made { result ≡ ports_after act.now 0 }
    ensures within { result ≤ 1 }
{
    match act {
        Act::Make { .. } => 1,
        _ => 0,
    }
}

/// The port that the act makes, to be marked beside a journal.
fn made_by(act: &Act) -> Option<Ui>
    ensures { result ≡ made_by act.now }
{
    match act {
        Act::Make { port, .. } => Some(*port),
        _ => None,
    }
}

/// The port that the act deletes, to be marked beside a journal.
fn deleted_by(act: &Act) -> Option<Ui>
    ensures { result ≡ deleted_by act.now }
{
    match act {
        Act::Delete { port, .. } => Some(*port),
        _ => None,
    }
}

/// What one act adds to a journal's marks: marks the port that the act makes.
pub(crate) fn mark_made(made: &mut PortMarks, act: &Act, layout: Layout, groups: &Groups)
    requires layout { made.old.layout ≡ layout }
    requires follows { MayFollow layout groups.now act.now }
    ensures marks { (q : Ui) → is_marked made.new q ≡ makes q act.now || is_marked made.old q }
    ensures layout { made.new.layout ≡ layout }
{
    let Some(port) = made_by(act) else {
        return;
    };
    made.mark(port);
}

/// What one act adds to a journal's marks: marks the port that the act deletes.
pub(crate) fn mark_deleted(deleted: &mut PortMarks, act: &Act, layout: Layout, groups: &Groups)
    requires layout { deleted.old.layout ≡ layout }
    requires follows { MayFollow layout groups.now act.now }
    ensures marks { (q : Ui) →
        is_marked deleted.new q ≡ deletes q act.now || is_marked deleted.old q }
    ensures layout { deleted.new.layout ≡ layout }
{
    let Some(port) = deleted_by(act) else {
        return;
    };
    deleted.mark(port);
}

/// Makes of the groups beside a journal what one act makes of them.
pub(crate) fn change(groups: &mut Groups, act: &Act, layout: Layout)
    requires { MayFollow layout groups.old act.now }
    ensures { groups.new ≡ groups_with act.now groups.old }
{
    match act {
        Act::Join { group, port } => {
            let _ = groups.join(*group, *port);
        }
        Act::Leave { group, port } => {
            let _ = groups.leave(*group, *port);
        }
        Act::Choose { group, members, .. } => groups.turn(*group, members.uis()),
        _ => {}
    }
}
