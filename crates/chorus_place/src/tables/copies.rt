//! The copies of a post for the members of a group.

ghost use Rattle.std.specs.Prelude.{◌≡◌, true, OnOk};
ghost use Rattle.chorus_entry.specs.Members.{are_distinct};
ghost use Rattle.place_unsettled.specs.declared.wait.Key.{Key};
ghost use Rattle.place_unsettled.specs.Queues.{queue};
ghost use Rattle.chorus_place.specs.PlaceTables.Groups.{HaveLines, members_of, with_each};

use chorus_ui::Ui;
use place_unsettled::{Key, Wait, Waits};
use std::alloc::AllocError;
use std::collections::VecDeque;

/// A member for which messages go, and a copy of the one of them that is tried at another place.
#[derive(Drop)]
pub(crate) struct Course {
    pub(crate) port: Ui,
    pub(crate) again: Option<Wait>,
}

/// A member that is chosen for a post, and its copy of the post.
#[derive(Drop)]
pub(crate) struct MemberCopy {
    pub(crate) port: Ui,
    pub(crate) wait: Wait,
}

/// Puts each copy behind the other messages for its member, in the room that is there.
pub(crate) fn put_copies(waits: &mut Waits, group: Ui, copies: VecDeque<MemberCopy>)
    requires distinct { are_distinct (members_of copies.items) ≡ true }
    requires lines { HaveLines group waits.old (members_of copies.items) }
    ensures { (k : Key) → queue waits.new k ≡ with_each group copies.items (queue waits.old) k }
{
    let mut left = copies;
    while let Some(copy) = left.pop_front() {
        let key = Key {
            port: copy.port,
            route: Some(group),
        };
        waits.push(&key, copy.wait);
    }
}

/// Takes room for one message more, a copy of a post, for each of these members. Changes no queue, whatever the answer.
pub(crate) fn make_lines(waits: &mut Waits, group: Ui, members: &[Ui]) -> Result<(), AllocError>
    ensures queues { (k : Key) → queue waits.new k ≡ queue waits.old k }
    ensures lines { OnOk result (HaveLines group waits.new members.now) }
{
    for at in 0..members.len() {
        let key = Key {
            port: members[at],
            route: Some(group),
        };
        waits.reserve(&key)?;
    }
    Ok(())
}
