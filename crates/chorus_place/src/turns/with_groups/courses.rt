//! The messages that are tried at other places once copies for members wait.

ghost use Rattle.std.specs.Prelude.{◌≡◌, ◌+◌, ◌^◌, ◌≤◌, All, length, IfOk};
ghost use Rattle.chorus_ui.specs.declared.kind.Kind.TheVariants as Kind;
ghost use Rattle.place_unsettled.specs.Queues.{queue};
ghost use Rattle.chorus_place.specs.PlaceTables.Groups.{members_of, leaving_with, courses_of, waiting_for};
ghost use Rattle.chorus_place.specs.PlaceTables.Tables.{state, IsPort};

use crate::tables::{Course, MemberCopy, Tables};
use chorus_entry::Answer;
use chorus_ui::Ui;
use place_unsettled::{Key, Wait};
use std::alloc::AllocError;
use std::collections::VecDeque;

/// No memory holds so many messages.
const MESSAGES_LIMIT: usize = 1 << 62;

/// Of the course of a member, a copy of the message for this port and route that is tried at another place once `last` waits
/// there too. None where one is under way.
fn copy_free(tables: &Tables, key: &Key, last: &Wait) -> Result<Option<Wait>, AllocError>
    requires kind { key.now.port.kind ≡ Kind.Port }
    ensures { IfOk result (λ again. again ≡ leaving_with key.now last.now (state tables.now)) }
{
    if tables.waits().tried(key).is_some() {
        return Ok(None);
    }
    tables.copy_leaving(key, 0, Some(last), Answer::NoPort)
}

/// Of each of these copies, the message that is tried at another place once the copy waits.
pub(crate) fn courses_for(
    tables: &Tables,
    group: Ui,
    copies: &VecDeque<MemberCopy>,
) -> Result<VecDeque<Course>, AllocError>
    requires kinds { All IsPort (members_of copies.now.items) }
    ensures { IfOk result (λ made.
        made.items ≡ courses_of group (state tables.now) copies.now.items) }
{
    let len = copies.len();
    let mut made = VecDeque::with_capacity(tables.allocator(), len)?;
    for at in 0..len {
        let Some(copy) = copies.get(at) else {
            unreachable!()
        };
        let port = copy.port;
        let key = Key {
            port,
            route: Some(group),
        };
        let again = copy_free(tables, &key, &copy.wait)?;
        made.push_back_reserved(Course { port, again });
    }
    Ok(made)
}

/// How many messages wait for these members by the group's route, with one more, the copy of the post, for each. Want of
/// memory where no memory holds so many.
pub(crate) fn count_waiting(tables: &Tables, group: Ui, members: &[Ui]) -> Result<usize, AllocError>
    ensures value { IfOk result (λ count. count ≡
        waiting_for group members.now (queue tables.now.waits) + length members.now) }
    ensures within { IfOk result (λ count. count ≤ 2 ^ 62) }
{
    let mut count = 0;
    for at in 0..members.len() {
        let key = Key {
            port: members[at],
            route: Some(group),
        };
        count += tables.waiting_for(&key) + 1;
        if count > MESSAGES_LIMIT {
            return Err(AllocError);
        }
    }
    Ok(count)
}
