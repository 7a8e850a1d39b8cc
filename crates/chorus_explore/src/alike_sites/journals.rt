//! What is told of two journals.

ghost use Rattle.std.specs.Prelude.{◌≡◌, ◌++◌, ◌≤◌, true, List, length, reverse, Some, IfOk, OnOk};
ghost use Rattle.std.specs.Option.{option_map};
ghost use Rattle.chorus_ui.specs.declared.ui.Ui.{Ui};
ghost use Rattle.chorus_ui.specs.declared.limits.TheConstants.{MEMBERS_LIMIT};
ghost use Rattle.chorus_entry.specs.declared.id.MsgId.{MsgId};
ghost use Rattle.chorus_entry.specs.declared.act.Act.TheVariants.{GroupMake, Delete};
ghost use Rattle.chorus_entry.specs.Act.{message_of};
ghost use Rattle.chorus_world.specs.GroupLaws.{copies_by, copies_of};
ghost use Rattle.chorus_world.specs.Places.{copies, is_deleted};
ghost use Rattle.chorus_world.specs.Groups.{members, rotation};
ghost use Rattle.chorus_world.specs.Messages.{verdict};
ghost use Rattle.chorus_world.specs.Views.{is_group};
ghost use Rattle.law_explore.specs.Outcome.{plain_answer, is_stale_at, made_by, made_in};
ghost use Rattle.law_explore.specs.Positions.{AskAlike, TellAlike};
ghost use Rattle.chorus_explore.specs.AlikeSites.Journals.{ids_of, Agree, AgreeAll, HaveSame, TellSame};

use crate::alike_sites::names::{are_same_ids, are_same_names};
use crate::alike_sites::orders::are_in_one_order;
use chorus_entry::{Act, Answer, Entry, MsgId};
use chorus_place::Tables;
use chorus_ui::Ui;
use explore_report::{is_stale_at, verdict_at};
use std::alloc::{AllocError, Global};

/// The answer that a journal tells, as it is compared: without the numbers that only tell when.
fn plain_answer(answer: Answer) -> Answer
    ensures { result ≡ plain_answer answer }
{
    match answer {
        Answer::Accepted { .. } => Answer::Accepted { pos: 0 },
        Answer::Early { .. } => Answer::Early { hop: 0 },
        Answer::Elsewhere { .. } => Answer::Elsewhere { to: 0, hop: 0 },
        other => other,
    }
}

/// Whether the verdicts in two journals are the same but for numbers that only tell when, or none is there.
fn is_same_verdict(one: Option<Answer>, other: Option<Answer>) -> bool
    ensures { result ≡ true → option_map plain_answer one ≡ option_map plain_answer other }
{
    match one {
        Some(answer) => match other {
            Some(same) => plain_answer(answer) == plain_answer(same),
            None => false,
        },
        None => other.is_none(),
    }
}

/// Appends the ids of the copies that the journal makes of the message.
fn push_copies(id: MsgId, journal: &[Entry], ids: &mut Vec<MsgId>) -> Result<(), AllocError>
    ensures { OnOk result
        (ids.new.items ≡ ids.old.items ++ ids_of (copies_of id (reverse journal.now))) }
{
    for entry in journal {
        push_chosen(id, &entry.act, ids)?;
    }
    Ok(())
}

/// Appends the ids of the copies that the act makes of the message.
fn push_chosen(id: MsgId, act: &Act, ids: &mut Vec<MsgId>) -> Result<(), AllocError>
    ensures { OnOk result (ids.new.items ≡ ids.old.items ++ ids_of (copies_by id act.now)) }
{
    match act {
        Act::Choose {
            id: chosen,
            members,
            ..
        } => {
            if *chosen == id {
                push_each(*chosen, members.uis(), ids)
            } else {
                Ok(())
            }
        }
        _ => Ok(()),
    }
}

/// Appends the ids of the message's copies for these members, as a journal makes them.
fn push_each(id: MsgId, members: &[Ui], ids: &mut Vec<MsgId>) -> Result<(), AllocError>
    requires { length members.now ≤ MEMBERS_LIMIT }
    ensures { OnOk result ((g : Ui) →
        ids.new.items ≡ ids.old.items ++ ids_of (copies id g 1 members.now)) }
{
    for index in 0..members.len() {
        ids.push(MsgId {
            seat: id.seat,
            number: id.number,
            copy: index as u16 + 1,
        })?;
    }
    Ok(())
}

/// Whether the journals make the same copies of the message.
fn are_same_copies(
    alloc: Global,
    id: MsgId,
    one: &[Entry],
    other: &[Entry],
) -> Result<bool, AllocError>
    ensures { IfOk result (λ same. same ≡ true → ids_of (copies_of id (reverse one.now))
        ≡ ids_of (copies_of id (reverse other.now))) }
{
    let mut ids = Vec::new(alloc);
    push_copies(id, one, &mut ids)?;
    let mut others = Vec::new(alloc);
    push_copies(id, other, &mut others)?;
    let same = are_same_ids(ids.as_slice(), others.as_slice());
    Ok(same)
}

/// Whether the journals tell the same verdict of the message, but for numbers that only tell when.
fn is_same_verdict_at(id: MsgId, one: &[Entry], other: &[Entry]) -> bool
    ensures { result ≡ true → option_map plain_answer (verdict id (reverse one.now))
        ≡ option_map plain_answer (verdict id (reverse other.now)) }
{
    is_same_verdict(verdict_at(id, one), verdict_at(id, other))
}

/// Whether both journals tell that the message was told `stale`, or neither.
fn is_same_stale(id: MsgId, one: &[Entry], other: &[Entry]) -> bool
    ensures { result ≡ true →
        is_stale_at id (reverse one.now) ≡ is_stale_at id (reverse other.now) }
{
    is_stale_at(id, one) == is_stale_at(id, other)
}

/// Whether the journals tell the same of the message.
fn tell_same(alloc: Global, id: MsgId, one: &[Entry], other: &[Entry]) -> Result<bool, AllocError>
    ensures { IfOk result (λ same. same ≡ true →
        TellSame id (reverse one.now) (reverse other.now)) }
{
    if !is_same_verdict_at(id, one, other) {
        return Ok(false);
    }
    if !is_same_stale(id, one, other) {
        return Ok(false);
    }
    let copies = are_same_copies(alloc, id, one, other)?;
    Ok(copies)
}

/// Whether the group was made at both places, by their journals, or at neither.
fn is_same_named(group: Ui, one: &Tables, other: &Tables) -> bool
    ensures { result ≡ true →
        is_group group one.now.journal.past ≡ is_group group other.now.journal.past }
{
    let mine = one.groups();
    let theirs = other.groups();
    mine.is_made(group) == theirs.is_made(group)
}

/// Whether the group has the same members in one order at both places, by their journals.
fn are_same_members(group: Ui, one: &Tables, other: &Tables) -> bool
    ensures { result ≡ true →
        members group one.now.journal.past ≡ members group other.now.journal.past }
{
    let mine = one.groups();
    let theirs = other.groups();
    let same = are_same_names(mine.members(group), theirs.members(group));
    same
}

/// Whether the group has the same rotation place at both places, by their journals.
fn is_same_rotation(group: Ui, one: &Tables, other: &Tables) -> bool
    ensures { result ≡ true →
        rotation group one.now.journal.past ≡ rotation group other.now.journal.past }
{
    let mine = one.groups();
    let theirs = other.groups();
    mine.rotation(group) == theirs.rotation(group)
}

/// Whether the group is the same at both places, by their journals.
fn have_same(group: Ui, one: &Tables, other: &Tables) -> bool
    ensures { result ≡ true → HaveSame group one.now.journal.past other.now.journal.past }
{
    if !is_same_named(group, one, other) {
        return false;
    }
    if !are_same_members(group, one, other) {
        return false;
    }
    let turns = is_same_rotation(group, one, other);
    turns
}

/// Whether both places' journals tell the same of the message that the act names, if it names one.
fn agree_on_message(act: &Act, one: &Tables, other: &Tables) -> Result<bool, AllocError>
    ensures { IfOk result (λ same. same ≡ true → (x : MsgId) → message_of act.now ≡ Some x →
        TellSame x one.now.journal.past other.now.journal.past) }
{
    match act.message() {
        Some(id) => tell_same(one.allocator(), id, one.entries(), other.entries()),
        None => Ok(true),
    }
}

/// Whether the group that the act makes, if it makes one, is the same by both places' journals.
fn agree_on_group(act: &Act, one: &Tables, other: &Tables) -> bool
    ensures { result ≡ true → (g : Ui) → act.now ≡ GroupMake g →
        HaveSame g one.now.journal.past other.now.journal.past }
{
    match act {
        Act::GroupMake { group } => have_same(*group, one, other),
        _ => true,
    }
}

/// Whether the port that the act deletes, if it deletes one, is deleted at both places by their journals, or at
/// neither.
fn agree_on_deleted(act: &Act, one: &Tables, other: &Tables) -> bool
    ensures { result ≡ true → (q : Ui) (discarded : List MsgId) → act.now ≡ Delete q discarded →
        is_deleted q one.now.journal.past ≡ is_deleted q other.now.journal.past }
{
    match act {
        Act::Delete { port, .. } => one.is_deleted(*port) == other.is_deleted(*port),
        _ => true,
    }
}

/// Whether the places agree, by their journals, on what the act names.
fn agree(act: &Act, one: &Tables, other: &Tables) -> Result<bool, AllocError>
    ensures { IfOk result (λ same. same ≡ true →
        Agree one.now.journal.past other.now.journal.past act.now) }
{
    if !agree_on_group(act, one, other) {
        return Ok(false);
    }
    if !agree_on_deleted(act, one, other) {
        return Ok(false);
    }
    let message = agree_on_message(act, one, other)?;
    Ok(message)
}

/// Whether the places agree, by their journals, on what these entries name.
fn agree_all(entries: &[Entry], one: &Tables, other: &Tables) -> Result<bool, AllocError>
    ensures { IfOk result (λ same. same ≡ true →
        AgreeAll one.now.journal.past other.now.journal.past entries.now) }
{
    for entry in entries {
        if !agree(&entry.act, one, other)? {
            return Ok(false);
        }
    }
    Ok(true)
}

/// Appends the ports that the journal makes, in order.
fn push_made(journal: &[Entry], made: &mut Vec<Ui>) -> Result<(), AllocError>
    ensures { OnOk result (made.new.items ≡ made.old.items ++ made_by (reverse journal.now)) }
{
    for entry in journal {
        push_port(&entry.act, made)?;
    }
    Ok(())
}

/// Appends the port that the act of a journal's entry makes, if it makes one.
fn push_port(act: &Act, made: &mut Vec<Ui>) -> Result<(), AllocError>
    ensures { OnOk result (made.new.items ≡ made.old.items ++ made_in act.now) }
{
    match act {
        Act::Make { port, .. } => {
            made.push(*port)?;
            Ok(())
        }
        _ => Ok(()),
    }
}

/// Whether two journals make the same ports, in one order.
fn are_same_made(alloc: Global, one: &[Entry], other: &[Entry]) -> Result<bool, AllocError>
    ensures { IfOk result (λ same. same ≡ true →
        made_by (reverse one.now) ≡ made_by (reverse other.now)) }
{
    let mut made = Vec::new(alloc);
    push_made(one, &mut made)?;
    let mut others = Vec::new(alloc);
    push_made(other, &mut others)?;
    let same = are_same_names(made.as_slice(), others.as_slice());
    Ok(same)
}

/// Whether the same is told of the journals of the places, and where claims are asked also of what was accepted and where copies
/// go.
pub(crate) fn are_told_alike(one: &Tables, other: &Tables, asks: bool) -> Result<bool, AllocError>
    ensures { IfOk result (λ same. same ≡ true →
        AskAlike asks one.now.journal.past other.now.journal.past) }
{
    if !tell_alike(one, other)? {
        return Ok(false);
    }
    if !asks {
        return Ok(true);
    }
    let same = are_in_one_order(one.allocator(), one.entries(), other.entries())?;
    Ok(same)
}

/// Whether outcomes tell the same of the journals of the places.
fn tell_alike(one: &Tables, other: &Tables) -> Result<bool, AllocError>
    ensures { IfOk result (λ same. same ≡ true →
        TellAlike one.now.journal.past other.now.journal.past) }
{
    // A group that was not made has no member.
    let mine = one.groups();
    let theirs = other.groups();
    let first = one.entries();
    let second = other.entries();
    if mine.made() != theirs.made() {
        return Ok(false);
    }
    if one.ports_made() != other.ports_made() {
        return Ok(false);
    }
    if !are_same_made(one.allocator(), first, second)? {
        return Ok(false);
    }
    if !agree_all(first, one, other)? {
        return Ok(false);
    }
    let back = agree_all(second, one, other)?;
    Ok(back)
}
