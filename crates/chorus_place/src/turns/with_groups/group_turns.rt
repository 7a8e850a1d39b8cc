//! Whole turns with groups: what can fail comes first, and then one step after the other.

ghost use Rattle.std.specs.Prelude.{◌≡◌, ◌+◌, ◌^◌, ◌<◌, ◌≤◌, true, List, Some, None, length, IsOk, IfOk, OnOk, OnErr};
ghost use Rattle.chorus_ui.specs.declared.ui.Ui.{Ui};
ghost use Rattle.chorus_ui.specs.declared.kind.Kind.TheVariants as Kind;
ghost use Rattle.chorus_ui.specs.declared.limits.TheConstants.{CLOCK_LIMIT, GROUPS_PER_SITE_LIMIT, MEMBERS_LIMIT};
ghost use Rattle.chorus_ui.specs.Layout.{has_site, has_place};
ghost use Rattle.chorus_entry.specs.Dest.{group_in, port_in};
ghost use Rattle.chorus_groups.specs.Made.{made_of};
ghost use Rattle.chorus_calls.specs.Callers.{Seated};
ghost use Rattle.law_machine.specs.Choosing.{choice};
ghost use Rattle.chorus_place.specs.PlaceTurns.WithGroups.Allowed.{MayPostAway, MayPostHere, MayPostToGroup};
ghost use Rattle.chorus_place.specs.PlaceTurns.WithGroups.GroupTurns.{IsPrepared, IsAskReady, copies, chosen_go};
ghost use Rattle.chorus_entry.specs.declared.command.Command.TheVariants as Command;
ghost use Rattle.chorus_world.specs.Groups.{groups_made};
ghost use Rattle.law_machine.specs.PlaceState.{greatest_clock};
ghost use Rattle.law_machine.specs.Own.{next_group};
ghost use Rattle.law_machine.specs.Doing.{choosing_place, chooses_own, asks};
ghost use Rattle.law_machine.specs.Working.{answers_ask};
ghost use Rattle.law_machine.specs.Replies.{choice_reply};
ghost use Rattle.law_machine.specs.declared.reply.Reply.TheVariants as Reply;
ghost use Rattle.chorus_place.specs.PlaceTables.Commands.{Performed, StaysOut};
ghost use Rattle.chorus_place.specs.PlaceTables.Room.{KeepsRoom};
ghost use Rattle.chorus_place.specs.PlaceTables.Tables.{state, turn, IsSound};

use crate::tables::{Course, MemberCopy, Tables, next_group, next_message};
use crate::turns::with_groups::courses::{count_waiting, courses_for};
use chorus_calls::Caller;
use chorus_entry::{Act, Body, Dest, Message, MsgId, Tag};
use chorus_groups::{Choice, JoinFault, LeaveFault};
use chorus_ui::{GROUPS_PER_SITE_LIMIT, Kind, Ui};
use law_machine::Reply;
use place_unsettled::Wait;
use std::alloc::{AllocError, Global};
use std::collections::VecDeque;

/// A choice that is ready: who is chosen, the copy for each, and what is tried at other places then.
#[derive(Drop)]
pub(crate) struct Chosen {
    choice: Choice,
    copies: VecDeque<MemberCopy>,
    courses: VecDeque<Course>,
}

/// The copies of the message for which a turn with a group chooses these members, in their order.
fn copies_for(
    alloc: Global,
    message: &Message,
    dest: &Dest,
    home: u16,
    members: &[Ui],
) -> Result<VecDeque<MemberCopy>, AllocError>
    requires few { length members.now ≤ MEMBERS_LIMIT }
    ensures { IfOk result (λ made. made.items ≡ copies message.now dest.now home 1 members.now) }
{
    let len = members.len();
    let mut made = VecDeque::with_capacity(alloc, len)?;
    for at in 0..len {
        let wait = Wait {
            message: message.copied(at as u16 + 1)?,
            only: dest.site(),
            home,
        };
        let port = members[at];
        made.push_back_reserved(MemberCopy { port, wait });
    }
    Ok(made)
}

/// What the turn of a post to a group tells its caller of the choice.
fn reply_of(id: MsgId, choice: &Choice) -> Reply
    ensures { (qs : List Ui) → choice.now ≡ made_of qs → result ≡ choice_reply id qs }
{
    match choice {
        Choice::NoMember => Reply::NoMember(id),
        Choice::Members(members) => Reply::Chosen {
            msg: id,
            count: members.uis().len() as u16,
        },
    }
}

/// Makes a group of the site, whose first place this is where the layout has it. `NoSite` where it has not, and else
/// `GroupsFull` where all its groups are made. Want of memory changes nothing.
pub(crate) fn make_group(
    tables: &mut Tables,
    site: u16,
    caller: &mut Caller,
) -> Result<Reply, AllocError>
    requires clock { greatest_clock (turn tables.old caller.old) + 1 < 2 ^ 64 }
    ensures performed { IfOk result (λ reply. Performed (Command.GroupMake site)
        (turn tables.old caller.old) (turn tables.new caller.new) reply) }
    ensures refused { OnErr result (turn tables.new caller.new ≡ turn tables.old caller.old) }
    ensures out { StaysOut tables.old.out tables.new.out }
    ensures kept { KeepsRoom tables.old tables.new }
{
    tables.make_room(1, 0)?;
    if !tables.layout().has_site(site) {
        tables.note(Act::NoSite { site }, caller);
        return Ok(Reply::NoSite);
    }
    if tables.groups_made() >= GROUPS_PER_SITE_LIMIT {
        tables.note(Act::GroupsFull { site }, caller);
        return Ok(Reply::GroupsFull);
    }
    let group = next_group(tables, site);
    tables.make_next_group(group, caller)?;
    Ok(Reply::Made(group))
}

/// The port joins the group as its last member. `NoGroup` where this place made no such group, else `There` where the port
/// is a member, else `MembersFull` where the group has as many members as it may. Takes no memory where there is room for
/// an entry.
pub(crate) fn join(
    tables: &mut Tables,
    group: Ui,
    port: Ui,
    caller: &mut Caller,
) -> Result<Reply, AllocError>
    requires kind { port.kind ≡ Kind.Port }
    requires clock { greatest_clock (turn tables.old caller.old) + 1 < 2 ^ 64 }
    ensures performed { IfOk result (λ reply. Performed (Command.Join group port)
        (turn tables.old caller.old) (turn tables.new caller.new) reply) }
    ensures refused { OnErr result (turn tables.new caller.new ≡ turn tables.old caller.old) }
    ensures out { StaysOut tables.old.out tables.new.out }
    ensures takes_no_memory { 1 ≤ tables.old.journal.spare → IsOk result }
    ensures kept { KeepsRoom tables.old tables.new }
{
    tables.make_room(1, 0)?;
    match tables.groups().join_fault(group, port) {
        Some(JoinFault::NoGroup) => {
            tables.note(Act::NoGroup { group }, caller);
            Ok(Reply::NoGroup)
        }
        Some(JoinFault::There) => {
            tables.note(Act::There { group, port }, caller);
            Ok(Reply::There)
        }
        Some(JoinFault::MembersFull) => {
            tables.note(Act::MembersFull { group }, caller);
            Ok(Reply::MembersFull)
        }
        None => {
            tables.join_group(group, port, caller);
            Ok(Reply::Joined)
        }
    }
}

/// The port leaves the group. `NoGroup` where this place made no such group, else `NotThere` where the port is no member.
/// Takes no memory where there is room for an entry.
pub(crate) fn leave(
    tables: &mut Tables,
    group: Ui,
    port: Ui,
    caller: &mut Caller,
) -> Result<Reply, AllocError>
    requires clock { greatest_clock (turn tables.old caller.old) + 1 < 2 ^ 64 }
    ensures performed { IfOk result (λ reply. Performed (Command.Leave group port)
        (turn tables.old caller.old) (turn tables.new caller.new) reply) }
    ensures refused { OnErr result (turn tables.new caller.new ≡ turn tables.old caller.old) }
    ensures out { StaysOut tables.old.out tables.new.out }
    ensures takes_no_memory { 1 ≤ tables.old.journal.spare → IsOk result }
    ensures kept { KeepsRoom tables.old tables.new }
{
    tables.make_room(1, 0)?;
    match tables.groups().leave_fault(group, port) {
        Some(LeaveFault::NoGroup) => {
            tables.note(Act::NoGroup { group }, caller);
            Ok(Reply::NoGroup)
        }
        Some(LeaveFault::NotThere) => {
            tables.note(Act::NotThere { group, port }, caller);
            Ok(Reply::NotThere)
        }
        None => {
            tables.leave_group(group, port, caller);
            Ok(Reply::Left)
        }
    }
}

/// Posts the caller's next message to a group: members are chosen here at once, or the group's place is asked.
pub(crate) fn post_to_group(
    tables: &mut Tables,
    dest: Dest,
    body: Body,
    caller: &mut Caller,
) -> Result<Reply, AllocError>
    requires may { MayPostToGroup dest body caller.old }
    requires clock { greatest_clock (turn tables.old caller.old) < CLOCK_LIMIT }
    ensures performed { IfOk result (λ reply. Performed (Command.Send dest body)
        (turn tables.old caller.old) (turn tables.new caller.new) reply) }
    ensures refused { OnErr result (turn tables.new caller.new ≡ turn tables.old caller.old) }
    ensures out { StaysOut tables.old.out tables.new.out }
    ensures kept { KeepsRoom tables.old tables.new }
{
    let Some(group) = dest.group() else {
        unreachable!()
    };
    let message = next_message(caller, Tag::Plain, body);
    let place = tables.choosing_place(group);
    if place == tables.number() {
        return post_here(tables, message, dest, group, caller);
    }
    ask_for(tables, message, &dest, place, caller)
}

/// Makes all ready for a turn with a group: the choice of members for a post that the place `from` asks for. All else stays,
/// whatever the answer.
pub(crate) fn ready_ask(
    tables: &mut Tables,
    from: u16,
    message: &Message,
    dest: &Dest,
) -> Result<Chosen, AllocError>
    requires group { port_in dest.now ≡ None }
    requires sound { IsSound message.now }
    ensures turn { (c : Seated) → turn tables.new c ≡ turn tables.old c }
    ensures ready { IfOk result (λ chosen.
        IsAskReady from message.now dest.now chosen tables.new) }
    ensures out { StaysOut tables.old.out tables.new.out }
    ensures kept { KeepsRoom tables.old tables.new }
{
    let Some(group) = dest.group() else {
        unreachable!()
    };
    prepare(tables, message, dest, group, from)
}

/// A turn with a group: chooses members for a post that the place `from` asks for, as is ready.
pub(crate) fn open_ask(
    tables: &mut Tables,
    from: u16,
    message: &Message,
    dest: &Dest,
    chosen: Chosen,
    caller: &mut Caller,
)
    requires from { has_place tables.old.layout from ≡ true }
    requires ready { IsAskReady from message.now dest.now chosen tables.old }
    requires clock { greatest_clock (turn tables.old caller.old) < CLOCK_LIMIT }
    ensures turn { turn tables.new caller.new ≡
        answers_ask from message.now dest.now (turn tables.old caller.old) }
    ensures out { tables.new.out ≡ tables.old.out }
    ensures kept { KeepsRoom tables.old tables.new }
{
    let Some(group) = dest.group() else {
        unreachable!()
    };
    carry_out(tables, message.id, group, from, chosen, caller);
}

/// Posts a message to a group, and chooses members for it.
fn post_here(
    tables: &mut Tables,
    message: Message,
    dest: Dest,
    group: Ui,
    caller: &mut Caller,
) -> Result<Reply, AllocError>
    requires may { MayPostHere message dest group caller.old }
    requires clock { greatest_clock (turn tables.old caller.old) < CLOCK_LIMIT }
    ensures ok { OnOk result (turn tables.new caller.new ≡
        chooses_own message dest group (turn tables.old caller.old)) }
    ensures reply { IfOk result (λ reply.
        reply ≡ choice_reply message.id (choice dest (state tables.old))) }
    ensures refused { OnErr result (turn tables.new caller.new ≡ turn tables.old caller.old) }
    ensures out { StaysOut tables.old.out tables.new.out }
    ensures kept { KeepsRoom tables.old tables.new }
{
    let id = message.id;
    let home = tables.number();
    let chosen = prepare(tables, &message, &dest, group, home)?;
    let reply = reply_of(id, &chosen.choice);
    tables.post_alone(message, dest, caller);
    carry_out(tables, id, group, home, chosen, caller);
    Ok(reply)
}

/// Posts a message to a group, and asks the place `to` to choose members for it.
fn ask_for(
    tables: &mut Tables,
    message: Message,
    dest: &Dest,
    to: u16,
    caller: &mut Caller,
) -> Result<Reply, AllocError>
    requires may { MayPostAway message dest.now to tables.old caller.old }
    requires clock { greatest_clock (turn tables.old caller.old) + 1 < 2 ^ 64 }
    ensures ok { OnOk result (turn tables.new caller.new ≡
        asks message dest.now to (turn tables.old caller.old)) }
    ensures reply { IfOk result (λ reply. reply ≡ Reply.Posted message.id) }
    ensures refused { OnErr result (turn tables.new caller.new ≡ turn tables.old caller.old) }
    ensures out { StaysOut tables.old.out tables.new.out }
    ensures kept { KeepsRoom tables.old tables.new }
{
    tables.make_room(1, 1)?;
    let id = message.id;
    let again = message.copied(0)?;
    tables.ask(message, again, dest, to, caller)?;
    Ok(Reply::Posted(id))
}

/// Makes all ready for a choice of members for a post to the group, which was made at the place `home`. All else stays,
/// whatever the answer.
fn prepare(
    tables: &mut Tables,
    message: &Message,
    dest: &Dest,
    group: Ui,
    home: u16,
) -> Result<Chosen, AllocError>
    requires group { group_in dest.now ≡ Some group }
    requires sound { IsSound message.now }
    ensures turn { (c : Seated) → turn tables.new c ≡ turn tables.old c }
    ensures ready { IfOk result (λ chosen. IsPrepared group home chosen 2 tables.new) }
    ensures copies { IfOk result (λ chosen. chosen.copies.items ≡
        copies message.now dest.now home 1 (choice dest.now (state tables.old))) }
    ensures out { StaysOut tables.old.out tables.new.out }
    ensures kept { KeepsRoom tables.old tables.new }
{
    let choice = tables.choice(dest, group)?;
    let alloc = tables.allocator();
    let copies = copies_for(alloc, message, dest, home, choice.members())?;
    let count = count_waiting(tables, group, choice.members())?;
    tables.make_room(count + 2, count + choice.members().len() + 1)?;
    tables.make_copy_lines(group, choice.members())?;
    let courses = courses_for(tables, group, &copies)?;
    Ok(Chosen {
        choice,
        copies,
        courses,
    })
}

/// Carries out a choice that is ready, for the post `id` of the place `home`: the copies wait, and then they go.
fn carry_out(
    tables: &mut Tables,
    id: MsgId,
    group: Ui,
    home: u16,
    chosen: Chosen,
    caller: &mut Caller,
)
    requires ready { IsPrepared group home chosen 1 tables.old }
    requires home { has_place tables.old.layout home ≡ true }
    requires clock { greatest_clock (turn tables.old caller.old) ≤ CLOCK_LIMIT }
    ensures turn { turn tables.new caller.new ≡
        chosen_go id group home chosen.copies.items (turn tables.old caller.old) }
    ensures out { tables.new.out ≡ tables.old.out }
    ensures kept { KeepsRoom tables.old tables.new }
{
    let Chosen {
        choice,
        copies,
        courses,
    } = chosen;
    match choice {
        Choice::NoMember => tables.find_no_member(id, group, home, caller),
        Choice::Members(members) => {
            tables.choose(id, group, home, members, copies, caller);
            tables.go_all(group, courses, caller);
        }
    }
}
