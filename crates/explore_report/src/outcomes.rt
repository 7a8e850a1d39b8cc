//! What a schedule came to, as lines.

ghost use Rattle.std.specs.Prelude.{◌≡◌, ◌≤◌, ◌++◌, length, reverse, OnOk};
ghost use Rattle.std.specs.List.{flat_map};
ghost use Rattle.chorus_ui.specs.declared.limits.TheConstants.{MEMBERS_LIMIT};
ghost use Rattle.chorus_ui.specs.declared.ui.Ui.{Ui};
ghost use Rattle.chorus_merge.specs.Steps.{journals_of};
ghost use Rattle.chorus_world.specs.GroupLaws.{copies_by};
ghost use Rattle.chorus_world.specs.Messages.{verdict, verdict_by};
ghost use Rattle.chorus_world.specs.Places.{copies};
ghost use Rattle.law_explore.specs.Outcome.{is_stale_at, is_stale_by, made_in};
ghost use Rattle.explore_report.specs.Outcomes.{chosen_lines, held_among, held_line, is_stale_among, lines_about, made_lines, message_lines, sent_lines, verdict_among};

use crate::facts::{push_held, push_judged, push_stale};
use chorus_entry::{Act, Answer, Entry, MsgId};
use chorus_ui::Ui;
use law_network::Placed;
use std::alloc::AllocError;

/// Appends the lines of the messages, and behind each those of its copies: of each the verdict that these journals of
/// all places tell, and that it was told `stale`, where they tell that. The only error is want of memory; the lines may
/// then be cut off.
pub fn push_messages(
    ids: &[MsgId],
    journals: &[Vec<Entry>],
    text: &mut Vec<u8>,
) -> Result<(), AllocError>
    ensures { OnOk result (text.new.items
        ≡ text.old.items ++ flat_map (message_lines (journals_of journals.now)) ids.now) }
{
    for id in ids {
        push_message(*id, journals, text)?;
    }
    Ok(())
}

/// Appends, for an outcome, the lines of what became of the message and of its copies.
fn push_message(id: MsgId, journals: &[Vec<Entry>], text: &mut Vec<u8>) -> Result<(), AllocError>
    ensures { OnOk result (text.new.items
        ≡ text.old.items ++ message_lines (journals_of journals.now) id) }
{
    push_about(id, journals, text)?;
    for journal in journals {
        push_copies(id, journal, journals, text)?;
    }
    Ok(())
}

/// Appends the lines of what became of this message alone, without its copies.
fn push_about(id: MsgId, journals: &[Vec<Entry>], text: &mut Vec<u8>) -> Result<(), AllocError>
    ensures { OnOk result (text.new.items
        ≡ text.old.items ++ lines_about (journals_of journals.now) id) }
{
    push_judged(&id, verdict_among(id, journals), text)?;
    if is_stale_among(id, journals) {
        push_stale(&id, text)?;
    }
    Ok(())
}

/// Appends the lines of what became of the copies that the journal makes of the message.
fn push_copies(
    id: MsgId,
    journal: &[Entry],
    journals: &[Vec<Entry>],
    text: &mut Vec<u8>,
) -> Result<(), AllocError>
    ensures { OnOk result (text.new.items
        ≡ text.old.items ++ chosen_lines id (journals_of journals.now) journal.now) }
{
    for entry in journal {
        push_chosen(id, &entry.act, journals, text)?;
    }
    Ok(())
}

/// Appends the lines of what became of the copies that the act makes of the message.
fn push_chosen(
    id: MsgId,
    act: &Act,
    journals: &[Vec<Entry>],
    text: &mut Vec<u8>,
) -> Result<(), AllocError>
    ensures { OnOk result (text.new.items
        ≡ text.old.items ++ sent_lines (journals_of journals.now) (copies_by id act.now)) }
{
    match act {
        Act::Choose {
            id: chosen,
            group,
            members,
        } => {
            if *chosen == id {
                push_each_copy(*chosen, *group, members.uis(), journals, text)
            } else {
                Ok(())
            }
        }
        _ => Ok(()),
    }
}

/// Appends, for an outcome, the lines of what became of the copies for these members.
fn push_each_copy(
    id: MsgId,
    group: Ui,
    members: &[Ui],
    journals: &[Vec<Entry>],
    text: &mut Vec<u8>,
) -> Result<(), AllocError>
    requires { length members.now ≤ MEMBERS_LIMIT }
    ensures { OnOk result (text.new.items ≡ text.old.items
        ++ sent_lines (journals_of journals.now) (copies id group 1 members.now)) }
{
    for index in 0..members.len() {
        let copy = MsgId {
            seat: id.seat,
            number: id.number,
            copy: index as u16 + 1,
        };
        push_about(copy, journals, text)?;
    }
    Ok(())
}

/// What a schedule came to for a message: its verdict, which the journals of all places tell. None where it has none.
fn verdict_among(id: MsgId, journals: &[Vec<Entry>]) -> Option<Answer>
    ensures { result ≡ verdict_among id (journals_of journals.now) }
{
    let mut found = None;
    for journal in journals {
        found = found.or(verdict_at(id, journal));
    }
    found
}

/// The verdict of the message that the journal tells, for the lines of what a schedule came to.
pub fn verdict_at(id: MsgId, journal: &[Entry]) -> Option<Answer>
    ensures { result ≡ verdict id (reverse journal.now) }
{
    let mut found = None;
    for entry in journal {
        found = found.or(verdict_by(id, &entry.act));
    }
    found
}

/// The verdict of the message that the act of a journal's entry is, if it is one, for the lines of what a schedule came to.
fn verdict_by(id: MsgId, act: &Act) -> Option<Answer>
    ensures { result ≡ verdict_by id act.now }
{
    if act.is_verdict() && Some(id) == act.message() {
        act.answer()
    } else {
        None
    }
}

/// Whether a schedule came to `stale` for a message: one of the journals of all places tells that.
fn is_stale_among(id: MsgId, journals: &[Vec<Entry>]) -> bool
    ensures { result ≡ is_stale_among id (journals_of journals.now) }
{
    for journal in journals {
        if is_stale_at(id, journal) {
            return true;
        }
    }
    false
}

/// Whether the journal tells that the message was told `stale`, for the lines of what a schedule came to.
pub fn is_stale_at(id: MsgId, journal: &[Entry]) -> bool
    ensures { result ≡ is_stale_at id (reverse journal.now) }
{
    let mut found = false;
    for entry in journal {
        found = found || is_stale_by(id, &entry.act);
    }
    found
}

/// Whether the act of a journal's entry tells the message that it is stale, for the lines of what a schedule came to.
fn is_stale_by(id: MsgId, act: &Act) -> bool
    ensures { result ≡ is_stale_by id act.now }
{
    match act {
        Act::Stale { id: stale, .. } => *stale == id,
        _ => false,
    }
}

/// Appends the lines of the ports that the journals make, in the order made, where they are among those that are held:
/// who holds each, and the messages that wait in it. The only error is want of memory; the lines may then be cut off.
pub fn push_all_ports(
    journals: &[Vec<Entry>],
    ports: &[Placed],
    text: &mut Vec<u8>,
) -> Result<(), AllocError>
    ensures { OnOk result (text.new.items ≡ text.old.items
        ++ flat_map (made_lines ports.now) (journals_of journals.now)) }
{
    for journal in journals {
        push_ports(journal, ports, text)?;
    }
    Ok(())
}

/// Appends the lines of the ports that the journal makes, where they are held.
fn push_ports(journal: &[Entry], ports: &[Placed], text: &mut Vec<u8>) -> Result<(), AllocError>
    ensures { OnOk result (text.new.items
        ≡ text.old.items ++ made_lines ports.now journal.now) }
{
    for entry in journal {
        push_made(&entry.act, ports, text)?;
    }
    Ok(())
}

/// Appends the line of the port that the act makes, where it is held.
fn push_made(act: &Act, ports: &[Placed], text: &mut Vec<u8>) -> Result<(), AllocError>
    ensures { OnOk result (text.new.items ≡ text.old.items
        ++ flat_map (λ (q : Ui). held_line (held_among q ports.now)) (made_in act.now)) }
{
    match act {
        Act::Make { port, .. } => push_port(*port, ports, text),
        _ => Ok(()),
    }
}

/// Appends the line of the port, where it is held.
fn push_port(name: Ui, ports: &[Placed], text: &mut Vec<u8>) -> Result<(), AllocError>
    ensures { OnOk result (text.new.items
        ≡ text.old.items ++ held_line (held_among name ports.now)) }
{
    for placed in ports {
        if placed.port.ui == name {
            return push_held(&placed.port, text);
        }
    }
    Ok(())
}
