//! The lines of messages that were posted, and of their copies.

ghost use Rattle.std.specs.Prelude.{◌≡◌, ◌≤◌, ◌++◌, List, length, map, reverse, IfOk, OnOk};
ghost use Rattle.std.specs.List.{flat_map};
ghost use Rattle.chorus_ui.specs.declared.limits.TheConstants.{MEMBERS_LIMIT};
ghost use Rattle.chorus_entry.specs.declared.id.MsgId.{MsgId};
ghost use Rattle.chorus_world.specs.GroupLaws.{copies_by, copies_of};
ghost use Rattle.chorus_world.specs.Places.{copies as copies_to};
ghost use Rattle.chorus_ui.specs.declared.ui.Ui.{Ui};
ghost use Rattle.chorus_world.specs.declared.place.Sent.{Sent};
ghost use Rattle.law_explore.specs.Outcome.{copies_in, is_stale_in, verdict_in};
ghost use Rattle.law_explore.specs.Moment.{copy_facts, facts_of, judged_or_open, sent_by, sent_in};
ghost use Rattle.explore_report.specs.Facts.{fact_line, outcome_lines};
ghost use Rattle.explore_moments.specs.Moments.{has_some, post_lines, sent_as, states};

use chorus_entry::{Act, Answer, Entry, MsgId};
use chorus_place::Place;
use chorus_ui::Ui;
use explore_report::{is_stale_at, push_copied, push_judged, push_open, push_stale, verdict_at};
use std::alloc::{AllocError, Global};

/// A copy of a message, and the member that it goes to.
#[derive(Clone, Copy, PartialEq, Eq)]
pub struct Copied {
    /// The copy.
    pub id: MsgId,
    /// The member.
    pub port: Ui,
}

/// Appends the lines of the messages that were posted, and behind each of them those of its copies, as these places tell. The only
/// error is want of memory; the lines may then be cut off.
pub fn push_posts(
    alloc: Global,
    ids: &[MsgId],
    places: &[Place],
    text: &mut Vec<u8>,
) -> Result<(), AllocError>
    ensures { OnOk result (text.new.items
        ≡ text.old.items ++ flat_map (post_lines (states places.now)) ids.now) }
{
    for id in ids {
        push_post(alloc, *id, places, text)?;
    }
    Ok(())
}

/// Appends the lines of the message, and behind them those of its copies.
fn push_post(
    alloc: Global,
    id: MsgId,
    places: &[Place],
    text: &mut Vec<u8>,
) -> Result<(), AllocError>
    ensures { OnOk result (text.new.items ≡ text.old.items ++ post_lines (states places.now) id) }
{
    push_message(id, places, text)?;
    let copies = sent_in(alloc, id, places)?;
    push_all_copies(&copies, places, text)
}

/// Appends the lines of the copies.
fn push_all_copies(
    copies: &[Copied],
    places: &[Place],
    text: &mut Vec<u8>,
) -> Result<(), AllocError>
    ensures { OnOk result (text.new.items ≡ text.old.items ++ flat_map (λ (c : MsgId × Ui).
        outcome_lines (copy_facts (states places.now) c)) (map sent_as copies.now)) }
{
    for copy in copies {
        push_copy(copy, places, text)?;
    }
    Ok(())
}

/// Appends the lines of a copy: the member that it goes to, and what became of it.
fn push_copy(copy: &Copied, places: &[Place], text: &mut Vec<u8>) -> Result<(), AllocError>
    ensures { OnOk result (text.new.items ≡ text.old.items
        ++ outcome_lines (copy_facts (states places.now) (sent_as copy.now))) }
{
    push_copied(&copy.id, copy.port, text)?;
    push_message(copy.id, places, text)
}

/// Appends the lines of the message alone: its verdict, or that it is open, and that it was told `stale`.
fn push_message(id: MsgId, places: &[Place], text: &mut Vec<u8>) -> Result<(), AllocError>
    ensures { OnOk result (text.new.items
        ≡ text.old.items ++ outcome_lines (facts_of (states places.now) id)) }
{
    let copied = has_copies(id, places);
    push_judged_or_open(id, verdict_in(id, places), copied, text)?;
    if is_stale_in(id, places) {
        push_stale(&id, text)?;
    }
    Ok(())
}

/// Appends the line of the message's verdict, or that it is open where it has none, and no copies.
fn push_judged_or_open(
    id: MsgId,
    verdict: Option<Answer>,
    copied: bool,
    text: &mut Vec<u8>,
) -> Result<(), AllocError>
    ensures { OnOk result ((ids : List MsgId) → copied ≡ has_some ids →
        text.new.items ≡ text.old.items ++ fact_line (judged_or_open id verdict ids)) }
{
    if verdict.is_none() && !copied {
        return push_open(&id, text);
    }
    push_judged(&id, verdict, text)
}

/// The verdict that the places tell of the message.
fn verdict_in(id: MsgId, places: &[Place]) -> Option<Answer>
    ensures { result ≡ verdict_in id (states places.now) }
{
    let mut found = None;
    for place in places {
        if found.is_none() {
            found = verdict_at(id, place.journal());
        }
    }
    found
}

/// Whether one of the places tells that the message was told `stale`.
fn is_stale_in(id: MsgId, places: &[Place]) -> bool
    ensures { result ≡ is_stale_in id (states places.now) }
{
    for place in places {
        if is_stale_at(id, place.journal()) {
            return true;
        }
    }
    false
}

/// Whether one of the places tells of a copy of the message.
fn has_copies(id: MsgId, places: &[Place]) -> bool
    ensures { result ≡ has_some (copies_in id (states places.now)) }
{
    for place in places {
        if has_copies_at(id, place.journal()) {
            return true;
        }
    }
    false
}

/// Whether the journal makes a copy of the message.
fn has_copies_at(id: MsgId, journal: &[Entry]) -> bool
    ensures { result ≡ has_some (copies_of id (reverse journal.now)) }
{
    let mut found = false;
    for entry in journal {
        found = found || has_copies_by(id, &entry.act);
    }
    found
}

/// Whether the act makes a copy of the message.
fn has_copies_by(id: MsgId, act: &Act) -> bool
    ensures { result ≡ has_some (copies_by id act.now) }
{
    match act {
        Act::Choose {
            id: chosen,
            members,
            ..
        } => *chosen == id && !members.uis().is_empty(),
        _ => false,
    }
}

/// The copies of the message, as the places tell of them.
fn sent_in(alloc: Global, id: MsgId, places: &[Place]) -> Result<Vec<Copied>, AllocError>
    ensures { IfOk result (λ copies. map sent_as copies.items ≡ sent_in id (states places.now)) }
{
    let mut copies = Vec::new(alloc);
    for place in places {
        push_sent(id, place.journal(), &mut copies)?;
    }
    Ok(copies)
}

/// Appends the copies that the journal makes of the message.
pub fn push_sent(id: MsgId, journal: &[Entry], copies: &mut Vec<Copied>) -> Result<(), AllocError>
    ensures { OnOk result (map sent_as copies.new.items
        ≡ map sent_as copies.old.items ++ sent_by id (reverse journal.now)) }
{
    for entry in journal {
        push_chosen(id, &entry.act, copies)?;
    }
    Ok(())
}

/// Appends the copies that the act makes of the message.
fn push_chosen(id: MsgId, act: &Act, copies: &mut Vec<Copied>) -> Result<(), AllocError>
    ensures { OnOk result (map sent_as copies.new.items ≡ map sent_as copies.old.items
        ++ map (λ (m : Sent). (m.id, m.port)) (copies_by id act.now)) }
{
    match act {
        Act::Choose {
            id: chosen,
            members,
            ..
        } => {
            if *chosen == id {
                push_each(*chosen, members.uis(), copies)
            } else {
                Ok(())
            }
        }
        _ => Ok(()),
    }
}

/// Appends the message's copies for these members.
fn push_each(id: MsgId, members: &[Ui], copies: &mut Vec<Copied>) -> Result<(), AllocError>
    requires { length members.now ≤ MEMBERS_LIMIT }
    ensures { OnOk result ((g : Ui) → map sent_as copies.new.items ≡ map sent_as copies.old.items
        ++ map (λ (m : Sent). (m.id, m.port)) (copies_to id g 1 members.now)) }
{
    for index in 0..members.len() {
        let id = MsgId {
            seat: id.seat,
            number: id.number,
            copy: index as u16 + 1,
        };
        copies.push(Copied {
            id,
            port: members[index],
        })?;
    }
    Ok(())
}
