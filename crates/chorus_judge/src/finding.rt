//! What is open, found.

ghost use Rattle.std.specs.Prelude.{◌≡◌, ◌≤◌, ◌+◌, ◌++◌, ◌∷◌, [], length, IfOk, OnOk};
ghost use Rattle.chorus_ui.specs.declared.limits.TheConstants.{MEMBERS_LIMIT};
ghost use Rattle.chorus_ui.specs.declared.ui.Ui.{Ui};
ghost use Rattle.chorus_world.specs.Places.{copies};
ghost use Rattle.law_judge.specs.Open.{all_open, at_line};
ghost use Rattle.chorus_judge.specs.Findings.{asked_away, copies_at, found_at, message_at};

use checker_ledger::Ledger;
use checker_rows::posting::Posting;
use checker_rows::sending::copy_of;
use chorus_checker::port::is_coming;
use chorus_entry::{Act, Entry, MsgId};
use chorus_ui::{Layout, Ui};
use judge_promises::awaited;
use law_judge::{Open, OpenAt};
use std::alloc::{AllocError, Global};

/// What is open at the end of the ledger's entries, for the layout, with the lines of a printed journal that it began with: from
/// the first one on.
pub fn open_entries(
    alloc: Global,
    layout: Layout,
    ledger: &Ledger,
) -> Result<Vec<OpenAt>, AllocError>
    ensures { IfOk result (λ found. found.items ≡ all_open layout ledger.now.past) }
{
    let mut found = Vec::new(alloc);
    let entries = ledger.entries();
    for (i, entry) in entries.iter().enumerate() {
        push_by(layout, ledger, i as u64 + 2, entry, &mut found)?;
    }
    Ok(found)
}

/// Appends what the entry at this line of a judged journal began that is still open.
fn push_by(
    layout: Layout,
    ledger: &Ledger,
    line: u64,
    entry: &Entry,
    out: &mut Vec<OpenAt>,
) -> Result<(), AllocError>
    ensures { OnOk result (out.new.items
        ≡ out.old.items ++ found_at layout ledger.now.past line entry.now) }
{
    match &entry.act {
        Act::Post { message, .. } => push_message(layout, ledger, line, message.id, out),
        Act::Choose { id, members, .. } => {
            push_copies(layout, ledger, line, *id, 0, members.uis(), out)
        }
        Act::Depart { port, to, hop, .. } => {
            if is_coming(ledger.port(*port), *to, *hop) {
                push_found(line, Open::Port { port: *port }, out)?;
            }
            Ok(())
        }
        Act::Take { id, .. } => {
            if entry.clock == ledger.last_clock(entry.place)
                && ledger.just_taken(entry.place).is_some()
            {
                push_found(line, Open::Reply { id: *id }, out)?;
            }
            Ok(())
        }
        _ => Ok(()),
    }
}

/// Appends something that is open, which the entry at this line of a judged journal began.
fn push_found(line: u64, what: Open, out: &mut Vec<OpenAt>) -> Result<(), AllocError>
    ensures { OnOk result (out.new.items ≡ out.old.items ++ at_line line what ∷ []) }
{
    out.push(OpenAt { line, what })?;
    Ok(())
}

/// Appends the message that the entry at this line of a judged journal began, where something is still to come of it.
fn push_message(
    layout: Layout,
    ledger: &Ledger,
    line: u64,
    id: MsgId,
    out: &mut Vec<OpenAt>,
) -> Result<(), AllocError>
    ensures { OnOk result (out.new.items
        ≡ out.old.items ++ message_at layout ledger.now.past line id) }
{
    let away = is_asked_away(layout, ledger.post_of(id));
    if let Some(awaited) = awaited(away, ledger.progress(id)) {
        push_found(line, Open::Message { id, awaited }, out)?;
    }
    Ok(())
}

/// Appends the copies of a post for these members, of which so many others come before them, that the entry at this line of a
/// judged journal began, where something is still to come of them.
fn push_copies(
    layout: Layout,
    ledger: &Ledger,
    line: u64,
    post: MsgId,
    before: usize,
    members: &[Ui],
    out: &mut Vec<OpenAt>,
) -> Result<(), AllocError>
    requires { before + length members.now ≤ MEMBERS_LIMIT }
    ensures { OnOk result ((group : Ui) → out.new.items ≡ out.old.items
        ++ copies_at layout ledger.now.past line (copies post group (before + 1) members.now)) }
{
    let [_, more @ ..] = members else {
        return Ok(());
    };
    push_message(layout, ledger, line, copy_of(post, before), out)?;
    push_copies(layout, ledger, line, post, before + 1, more, out)
}

/// Whether it was posted to a group of another place of the judged journal, which tells the place of the post what becomes of it.
fn is_asked_away(layout: Layout, post: Option<Posting>) -> bool
    ensures { result ≡ asked_away layout post }
{
    let Some(post) = post else {
        return false;
    };
    match post.dest.group() {
        Some(group) => {
            layout.has_site(group.site()) && layout.first_place(group.site()) != post.place
        }
        None => false,
    }
}
