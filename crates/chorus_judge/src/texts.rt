//! The text of a judgement.

ghost use Rattle.std.specs.Prelude.{◌≡◌, ◌++◌, ℕ, List, OnOk, Option, codes, reverse, take};
ghost use Rattle.chorus_show.specs.Journal.{count_line};
ghost use Rattle.chorus_audit.specs.Output.{verdict_text};
ghost use Rattle.law_judge.specs.Open.{all_open};
ghost use Rattle.judge_seats.specs.declared.seating.SeatIn.{SeatIn};
ghost use Rattle.judge_seats.specs.Tables.{Tells};
ghost use Rattle.chorus_judge.specs.declared.texts.TheConstants.{TOLD_LIMIT};
ghost use Rattle.chorus_judge.specs.Texts.{about_fields, awaited_word, blame_text, blamed_line, judged_text, legal_line, legal_text, open_line, open_lines, open_text, seat_line, seat_lines, thing_text, wrong_text};
ghost use Rattle.chorus_show.specs.Phrases.{spaced};

use chorus_audit::{Audit, push_verdict};
use chorus_entry::Entry;
use chorus_show::push_id;
use chorus_ui::{Layout, push_decimal};
use judge_rules::Blame;
use judge_seats::{SeatIn, Seating, seat_callers};
use law_judge::{Awaited, Open, OpenAt};
use std::alloc::AllocError;

/// The most lines that tell what is open.
pub const TOLD_LIMIT: usize = 100;

/// Appends the text of a judgement: what an audit finds or what is blamed, what is open, and who sat where in the entries that were
/// read. After an error a part of it may stand there.
pub(crate) fn push_judged(
    layout: Layout,
    audit: Audit,
    blame: &Option<Blame>,
    entries: &[Entry],
    opens: &[OpenAt],
    out: &mut Vec<u8>,
) -> Result<(), AllocError>
    requires { opens.now ≡ all_open layout (reverse entries.now) }
    ensures { OnOk result (out.new.items
        ≡ out.old.items ++ judged_text layout audit blame.now (reverse entries.now)) }
{
    match audit {
        Audit::Wrong { .. } => {
            push_refused(audit, blame, opens, out)?;
            Ok(())
        }
        Audit::Legal { entries: count } => {
            let seating = seat_callers(*out.allocator(), layout, entries)?;
            push_legal(count, &seating, opens, out)
        }
    }
}

/// Appends the text of a journal that is judged to be wrong.
fn push_refused(
    audit: Audit,
    blame: &Option<Blame>,
    opens: &[OpenAt],
    out: &mut Vec<u8>,
) -> Result<(), AllocError>
    ensures { OnOk result (out.new.items
        ≡ out.old.items ++ wrong_text audit blame.now ++ open_text opens.now) }
{
    push_wrong(audit, blame, out)?;
    push_opens(opens, out)
}

/// Appends the verdict on a wrong line of a judged journal: what is blamed, or what an audit finds.
fn push_wrong(audit: Audit, blame: &Option<Blame>, out: &mut Vec<u8>) -> Result<(), AllocError>
    ensures { OnOk result (out.new.items ≡ out.old.items ++ wrong_text audit blame.now) }
{
    match blame {
        Some(blame) => push_blame(blame, out),
        None => push_verdict(audit, out),
    }
}

/// Appends what is blamed for a wrong line of a judged journal.
pub(crate) fn push_blame(blame: &Blame, out: &mut Vec<u8>) -> Result<(), AllocError>
    ensures { OnOk result (out.new.items ≡ out.old.items ++ blame_text blame.now) }
{
    push_blamed(blame, out)?;
    push_about(blame.about, out)?;
    out.push(b'\n')?;
    Ok(())
}

/// Appends the wrong line of a judged journal, its rule, and which condition of the rule fails.
fn push_blamed(blame: &Blame, out: &mut Vec<u8>) -> Result<(), AllocError>
    ensures { OnOk result (out.new.items ≡ out.old.items ++ blamed_line blame.now) }
{
    out.extend_from_slice(b"wrong line ")?;
    push_decimal(blame.line, out)?;
    out.extend_from_slice(b" rule ")?;
    push_decimal(u64::from(blame.rule), out)?;
    out.extend_from_slice(b" condition ")?;
    push_decimal(u64::from(blame.condition), out)?;
    Ok(())
}

/// Appends the line of the entry that the condition of a judged journal is about, if there is one.
fn push_about(line: u64, out: &mut Vec<u8>) -> Result<(), AllocError>
    ensures { OnOk result (out.new.items ≡ out.old.items ++ spaced (about_fields line)) }
{
    if line != 0 {
        out.extend_from_slice(b" line ")?;
        push_decimal(line, out)?;
    }
    Ok(())
}

/// Appends the text of a lawful journal of so many entries that was judged.
fn push_legal(
    count: u32,
    seating: &Seating,
    opens: &[OpenAt],
    out: &mut Vec<u8>,
) -> Result<(), AllocError>
    ensures { OnOk result ((out_at : Option ℕ) (seats : List SeatIn) → Tells out_at seats seating.now
        → out.new.items ≡ out.old.items ++ legal_text count out_at seats opens.now) }
{
    match seating {
        Seating::Run { seats } => {
            push_run(count, out)?;
            push_opens(opens, out)?;
            push_seats(seats, out)
        }
        Seating::Out { line } => {
            push_out(count, *line, out)?;
            push_opens(opens, out)
        }
    }
}

/// Appends the verdict on a journal of so many entries that is judged to be a run.
fn push_run(count: u32, out: &mut Vec<u8>) -> Result<(), AllocError>
    ensures { OnOk result (out.new.items ≡ out.old.items ++ count_line (codes "run") count) }
{
    out.extend_from_slice(b"run ")?;
    push_decimal(u64::from(count), out)?;
    out.push(b'\n')?;
    Ok(())
}

/// Appends the verdict on a lawful journal of so many entries that is judged to be no run from this line on.
fn push_out(count: u32, line: u64, out: &mut Vec<u8>) -> Result<(), AllocError>
    ensures { OnOk result (out.new.items ≡ out.old.items ++ legal_line count line) }
{
    out.extend_from_slice(b"legal ")?;
    push_decimal(u64::from(count), out)?;
    out.extend_from_slice(b" line ")?;
    push_decimal(line, out)?;
    out.push(b'\n')?;
    Ok(())
}

/// Appends the callers of a journal that is judged to be a run, each with its actor.
fn push_seats(seats: &[SeatIn], out: &mut Vec<u8>) -> Result<(), AllocError>
    ensures { OnOk result (out.new.items ≡ out.old.items ++ seat_lines seats.now) }
{
    for sat in seats {
        push_seat(sat, out)?;
    }
    Ok(())
}

/// Appends a caller of a judged journal with its actor.
fn push_seat(sat: &SeatIn, out: &mut Vec<u8>) -> Result<(), AllocError>
    ensures { OnOk result (out.new.items ≡ out.old.items ++ seat_line sat.now) }
{
    out.extend_from_slice(b"seat ")?;
    push_decimal(u64::from(sat.seat), out)?;
    out.push(b' ')?;
    sat.actor.text(out)?;
    out.push(b'\n')?;
    Ok(())
}

/// Appends how much is open in a judged journal, and the lines of what is, at most so many.
pub(crate) fn push_opens(opens: &[OpenAt], out: &mut Vec<u8>) -> Result<(), AllocError>
    ensures { OnOk result (out.new.items ≡ out.old.items ++ open_text opens.now) }
{
    out.extend_from_slice(b"open ")?;
    push_decimal(opens.len() as u64, out)?;
    out.push(b'\n')?;
    push_lines(first_told(opens), out)
}

/// What is told in lines of what is open in a judged journal: the first so many.
fn first_told(opens: &[OpenAt]) -> &[OpenAt]
    ensures { result.now ≡ take TOLD_LIMIT opens.now }
{
    &opens[..TOLD_LIMIT.min(opens.len())]
}

/// Appends the lines of what is open in a judged journal.
fn push_lines(opens: &[OpenAt], out: &mut Vec<u8>) -> Result<(), AllocError>
    ensures { OnOk result (out.new.items ≡ out.old.items ++ open_lines opens.now) }
{
    for found in opens {
        push_line(found, out)?;
    }
    Ok(())
}

/// Appends the line of something that is open in a judged journal.
fn push_line(found: &OpenAt, out: &mut Vec<u8>) -> Result<(), AllocError>
    ensures { OnOk result (out.new.items ≡ out.old.items ++ open_line found.now) }
{
    out.extend_from_slice(b"line ")?;
    push_decimal(found.line, out)?;
    out.push(b' ')?;
    push_thing(&found.what, out)?;
    out.push(b'\n')?;
    Ok(())
}

/// Appends what is open in a judged journal, and what it lacks.
fn push_thing(what: &Open, out: &mut Vec<u8>) -> Result<(), AllocError>
    ensures { OnOk result (out.new.items ≡ out.old.items ++ thing_text what.now) }
{
    match what {
        Open::Message { id, awaited } => {
            out.extend_from_slice(b"message ")?;
            push_id(id, out)?;
            out.extend_from_slice(b" without ")?;
            out.extend_from_slice(awaited_word(*awaited).as_bytes())
        }
        Open::Port { port } => {
            out.extend_from_slice(b"port ")?;
            port.text(out)?;
            out.extend_from_slice(b" without arrive")
        }
        Open::Reply { id } => {
            out.extend_from_slice(b"reply ")?;
            push_id(id, out)?;
            out.extend_from_slice(b" without done")
        }
    }
}

/// The word of what an open message lacks.
fn awaited_word(awaited: Awaited) -> &'static str
    ensures { result.now ≡ awaited_word awaited }
{
    match awaited {
        Awaited::Verdict => "verdict",
        Awaited::Choice => "choose",
        Awaited::Told => "told",
        Awaited::Heard => "heard",
    }
}
