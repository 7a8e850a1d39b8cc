//! A journal judged by promises.

ghost use Rattle.std.specs.Prelude.{◌≡◌, ◌≤◌, ◌++◌, length, codes, IfOk, OnOk};
ghost use Rattle.chorus_show.specs.Journal.{count_line};
ghost use Rattle.chorus_audit.specs.declared.limits.TheConstants.{AUDIT_LIMIT};
ghost use Rattle.chorus_judge.specs.Promising.{IsPromised, found_in, found_judgement, found_text};
ghost use Rattle.chorus_judge.specs.Texts.{open_text};

use crate::judgement::Judgement;
use crate::texts::{push_blame, push_opens};
use chorus_audit::{Audit, NO_LINE, push_verdict, read_lines};
use chorus_ui::{Layout, push_decimal};
use judge_promises::{keep, open_entries};
use judge_rules::Blame;
use law_judge::OpenAt;
use std::alloc::{AllocError, Global};

/// What a journal is found to be by promises.
#[derive(Clone, Copy)]
pub(crate) enum Found {
    /// So many entries keep them.
    Kept { entries: u64 },
    /// An entry breaks one: this is said of it.
    Broken { blame: Blame },
    /// All entries up to this line keep them, and it is none that may stand there.
    Stopped { line: u32 },
}

/// What a text of so many entries is found to be by promises, which stops at this line, if it does, and of which this is said.
fn found_in(entries: u64, stop: Option<u32>, blame: Option<Blame>) -> Found
    ensures { result ≡ found_in entries stop blame }
{
    match blame {
        Some(blame) => Found::Broken { blame },
        None => match stop {
            Some(line) => Found::Stopped { line },
            None => Found::Kept { entries },
        },
    }
}

/// What a journal is judged to be that is found to be this by promises, and in which this is open.
fn judgement_of(found: &Found, opens: &[OpenAt]) -> Judgement
    ensures { result ≡ found_judgement found.now opens.now }
{
    match found {
        Found::Kept { .. } => match opens {
            [] => Judgement::Quiet,
            [_, ..] => Judgement::Open,
        },
        _ => Judgement::Wrong,
    }
}

/// Appends the line that so many entries of a judged journal keep the promises.
fn push_kept(entries: u64, out: &mut Vec<u8>) -> Result<(), AllocError>
    ensures { OnOk result (out.new.items ≡ out.old.items ++ count_line (codes "kept") entries) }
{
    out.extend_from_slice(b"kept ")?;
    push_decimal(entries, out)?;
    out.push(b'\n')?;
    Ok(())
}

/// Appends the verdict on a journal that is judged by promises.
fn push_found(found: &Found, out: &mut Vec<u8>) -> Result<(), AllocError>
    ensures { OnOk result (out.new.items ≡ out.old.items ++ found_text found.now) }
{
    match found {
        Found::Kept { entries } => push_kept(*entries, out),
        Found::Broken { blame } => push_blame(blame, out),
        Found::Stopped { line } => {
            let audit = Audit::Wrong {
                line: *line,
                rule: NO_LINE,
            };
            push_verdict(audit, out)
        }
    }
}

/// Appends the text of a judgement by promises.
fn push_promised(found: &Found, opens: &[OpenAt], out: &mut Vec<u8>) -> Result<(), AllocError>
    ensures { OnOk result (out.new.items
        ≡ out.old.items ++ found_text found.now ++ open_text opens.now) }
{
    push_found(found, out)?;
    push_opens(opens, out)
}

/// What the plain text is judged to be by promises for the layout, and the text that says it.
pub(crate) fn promised_for(
    alloc: Global,
    layout: Layout,
    text: &[u8],
) -> Result<(Judgement, Vec<u8>), AllocError>
    requires { length text.now ≤ AUDIT_LIMIT }
    ensures { IfOk result (λ judged. IsPromised layout text.now judged.0 judged.1.items) }
{
    let lines = read_lines(alloc, text)?;
    let count = lines.entries.len() as u64;
    let stop = lines.stop;
    let kept = keep(alloc, layout, lines.entries)?;
    let opens = open_entries(alloc, &kept.log)?;
    let found = found_in(count, stop, kept.blame);
    let mut told = Vec::new(alloc);
    push_promised(&found, &opens, &mut told)?;
    Ok((judgement_of(&found, &opens), told))
}
