//! The entry of a wrong line, and what is blamed for it.

ghost use Rattle.std.specs.Prelude.{◌≡◌, ◌≢◌, IfOk, reverse};
ghost use Rattle.chorus_audit.specs.declared.limits.TheConstants.{NO_LINE};
ghost use Rattle.chorus_audit.specs.Tests.{IsRead};
ghost use Rattle.chorus_judge.specs.Blaming.{behind_line, behind_lines, BlamesBy};

use checker_ledger::Ledger;
use chorus_audit::{Audit, NO_LINE, parse_entry};
use chorus_lines::cut;
use judge_rules::{Blame, blame_for};
use std::alloc::{AllocError, Global};

/// What is blamed for the wrong line of the text, of which an audit finds this. The entries of the ledger were read.
pub(crate) fn blame_in(
    alloc: Global,
    ledger: &Ledger,
    text: &[u8],
    audit: Audit,
) -> Result<Option<Blame>, AllocError>
    requires { IsRead ledger.now.layout text.now audit (reverse ledger.now.past) }
    ensures { IfOk result
        (BlamesBy ledger.now.layout text.now audit (reverse ledger.now.past)) }
{
    match audit {
        Audit::Legal { .. } => Ok(None),
        Audit::Wrong { rule: NO_LINE, .. } => Ok(None),
        Audit::Wrong { line, rule } => blame_entry(alloc, ledger, text, line, rule),
    }
}

/// What is blamed for this line of the text, which has an entry that an audit refuses by this rule.
fn blame_entry(
    alloc: Global,
    ledger: &Ledger,
    text: &[u8],
    line: u32,
    rule: u8,
) -> Result<Option<Blame>, AllocError>
    requires read { IsRead ledger.now.layout text.now (Audit.Wrong line rule)
        (reverse ledger.now.past) }
    requires rule { rule ≢ NO_LINE }
    ensures { IfOk result (BlamesBy ledger.now.layout text.now (Audit.Wrong line rule)
        (reverse ledger.now.past)) }
{
    let (row, _) = cut(b'\n', behind_lines(text, line.saturating_sub(1)));
    match parse_entry(alloc, row)? {
        Some(entry) => Ok(Some(blame_for(ledger, &entry, rule))),
        None => Ok(None),
    }
}

/// What stands behind so many lines of a judged text.
fn behind_lines(text: &[u8], count: u32) -> &[u8]
    ensures { result.now ≡ behind_lines count text.now }
{
    let mut left = text;
    for _ in 0..count {
        left = behind_line(left);
    }
    left
}

/// What stands behind the first line of a judged text.
fn behind_line(text: &[u8]) -> &[u8]
    ensures { result.now ≡ behind_line text.now }
{
    match cut(b'\n', text).1 {
        Some(rest) => rest,
        None => &[],
    }
}
