//! What stands below the rows: what was found of the text, and the legend.

ghost use Rattle.std.specs.Prelude.{◌≡◌, ◌<◌, ◌^◌, ◌-◌, ◌++◌, OnOk};
ghost use Rattle.std.specs.List.{flat_map};
ghost use Rattle.chorus_show.specs.Phrases.{byte_text};
ghost use Rattle.chorus_picture.specs.Found.{behind_lines, foot, foot_front, found_by, lawful_front, lawful_text, line_bytes, rule_front, wrong_front, wrong_text};

use crate::rule_words::rule_words;
use crate::style::LEGEND;
use chorus_audit::Audit;
use chorus_show::push_byte;
use picture_texts::{push_filled, push_markup, push_shown};
use std::alloc::AllocError;

/// Appends what was found of the text, or the summary where all is lawful, where the rows end at y.
pub(crate) fn push_found(
    text: &[u8],
    summary: &[u8],
    audit: Audit,
    y: u64,
    out: &mut Vec<u8>,
) -> Result<(), AllocError>
    requires { y < 2 ^ 50 }
    ensures { OnOk result
        (out.new.items ≡ out.old.items ++ found_by text.now summary.now audit y) }
{
    match audit {
        Audit::Legal { entries } => push_lawful(summary, entries, y, out),
        Audit::Wrong { line, rule } => push_wrong(text, line, rule, y, out),
    }
}

/// Appends below the rows, which end at y, that all so many entries are lawful, and their summary.
fn push_lawful(summary: &[u8], entries: u32, y: u64, out: &mut Vec<u8>) -> Result<(), AllocError>
    requires { y < 2 ^ 50 }
    ensures { OnOk result
        (out.new.items ≡ out.old.items ++ lawful_text summary.now entries y) }
{
    push_lawful_front(u64::from(entries), y, out)?;
    push_markup(summary, out)?;
    out.extend_from_slice(b"</text>\n")?;
    Ok(())
}

/// Appends what stands before the summary: that so many entries are all lawful, where the rows end at y.
#[tactic(auto, unfolding(crate::specs::Found::lawful_front))]
fn push_lawful_front(number: u64, y: u64, out: &mut Vec<u8>) -> Result<(), AllocError>
    requires { y < 2 ^ 50 }
    ensures { OnOk result (out.new.items ≡ out.old.items ++ lawful_front number y) }
{
    push_filled(
        b"<text x='8' y='@'>@ entries, all lawful</text><text class='sum' x='8' y='@'>",
        &[y + 22, number, y + 40],
        out,
    )
}

/// Appends below the rows, which end at y, the line that is wrong, and its rule.
fn push_wrong(text: &[u8], line: u32, rule: u8, y: u64, out: &mut Vec<u8>) -> Result<(), AllocError>
    requires { y < 2 ^ 50 }
    ensures { OnOk result
        (out.new.items ≡ out.old.items ++ wrong_text text.now line rule y) }
{
    let mut wrong = Vec::new(*out.allocator());
    push_line_bytes(73, behind_lines(line.saturating_sub(1), text), &mut wrong)?;
    push_wrong_front(u64::from(line), y, out)?;
    push_shown(&wrong, out)?;
    push_rule_front(u64::from(rule), y, out)?;
    push_markup(rule_words(rule).as_bytes(), out)?;
    out.extend_from_slice(b"</text>\n")?;
    Ok(())
}

/// Appends what stands before the bytes of the wrong line: its number, where the rows end at y.
#[tactic(auto, unfolding(crate::specs::Found::wrong_front))]
fn push_wrong_front(line: u64, y: u64, out: &mut Vec<u8>) -> Result<(), AllocError>
    requires { y < 2 ^ 50 }
    ensures { OnOk result (out.new.items ≡ out.old.items ++ wrong_front line y) }
{
    push_filled(
        b"<text class='wrong' x='8' y='@'>line @ is wrong: ",
        &[y + 22, line],
        out,
    )
}

/// Appends what stands before the words of a rule that is broken: its number, where the rows end at y.
#[tactic(auto, unfolding(crate::specs::Found::rule_front))]
fn push_rule_front(rule: u64, y: u64, out: &mut Vec<u8>) -> Result<(), AllocError>
    requires { y < 2 ^ 50 }
    ensures { OnOk result (out.new.items ≡ out.old.items ++ rule_front rule y) }
{
    push_filled(
        b"</text><text class='wrong' x='8' y='@'>rule @: ",
        &[y + 40, rule],
        out,
    )
}

/// The text of a journal behind so many lines: where its first entry or its wrong line begins.
pub(crate) fn behind_lines(lines: u32, text: &[u8]) -> &[u8]
    ensures { result.now ≡ behind_lines lines text.now }
{
    let mut left = lines;
    let mut rest = text;
    while let [byte, more @ ..] = rest
        && left != 0
    {
        if *byte == b'\n' {
            left -= 1;
        }
        rest = more;
    }
    rest
}

/// Appends the first bytes of the wrong line, with which the text begins, at most so many, written as those of a body.
fn push_line_bytes(most: u32, text: &[u8], out: &mut Vec<u8>) -> Result<(), AllocError>
    ensures { OnOk result
        (out.new.items ≡ out.old.items ++ flat_map byte_text (line_bytes most text.now)) }
{
    match text {
        [byte, more @ ..] if most != 0 && *byte != b'\n' => {
            push_byte(*byte, out)?;
            push_line_bytes(most - 1, more, out)
        }
        _ => Ok(()),
    }
}

/// Appends the legend, and ends the document, where the rows end at y.
pub(crate) fn push_foot(y: u64, out: &mut Vec<u8>) -> Result<(), AllocError>
    requires { y < 2 ^ 50 }
    ensures { OnOk result (out.new.items ≡ out.old.items ++ foot y) }
{
    push_foot_front(y, out)?;
    out.extend_from_slice(LEGEND.as_bytes())?;
    out.extend_from_slice(b"</g>\n</svg>\n")?;
    Ok(())
}

/// Appends the tag that begins the legend, where the rows end at y.
#[tactic(auto, unfolding(crate::specs::Found::foot_front))]
fn push_foot_front(y: u64, out: &mut Vec<u8>) -> Result<(), AllocError>
    requires { y < 2 ^ 50 }
    ensures { OnOk result (out.new.items ≡ out.old.items ++ foot_front y) }
{
    push_filled(b"<g transform='translate(0 @)'>\n", &[y + 56], out)
}
