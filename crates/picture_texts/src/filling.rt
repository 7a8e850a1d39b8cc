//! Templates with numbers, and texts in which nothing is read as markup.

ghost use Rattle.std.specs.Prelude.{◌≡◌, ◌==◌, ◌≤◌, ◌++◌, false, length, decimal, OnOk};
ghost use Rattle.std.specs.List.{list_any, position, position_or_len};
ghost use Rattle.picture_texts.specs.Filling.{cut, filled, markup_byte, markup, most_shown, shown, shown_act, shown_body};
ghost use Rattle.picture_texts.specs.Stretches.{is_special};

use crate::limits::{SHORT_ACT_LIMIT, SHOWN_BODY_LIMIT, SHOWN_LIMIT};
use chorus_ui::push_decimal;
use std::alloc::AllocError;

/// Appends the template with the next number in place of each `@`. After an error a part of it may stand there.
pub fn push_filled(template: &[u8], numbers: &[u64], out: &mut Vec<u8>) -> Result<(), AllocError>
    ensures { OnOk result (out.new.items ≡ out.old.items ++ filled template.now numbers.now) }
{
    let (front, rest) = template.split_at(front_of(template));
    out.extend_from_slice(front)?;
    let [_, behind @ ..] = rest else {
        return Ok(());
    };
    let [number, more @ ..] = numbers else {
        out.extend_from_slice(rest)?;
        return Ok(());
    };
    push_decimal(*number, out)?;
    push_filled(behind, more, out)
}

/// Appends the text as it is and the number's decimal behind it: a stretch of a template up to the number in its gap.
/// After an error a part of it may stand there.
#[inline(always)]
pub fn push_numbered(text: &[u8], number: u64, out: &mut Vec<u8>) -> Result<(), AllocError>
    ensures { OnOk result (out.new.items ≡ out.old.items ++ (text.now ++ decimal number)) }
{
    out.extend_from_slice(text)?;
    push_decimal(number, out)
}

/// How many bytes of a template stand before its first `@`.
#[tactic(auto, using(crate::proofs::Stretches::or_length))]
fn front_of(template: &[u8]) -> usize
    ensures value { result ≡ position_or_len (λ c. c == 64) template.now }
    ensures within { result ≤ length template.now }
{
    gap_in(template).unwrap_or(template.len())
}

/// The place of the first `@` in a template.
fn gap_in(template: &[u8]) -> Option<usize>
    ensures { result ≡ position (λ c. c == 64) template.now }
{
    template.iter().position(|c| *c == b'@')
}

/// Appends the text as it stands between the tags of a picture. After an error a part of it may stand there.
pub fn push_markup(text: &[u8], out: &mut Vec<u8>) -> Result<(), AllocError>
    ensures { OnOk result (out.new.items ≡ out.old.items ++ markup text.now) }
{
    let (front, rest) = text.split_at(plain_front(text));
    out.extend_from_slice(front)?;
    let [byte, behind @ ..] = rest else {
        return Ok(());
    };
    push_markup_byte(*byte, out)?;
    push_markup(behind, out)
}

/// How many bytes of a text stand before the first that is not written as itself in a picture.
#[tactic(auto, using(crate::proofs::Stretches::or_length))]
pub fn plain_front(text: &[u8]) -> usize
    ensures value { result ≡ position_or_len is_special text.now }
    ensures within { result ≤ length text.now }
{
    special_in(text).unwrap_or(text.len())
}

/// The place of the first byte of a text that is not written as itself in a picture.
fn special_in(text: &[u8]) -> Option<usize>
    ensures { result ≡ position is_special text.now }
{
    text.iter().position(|c| is_special(*c))
}

/// Whether a byte is not written as itself between the tags of a picture.
fn is_special(byte: u8) -> bool
    ensures { result ≡ is_special byte }
{
    matches!(byte, b'<' | b'>' | b'&' | b'\'' | b'"' | b'\n')
}

/// Appends a byte as it stands in the picture's markup: the special ones by a reference, LF as a space.
fn push_markup_byte(byte: u8, out: &mut Vec<u8>) -> Result<(), AllocError>
    ensures { OnOk result (out.new.items ≡ out.old.items ++ markup_byte byte) }
{
    match byte {
        b'<' => out.extend_from_slice(b"&lt;"),
        b'>' => out.extend_from_slice(b"&gt;"),
        b'&' => out.extend_from_slice(b"&amp;"),
        b'\'' => out.extend_from_slice(b"&#39;"),
        b'"' => out.extend_from_slice(b"&quot;"),
        b'\n' => out.extend_from_slice(b" "),
        other => {
            out.push(other)?;
            Ok(())
        }
    }
}

/// Appends the text as it stands between the tags of a picture, cut behind 72 bytes. After an error a part of it may
/// stand there.
pub fn push_shown(text: &[u8], out: &mut Vec<u8>) -> Result<(), AllocError>
    ensures { OnOk result (out.new.items ≡ out.old.items ++ shown text.now) }
{
    push_cut(SHOWN_LIMIT, text, out)
}

/// Appends the act as it stands between the tags of a picture, cut behind 72 bytes and behind 24 of its body. After an
/// error a part of it may stand there.
pub fn push_shown_act(act: &[u8], out: &mut Vec<u8>) -> Result<(), AllocError>
    ensures { OnOk result (out.new.items ≡ out.old.items ++ shown_act act.now) }
{
    if act.len() <= SHORT_ACT_LIMIT {
        return push_markup(act, out);
    }
    push_cut(most_shown(equals_sign_in(act)), act, out)
}

/// Appends the text of a body, `=` and what stands for its bytes, as it stands between the tags of a
/// picture, cut behind 24 characters. After an error a part of it may stand there.
pub fn push_shown_body(text: &[u8], out: &mut Vec<u8>) -> Result<(), AllocError>
    ensures { OnOk result (out.new.items ≡ out.old.items ++ shown_body text.now) }
{
    push_cut(1 + SHOWN_BODY_LIMIT, text, out)
}

/// Appends the act as [`push_shown_act`] does, where each of its bytes is written as itself: not searched once more.
pub fn push_plain_act(act: &[u8], out: &mut Vec<u8>) -> Result<(), AllocError>
    requires { list_any is_special act.now ≡ false }
    ensures { OnOk result (out.new.items ≡ out.old.items ++ shown_act act.now) }
{
    if act.len() <= SHORT_ACT_LIMIT {
        out.extend_from_slice(act)?;
        return Ok(());
    }
    push_plain_cut(most_shown(equals_sign_in(act)), act, out)
}

/// The place of the first `=` in the text of an act, behind which its body is.
fn equals_sign_in(act: &[u8]) -> Option<usize>
    ensures { result ≡ position (λ c. c == 61) act.now }
{
    act.iter().position(|c| *c == b'=')
}

/// How many bytes of an act are shown at most, by the place of its first `=`.
fn most_shown(at: Option<usize>) -> usize
    ensures { result ≡ most_shown at }
{
    match at {
        Some(at) if at < SHOWN_LIMIT => SHOWN_LIMIT.min(at + 1 + SHOWN_BODY_LIMIT),
        _ => SHOWN_LIMIT,
    }
}

/// Appends the text as it stands between the tags of a picture, cut behind so many bytes.
fn push_cut(most: usize, text: &[u8], out: &mut Vec<u8>) -> Result<(), AllocError>
    ensures { OnOk result (out.new.items ≡ out.old.items ++ markup (cut most text.now)) }
{
    if text.len() <= most {
        return push_markup(text, out);
    }
    let (front, _) = text.split_at(most);
    push_markup(front, out)?;
    push_markup(b"...", out)?;
    Ok(())
}

/// Appends the text as [`push_cut`] does, where each of its bytes is written as itself.
fn push_plain_cut(most: usize, text: &[u8], out: &mut Vec<u8>) -> Result<(), AllocError>
    requires { list_any is_special text.now ≡ false }
    ensures { OnOk result (out.new.items ≡ out.old.items ++ markup (cut most text.now)) }
{
    if text.len() <= most {
        out.extend_from_slice(text)?;
        return Ok(());
    }
    let (front, _) = text.split_at(most);
    out.extend_from_slice(front)?;
    out.extend_from_slice(b"...")?;
    Ok(())
}
