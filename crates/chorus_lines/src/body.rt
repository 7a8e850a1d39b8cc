//! Bodies of messages: `=` and the bytes, or `x` and two digits for each byte.

ghost use Rattle.std.specs.Prelude.{◌≡◌, ◌≤◌, ◌<◌, ◌*◌, option_map, length, true, IfOk, IsSome, Some};
ghost use Rattle.std.specs.Option.{ForSome};
ghost use Rattle.chorus_lines.specs.Text.{each_byte};
ghost use Rattle.chorus_lines.specs.Body.{body_in, bytes_of_hex, pairs, is_hex, is_hex_text, begins_a_body};
ghost use Rattle.chorus_ui.specs.declared.limits.TheConstants.{BODY_LIMIT};

use chorus_entry::{BODY_LIMIT, Body};
use std::alloc::{AllocError, Global};

/// Whether the text begins as a body of this version does.
pub fn begins_a_body(version: u8, text: &[u8]) -> bool
    ensures { result ≡ begins_a_body version text.now }
{
    match text {
        [] => false,
        [mark, ..] => *mark == b'=' || (version >= 2 && *mark == b'x'),
    }
}

/// How many bytes the body that is spelled so in a scenario text has. None exactly where an `x` body has an odd number of digits or
/// another byte among them.
#[tactic(auto, unfolding(crate::specs::Body::body_in))]
pub fn body_len(text: &[u8]) -> Option<usize>
    ensures { result ≡ option_map length (body_in text.now) }
{
    match text {
        [] => None,
        [b'=', bytes @ ..] => Some(bytes.len()),
        [_, digits @ ..] => hex_len(digits),
    }
}

/// The body that is spelled so in a scenario text.
#[tactic(auto, unfolding(crate::specs::Body::body_in))]
pub fn body_in(alloc: Global, text: &[u8]) -> Result<Body, AllocError>
    requires body { IsSome (body_in text.now) }
    requires small { ForSome (body_in text.now) (λ bytes. length bytes ≤ BODY_LIMIT) }
    ensures { IfOk result (λ body. body_in text.now ≡ Some body) }
{
    match text {
        [] => Body::new(alloc, &[]),
        [b'=', bytes @ ..] => Body::new(alloc, bytes),
        [_, digits @ ..] => hex_body(alloc, digits),
    }
}

/// How many bytes the digits of an `x` body stand for.
#[tactic(auto, using(crate::proofs::Hex::pairs_len))]
fn hex_len(digits: &[u8]) -> Option<usize>
    ensures { result ≡ option_map length (bytes_of_hex digits.now) }
{
    if digits.len() % 2 == 0 && are_hex(digits) {
        Some(digits.len() / 2)
    } else {
        None
    }
}

/// The body of the bytes that the digits of an `x` body stand for, with no other memory than the body's own.
fn hex_body(alloc: Global, digits: &[u8]) -> Result<Body, AllocError>
    requires hex { is_hex_text digits.now ≡ true }
    requires small { length digits.now ≤ 2 * BODY_LIMIT }
    ensures { IfOk result (λ body. body ≡ pairs digits.now) }
{
    let mut bytes = [0; BODY_LIMIT];
    let body = &mut bytes[..digits.len() / 2];
    write_bytes(digits, body);
    Body::new(alloc, body)
}

/// Writes the bytes that the digits of an `x` body stand for.
fn write_bytes(digits: &[u8], bytes: &mut [u8])
    requires hex { is_hex_text digits.now ≡ true }
    requires room { 2 * length bytes.old ≡ length digits.now }
    ensures { bytes.new ≡ pairs digits.now }
{
    let _ = hex::decode_to_slice(digits, bytes);
}

/// Whether each byte is a digit of an `x` body. Capitals are none.
fn are_hex(text: &[u8]) -> bool
    ensures { result ≡ each_byte is_hex text.now }
{
    for c in text {
        if !is_hex(*c) {
            return false;
        }
    }
    true
}

/// Whether the byte is one of the digits of a body in hexadecimal: `0` to `9` or `a` to `f`, no capital.
fn is_hex(c: u8) -> bool
    ensures { result ≡ is_hex c }
{
    (48 <= c && c <= 57) || (97 <= c && c <= 102)
}
