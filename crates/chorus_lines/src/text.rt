//! Lines, fields and decimals.

ghost use Rattle.std.specs.Prelude.{◌≡◌};
ghost use Rattle.std.specs.Option.{option_copied};
ghost use Rattle.chorus_lines.specs.Text.{cut, is_text, is_skipped, number_in};

use chorus_ui::{is_decimal, parse_decimal};

/// Beyond every number of 64 bits.
pub const BEYOND: u128 = 1 << 64;

/// Cuts a scenario text, or a line of it: what stands before the first of these marks, and what stands behind it.
pub fn cut(mark: u8, text: &[u8]) -> (&[u8], Option<&[u8]>)
    ensures { (result.0.now, option_copied result.1) ≡ cut mark text.now }
{
    for (i, c) in text.iter().enumerate() {
        if *c == mark {
            return (&text[..i], Some(&text[i + 1..]));
        }
    }
    (text, None)
}

/// Whether no byte of the scenario line is outside 0x20 to 0x7E.
pub fn is_text(line: &[u8]) -> bool
    ensures { result ≡ is_text line.now }
{
    for c in line {
        if *c < 0x20 || 0x7E < *c {
            return false;
        }
    }
    true
}

/// Whether the scenario line is skipped: it is empty or begins with `#`.
pub fn is_skipped(line: &[u8]) -> bool
    ensures { result ≡ is_skipped line.now }
{
    match line {
        [] => true,
        [first, ..] => *first == b'#',
    }
}

/// The number of a decimal in a scenario; what is beyond 64 bits counts as `BEYOND`. None exactly where the text is no decimal.
pub fn number_in(text: &[u8]) -> Option<u128>
    ensures { result ≡ number_in text.now }
{
    match parse_decimal(text) {
        Some(number) => Some(u128::from(number)),
        None if is_decimal(text) => Some(BEYOND),
        None => None,
    }
}
