//! Decimals: no sign, and no leading zero but `0` itself. Each number has one decimal, the text that `{}` prints.

ghost use Rattle.std.specs.Prelude.{◌≡◌, ◌≢◌, ℕ, ◌++◌, ◌<◌, ◌^◌, IfSome, IsNone, OnOk, OnErr, decimal, if◌then◌else◌};
ghost use Rattle.chorus_ui.specs.Decimals.{all_digits, begins_decimal, is_decimal, value_in_64_bits, read_digit, parse_decimal};

use std::alloc::AllocError;

/// Whether this text is a decimal, of any length.
pub fn is_decimal(text: &[u8]) -> bool
    ensures { result ≡ is_decimal text.now }
{
    begins_decimal(text) && all_digits(text)
}

/// The number whose decimal this text is. None exactly where no number of 64 bits has it.
pub fn parse_decimal(text: &[u8]) -> Option<u64>
    ensures value { result ≡ parse_decimal text.now }
    ensures some { IfSome result (λ number. text.now ≡ decimal number) }
    ensures none { IsNone result → (n : ℕ) → n < 2 ^ 64 → text.now ≢ decimal n }
{
    if begins_decimal(text) {
        digits_value(text)
    } else {
        None
    }
}

/// Whether the first byte may begin a decimal: it is `0` only where it stands alone.
fn begins_decimal(text: &[u8]) -> bool
    ensures { result ≡ begins_decimal text.now }
{
    match text {
        [] => false,
        [first, rest @ ..] => *first != b'0' || rest.is_empty(),
    }
}

/// Whether each byte of the text is a digit, as in a decimal.
fn all_digits(text: &[u8]) -> bool
    ensures { result ≡ all_digits text.now }
{
    text.iter().all(u8::is_ascii_digit)
}

/// The number that the digits of a decimal write. None exactly where a byte is no digit or the number has more than 64 bits.
fn digits_value(text: &[u8]) -> Option<u64>
    ensures { result ≡ (if all_digits text.now then value_in_64_bits text.now else None) }
{
    let mut number = 0;
    for c in text {
        number = read_digit(number, *c)?;
    }
    Some(number)
}

/// The number that a decimal's digits write so far, with one digit more. None exactly where the byte is no digit or the
/// number has more than 64 bits.
fn read_digit(number: u64, c: u8) -> Option<u64>
    ensures { result ≡ read_digit number c }
{
    if c.is_ascii_digit() {
        number.checked_mul(10)?.checked_add(u64::from(c - b'0'))
    } else {
        None
    }
}

/// Appends the number's decimal. An error leaves `out` as it was.
pub fn push_decimal(number: u64, out: &mut Vec<u8>) -> Result<(), AllocError>
    ensures ok { OnOk result (out.new.items ≡ out.old.items ++ decimal number) }
    ensures err { OnErr result (out.new.items ≡ out.old.items) }
{
    let mut buffer = itoa::Buffer::new();
    out.extend_from_slice(buffer.format(number).as_bytes())
}
