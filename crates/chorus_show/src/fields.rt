//! The fields of a line.

ghost use Rattle.std.specs.Prelude.{◌≡◌, ◌<◌, ℕ, List, ◌++◌, OnOk, decimal};
ghost use Rattle.std.specs.List.{flat_map};
ghost use Rattle.chorus_ui.specs.Name.{IsName};
ghost use Rattle.chorus_ui.specs.Text.{name_text};
ghost use Rattle.chorus_show.specs.Bounds.{Is8, Is16, Is32, Is64, IsId, AreBytes, IsBody};
ghost use Rattle.chorus_show.specs.Phrases.{byte_text, hex_digit};

use chorus_entry::{Body, MsgId};
use chorus_ui::{Ui, push_decimal};
use std::alloc::AllocError;

/// A value that a line shows as one field.
pub(crate) trait Field {
    /// Its text.
    ghost text: { Self → List ℕ };

    /// What its type keeps of it.
    ghost fits: { Self → Type 0 };

    /// Appends the text of the field. After an error a part of it may stand there.
    fn push(&self, out: &mut Vec<u8>) -> Result<(), AllocError>
        ensures text { OnOk result (out.new.items ≡ out.old.items ++ text self.now) }
        ensures fits { OnOk result (fits self.now) };
}

impl Field for u8 {
    ghost text = { decimal };

    ghost fits = { Is8 };

    /// Appends the number as a field of a line, in decimal.
    fn push(&self, out: &mut Vec<u8>) -> Result<(), AllocError> {
        push_decimal(u64::from(*self), out)
    }
}

impl Field for u16 {
    ghost text = { decimal };

    ghost fits = { Is16 };

    /// Appends the number as a field of a line, in decimal.
    fn push(&self, out: &mut Vec<u8>) -> Result<(), AllocError> {
        push_decimal(u64::from(*self), out)
    }
}

impl Field for u32 {
    ghost text = { decimal };

    ghost fits = { Is32 };

    /// Appends the number as a field of a line, in decimal.
    fn push(&self, out: &mut Vec<u8>) -> Result<(), AllocError> {
        push_decimal(u64::from(*self), out)
    }
}

impl Field for u64 {
    ghost text = { decimal };

    ghost fits = { Is64 };

    /// Appends the number as a field of a line, in decimal.
    fn push(&self, out: &mut Vec<u8>) -> Result<(), AllocError> {
        push_decimal(*self, out)
    }
}

impl Field for u128 {
    ghost text = { decimal };

    ghost fits = { λ n. Unit {0} };

    /// Appends the number as a field of a line of the summary, in decimal.
    fn push(&self, out: &mut Vec<u8>) -> Result<(), AllocError> {
        let mut buffer = itoa::Buffer::new();
        out.extend_from_slice(buffer.format(*self).as_bytes())
    }
}

impl Field for Ui {
    ghost text = { name_text };

    ghost fits = { IsName };

    /// Appends the name as a field of a line.
    fn push(&self, out: &mut Vec<u8>) -> Result<(), AllocError> {
        // That it is a name is told by its bits.
        let _bits = self.bits();
        self.text(out)
    }
}

impl Field for MsgId {
    ghost use Rattle.chorus_show.specs.Phrases.{id_text};

    ghost text = { id_text };

    ghost fits = { IsId };

    /// Appends the id of a message as a field of a line.
    fn push(&self, out: &mut Vec<u8>) -> Result<(), AllocError> {
        push_decimal(u64::from(self.seat), out)?;
        out.push(b':')?;
        push_decimal(u64::from(self.number), out)?;
        out.push(b':')?;
        push_decimal(u64::from(self.copy), out)
    }
}

impl Field for Body {
    ghost use Rattle.chorus_show.specs.Phrases.{escaped_body};

    ghost text = { escaped_body };

    ghost fits = { IsBody };

    /// Appends the bytes of a body as a field of a line, behind `=`.
    fn push(&self, out: &mut Vec<u8>) -> Result<(), AllocError> {
        out.push(b'=')?;
        push_escaped(self.bytes(), out)
    }
}

/// Appends the bytes of a body, each that is not printable, and each `%`, as `%` and two hexadecimal digits.
fn push_escaped(bytes: &[u8], out: &mut Vec<u8>) -> Result<(), AllocError>
    ensures text { OnOk result (out.new.items ≡ out.old.items ++ flat_map byte_text bytes.now) }
    ensures fits { OnOk result (AreBytes bytes.now) }
{
    for byte in bytes {
        push_byte(*byte, out)?;
    }
    Ok(())
}

/// Appends the byte as the text of a body has it: as it is where it is a printable one and no `%`, else as `%` and two hexadecimal
/// digits. After an error a part of it may stand there.
pub fn push_byte(byte: u8, out: &mut Vec<u8>) -> Result<(), AllocError>
    ensures { OnOk result (out.new.items ≡ out.old.items ++ byte_text byte) }
{
    if (32..=126).contains(&byte) && byte != b'%' {
        out.push(byte)?;
        return Ok(());
    }
    out.extend_from_slice(&[b'%', hex_digit(byte / 16), hex_digit(byte % 16)])
}

/// The hexadecimal digit, `0` to `9` or `a` to `f`, by which an escaped byte of a body says a number below 16.
fn hex_digit(digit: u8) -> u8
    requires { digit < 16 }
    ensures { result ≡ hex_digit digit }
{
    if digit < 10 {
        b'0' + digit
    } else {
        b'a' + (digit - 10)
    }
}
