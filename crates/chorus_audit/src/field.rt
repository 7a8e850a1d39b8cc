//! The words that say one thing: a number, a name or an id.

ghost use Rattle.std.specs.Prelude.{◌≡◌, ℕ, List, Option, IfSome};
ghost use Rattle.chorus_ui.specs.Decimals.{parse_decimal};
ghost use Rattle.chorus_ui.specs.Name.{IsName};
ghost use Rattle.chorus_show.specs.Bounds.{Is8, Is16, Is32, Is64, IsId};

use crate::cut::next_part;
use chorus_entry::MsgId;
use chorus_ui::{Ui, parse_decimal};

/// What one word says.
pub(crate) trait Field: Copy {
    /// What the text says, where it says something.
    ghost said: { List ℕ → Option Self };

    /// What its type allows.
    ghost allowed: { Self → Type 0 };

    /// What the text of one word of a printed line says. None where it says no such thing.
    fn read(text: &[u8]) -> Option<Self>
        ensures value { result ≡ said text.now }
        ensures allowed { IfSome result allowed };
}

impl Field for u8 {
    ghost use Rattle.chorus_show.specs.Reading.{u8_in};

    ghost said = { u8_in };

    ghost allowed = { Is8 };

    fn read(text: &[u8]) -> Option<Self> {
        u8::try_from(parse_decimal(text)?).ok()
    }
}

impl Field for u16 {
    ghost use Rattle.chorus_show.specs.Reading.{u16_in};

    ghost said = { u16_in };

    ghost allowed = { Is16 };

    fn read(text: &[u8]) -> Option<Self> {
        u16::try_from(parse_decimal(text)?).ok()
    }
}

impl Field for u32 {
    ghost use Rattle.chorus_show.specs.Reading.{u32_in};

    ghost said = { u32_in };

    ghost allowed = { Is32 };

    fn read(text: &[u8]) -> Option<Self> {
        u32::try_from(parse_decimal(text)?).ok()
    }
}

impl Field for u64 {
    ghost said = { parse_decimal };

    ghost allowed = { Is64 };

    fn read(text: &[u8]) -> Option<Self> {
        parse_decimal(text)
    }
}

impl Field for Ui {
    ghost use Rattle.chorus_ui.specs.Text.{parse_name};

    ghost said = { parse_name };

    ghost allowed = { IsName };

    fn read(text: &[u8]) -> Option<Self> {
        Ui::parse(text)
    }
}

impl Field for MsgId {
    ghost use Rattle.chorus_show.specs.Reading.{id_in};

    ghost said = { id_in };

    ghost allowed = { IsId };

    fn read(text: &[u8]) -> Option<Self> {
        let (seat, left) = next_part(b':', Some(text));
        let (number, left) = next_part(b':', left);
        let (copy, _) = next_part(b':', left);
        Some(MsgId {
            seat: u32::read(seat)?,
            number: u32::read(number)?,
            copy: u16::read(copy)?,
        })
    }
}
