//! Numbers and names.

ghost use Rattle.std.specs.Prelude.{◌≡◌, ◌<◌, ◌^◌, ◌++◌, OnOk, OnErr};
ghost use Rattle.chorus_ui.specs.Name.{IsName};
ghost use Rattle.chorus_frame.specs.Numbers.{number};
ghost use Rattle.chorus_frame.specs.Spelling.{name_field, route_field, only_field};
ghost use Rattle.chorus_frame.specs.Held.{IsCount, IsHeldRoute};

use byteorder::{BigEndian, ByteOrder};
use chorus_ui::Ui;
use std::alloc::AllocError;

/// Appends to a frame a number of 8 bits. An error leaves `out` as it was, here and in the calls below.
#[tactic(auto, unfolding(crate::specs::Numbers::number))]
pub(super) fn push_u8(value: u8, out: &mut Vec<u8>) -> Result<(), AllocError>
    ensures ok { OnOk result (out.new.items ≡ out.old.items ++ number 1 value) }
    ensures err { OnErr result (out.new.items ≡ out.old.items) }
{
    out.extend_from_slice(&[value])
}

/// Appends to a frame a number of 16 bits.
#[tactic(auto, unfolding(crate::specs::Numbers::number))]
pub(super) fn push_u16(value: u16, out: &mut Vec<u8>) -> Result<(), AllocError>
    ensures ok { OnOk result (out.new.items ≡ out.old.items ++ number 2 value) }
    ensures err { OnErr result (out.new.items ≡ out.old.items) }
{
    let mut field = [0; 2];
    BigEndian::write_u16(&mut field, value);
    out.extend_from_slice(&field)
}

/// Appends to a frame a number of 32 bits.
#[tactic(auto, unfolding(crate::specs::Numbers::number))]
pub(super) fn push_u32(value: u32, out: &mut Vec<u8>) -> Result<(), AllocError>
    ensures ok { OnOk result (out.new.items ≡ out.old.items ++ number 4 value) }
    ensures err { OnErr result (out.new.items ≡ out.old.items) }
    ensures held { IsCount value }
{
    let mut field = [0; 4];
    BigEndian::write_u32(&mut field, value);
    out.extend_from_slice(&field)
}

/// Appends to a frame a number of 64 bits.
#[tactic(auto, unfolding(crate::specs::Numbers::number))]
pub(super) fn push_u64(value: u64, out: &mut Vec<u8>) -> Result<(), AllocError>
    ensures ok { OnOk result (out.new.items ≡ out.old.items ++ number 8 value) }
    ensures err { OnErr result (out.new.items ≡ out.old.items) }
    ensures held { value < 2 ^ 64 }
{
    let mut field = [0; 8];
    BigEndian::write_u64(&mut field, value);
    out.extend_from_slice(&field)
}

/// Appends to a frame a name, as a number of 64 bits.
pub(super) fn push_name(ui: &Ui, out: &mut Vec<u8>) -> Result<(), AllocError>
    ensures ok { OnOk result (out.new.items ≡ out.old.items ++ name_field ui.now) }
    ensures err { OnErr result (out.new.items ≡ out.old.items) }
    ensures held { IsName ui.now }
{
    push_u64(ui.bits(), out)
}

/// Appends to a frame the name of the group that a message went through, or 0.
pub(super) fn push_route(route: &Option<Ui>, out: &mut Vec<u8>) -> Result<(), AllocError>
    ensures ok { OnOk result (out.new.items ≡ out.old.items ++ route_field route.now) }
    ensures err { OnErr result (out.new.items ≡ out.old.items) }
    ensures held { IsHeldRoute route.now }
{
    match route {
        Some(group) => push_name(group, out),
        None => push_u64(0, out),
    }
}

/// Appends to a frame the number of the site that a message demands, or 0.
pub(super) fn push_only(only: Option<u16>, out: &mut Vec<u8>) -> Result<(), AllocError>
    ensures ok { OnOk result (out.new.items ≡ out.old.items ++ only_field only) }
    ensures err { OnErr result (out.new.items ≡ out.old.items) }
{
    match only {
        Some(site) => push_u16(site, out),
        None => push_u16(0, out),
    }
}
