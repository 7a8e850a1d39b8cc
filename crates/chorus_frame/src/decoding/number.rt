//! Names and numbers within their ranges.

ghost use Rattle.chorus_frame.specs.Calls.{Reads};
ghost use Rattle.chorus_frame.specs.Reading.{name_at, place_at, route_at, only_at, positive_at, up_to_clock_at};

use crate::fault::DecodeFault;
use crate::reader::Reader;
use chorus_ui::{Kind, PLACES_LIMIT, SITES_LIMIT, Ui};

/// A name of this kind.
#[tactic(auto, unfolding(crate::specs::Reading::name_at))]
pub(super) fn name_from(reader: &mut Reader<'_>, kind: Kind) -> Result<Ui, DecodeFault>
    ensures { Reads result reader.new (name_at kind reader.old) }
{
    match Ui::of_bits(reader.u64()?) {
        Some(ui) if ui.kind() == kind => Ok(ui),
        _ => Err(DecodeFault::Range),
    }
}

/// The number of a place, within its range.
#[tactic(auto, unfolding(crate::specs::Numbers::tested_at))]
pub(super) fn place_from(reader: &mut Reader<'_>) -> Result<u16, DecodeFault>
    ensures { Reads result reader.new (place_at reader.old) }
{
    let place = reader.u16()?;
    if place == 0 || place > PLACES_LIMIT {
        return Err(DecodeFault::Range);
    }
    Ok(place)
}

/// The name of the group that a message went through, or 0 where there is none.
#[tactic(auto, unfolding(crate::specs::Reading::route_at))]
pub(super) fn route_from(reader: &mut Reader<'_>) -> Result<Option<Ui>, DecodeFault>
    ensures { Reads result reader.new (route_at reader.old) }
{
    let bits = reader.u64()?;
    if bits == 0 {
        return Ok(None);
    }
    match Ui::of_bits(bits) {
        Some(ui) if ui.is_group() => Ok(Some(ui)),
        _ => Err(DecodeFault::Range),
    }
}

/// The number of the site that a message demands, within its range, or 0 where it demands none.
#[tactic(auto, unfolding(crate::specs::Reading::only_at, crate::specs::Numbers::tested_at))]
pub(super) fn only_from(reader: &mut Reader<'_>) -> Result<Option<u16>, DecodeFault>
    ensures { Reads result reader.new (only_at reader.old) }
{
    match reader.u16()? {
        0 => Ok(None),
        site if site <= SITES_LIMIT => Ok(Some(site)),
        _ => Err(DecodeFault::Range),
    }
}

/// A number whose range is from 1.
#[tactic(auto, unfolding(crate::specs::Numbers::tested_at))]
pub(super) fn positive_from(reader: &mut Reader<'_>) -> Result<u32, DecodeFault>
    ensures { Reads result reader.new (positive_at reader.old) }
{
    match reader.u32()? {
        0 => Err(DecodeFault::Range),
        number => Ok(number),
    }
}

/// A hop or a position, which is at most the clock of its packet.
#[tactic(auto, unfolding(crate::specs::Numbers::tested_at))]
pub(super) fn up_to_clock_from(reader: &mut Reader<'_>, clock: u64) -> Result<u64, DecodeFault>
    ensures { Reads result reader.new (up_to_clock_at clock reader.old) }
{
    let number = reader.u64()?;
    if number > clock {
        return Err(DecodeFault::Range);
    }
    Ok(number)
}
