//! Answers.

ghost use Rattle.chorus_frame.specs.Calls.{Reads};
ghost use Rattle.chorus_frame.specs.Reading.{accepted_at, full_at, located_at, stale_at, early_at, elsewhere_at, chosen_at, answer_of, answer_at, is_told_code, is_reported_code};

use super::number::{place_from, up_to_clock_from};
use crate::fault::DecodeFault;
use crate::reader::Reader;
use chorus_entry::{Answer, MEMBERS_LIMIT, PENDING_LIMIT};

/// Decodes what a Stale and an Elsewhere answer say: a place, and the hop by which a port went there.
#[tactic(auto, unfolding(crate::specs::Reading::located_at))]
fn located_from(reader: &mut Reader<'_>, clock: u64) -> Result<(u16, u64), DecodeFault>
    ensures { Reads result reader.new (located_at clock reader.old) }
{
    let to = place_from(reader)?;
    let hop = up_to_clock_from(reader, clock)?;
    Ok((to, hop))
}

/// Decodes what stands behind the code of an Accepted answer: the message's position in the port.
#[tactic(auto, unfolding(crate::specs::Reading::accepted_at))]
fn accepted_from(reader: &mut Reader<'_>, clock: u64) -> Result<Answer, DecodeFault>
    ensures { Reads result reader.new (accepted_at clock reader.old) }
{
    let pos = up_to_clock_from(reader, clock)?;
    Ok(Answer::Accepted { pos })
}

/// Decodes what stands behind the code of a Full answer; 0 messages, or more than a port may hold, are out of range.
#[tactic(auto, unfolding(crate::specs::Reading::full_at, crate::specs::Numbers::tested_at))]
fn full_from(reader: &mut Reader<'_>) -> Result<Answer, DecodeFault>
    ensures { Reads result reader.new (full_at reader.old) }
{
    let len = reader.u8()?;
    if len == 0 || usize::from(len) > PENDING_LIMIT {
        return Err(DecodeFault::Range);
    }
    Ok(Answer::Full { len })
}

/// Decodes what stands behind the code of a Stale answer: where the port went, and by which hop.
#[tactic(auto, unfolding(crate::specs::Reading::stale_at))]
fn stale_from(reader: &mut Reader<'_>, clock: u64) -> Result<Answer, DecodeFault>
    ensures { Reads result reader.new (stale_at clock reader.old) }
{
    let (to, hop) = located_from(reader, clock)?;
    Ok(Answer::Stale { to, hop })
}

/// Decodes what stands behind the code of an Early answer: the hop by which the port is still under way.
#[tactic(auto, unfolding(crate::specs::Reading::early_at))]
fn early_from(reader: &mut Reader<'_>, clock: u64) -> Result<Answer, DecodeFault>
    ensures { Reads result reader.new (early_at clock reader.old) }
{
    let hop = up_to_clock_from(reader, clock)?;
    Ok(Answer::Early { hop })
}

/// Decodes what stands behind the code of an Elsewhere answer: the place that has the port, and the port's hop.
#[tactic(auto, unfolding(crate::specs::Reading::elsewhere_at))]
fn elsewhere_from(reader: &mut Reader<'_>, clock: u64) -> Result<Answer, DecodeFault>
    ensures { Reads result reader.new (elsewhere_at clock reader.old) }
{
    let (to, hop) = located_from(reader, clock)?;
    Ok(Answer::Elsewhere { to, hop })
}

/// Decodes the answer that a group's members were chosen; 0 of them, or more than a group has, are out of range.
#[tactic(auto, unfolding(crate::specs::Reading::chosen_at, crate::specs::Numbers::tested_at))]
fn chosen_from(reader: &mut Reader<'_>) -> Result<Answer, DecodeFault>
    ensures { Reads result reader.new (chosen_at reader.old) }
{
    let count = reader.u16()?;
    if count == 0 || usize::from(count) > MEMBERS_LIMIT {
        return Err(DecodeFault::Range);
    }
    Ok(Answer::Chosen { count })
}

/// What goes with the code of an answer.
#[tactic(auto, unfolding(crate::specs::Reading::answer_of))]
fn answer_with(code: u8, reader: &mut Reader<'_>, clock: u64) -> Result<Answer, DecodeFault>
    ensures { Reads result reader.new (answer_of clock (code, reader.old)) }
{
    match code {
        1 => accepted_from(reader, clock),
        2 => full_from(reader),
        3 => stale_from(reader, clock),
        4 => early_from(reader, clock),
        5 => Ok(Answer::NoPort),
        6 => Ok(Answer::Already),
        7 => Ok(Answer::ClientsFull),
        8 => elsewhere_from(reader, clock),
        9 => Ok(Answer::NoMember),
        10 => chosen_from(reader),
        _ => Ok(Answer::Gone),
    }
}

/// The answer of a decision, which a Verdict tells.
#[tactic(auto, unfolding(crate::specs::Reading::answer_at, crate::specs::Numbers::tested_at))]
pub(super) fn told_from(reader: &mut Reader<'_>, clock: u64) -> Result<Answer, DecodeFault>
    ensures { Reads result reader.new (answer_at is_told_code clock reader.old) }
{
    match reader.u8()? {
        code @ (1..=8 | 11) => answer_with(code, reader, clock),
        _ => Err(DecodeFault::Kind),
    }
}

/// The answer that a Report tells.
#[tactic(auto, unfolding(crate::specs::Reading::answer_at, crate::specs::Numbers::tested_at))]
pub(super) fn reported_from(reader: &mut Reader<'_>, clock: u64) -> Result<Answer, DecodeFault>
    ensures { Reads result reader.new (answer_at is_reported_code clock reader.old) }
{
    match reader.u8()? {
        code @ (1 | 2 | 4..=11) => answer_with(code, reader, clock),
        _ => Err(DecodeFault::Kind),
    }
}
