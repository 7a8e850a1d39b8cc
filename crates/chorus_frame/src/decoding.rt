//! Packets from their frames.

ghost use Rattle.std.specs.Prelude.{IfOk, IsTrue};
ghost use Rattle.chorus_entry.specs.Ranges.{has_ranges};
ghost use Rattle.chorus_frame.specs.Calls.{Gives};
ghost use Rattle.chorus_frame.specs.Reading.{packet_of};

mod answer;
mod cargo;
mod message;
mod number;
mod record;

use crate::fault::DecodeFault;
use crate::reader::Reader;
use chorus_entry::Packet;
use std::alloc::Global;

/// The packet whose frame these bytes are, all of them.
///
/// Fields are read from the front, and the first one that cannot be read gives the fault. No byte behind the end is read,
/// and memory is taken for nothing that the bytes do not hold, but for the room of a port's record.
pub fn decode(alloc: Global, bytes: &[u8]) -> Result<Packet, DecodeFault>
    // Which packet, and which fault.
    ensures read { Gives result (packet_of bytes.now) }
    ensures ranges { IfOk result (λ packet. IsTrue (has_ranges packet)) }
{
    whole(alloc, bytes)
}

/// The packet that all of the bytes are. It stands apart from `decode` so that its clauses are at hand for the ranges.
#[tactic(auto, unfolding(crate::specs::Reading::packet_of))]
fn whole(alloc: Global, bytes: &[u8]) -> Result<Packet, DecodeFault>
    ensures { Gives result (packet_of bytes.now) }
{
    let mut reader = Reader::new(bytes);
    let packet = cargo::packet_from(alloc, &mut reader)?;
    if !reader.is_empty() {
        return Err(DecodeFault::Trailing);
    }
    Ok(packet)
}
