//! The frames of packets.

ghost use Rattle.std.specs.Prelude.{◌≡◌, ◌++◌, OnOk, OnErr, IsTrue, Ok};
ghost use Rattle.chorus_entry.specs.Ranges.{has_ranges};
ghost use Rattle.chorus_frame.specs.Reading.{packet_of};
ghost use Rattle.chorus_frame.specs.Spelling.{frame};
ghost use Rattle.chorus_frame.specs.Held.{IsHeld};

mod answer;
mod cargo;
mod message;
mod number;
mod record;

use chorus_entry::Packet;
use std::alloc::AllocError;

/// Room that a frame with a small body fits into: all fields but the body take at most 62 bytes, except in a Transfer.
const SMALL_FRAME: usize = 128;

/// Appends the frame of a packet that is within its ranges. An error leaves `out` as it was.
///
/// `read` says that the bytes of the frame are decoded as the packet; `held`, that the packet is one that
/// [`packets_are_read_back`](crate::packets_are_read_back) speaks of.
pub fn encode(packet: &Packet, out: &mut Vec<u8>) -> Result<(), AllocError>
    requires { IsTrue (has_ranges packet.now) }
    ensures ok { OnOk result (out.new.items ≡ out.old.items ++ frame packet.now) }
    ensures err { OnErr result (out.new.items ≡ out.old.items) }
    ensures held { OnOk result (IsHeld packet.now) }
    ensures read { OnOk result (packet_of (frame packet.now) ≡ Ok packet.now) }
{
    out.reserve(SMALL_FRAME)?;
    let before = out.len();
    let written = cargo::push_packet(packet, out);
    if written.is_err() {
        out.truncate(before);
    }
    written
}
