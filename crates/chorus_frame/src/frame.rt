//! Packets kept as their bytes.

ghost use Rattle.std.specs.Prelude.{◌≡◌, IfOk, IsTrue, Ok};
ghost use Rattle.chorus_entry.specs.Ranges.{has_ranges};
ghost use Rattle.chorus_frame.specs.Reading.{packet_of};
ghost use Rattle.chorus_frame.specs.Spelling.{frame};

use crate::decoding::decode;
use crate::encoding::encode;
use crate::fault::DecodeFault;
use chorus_entry::Packet;
use std::alloc::{AllocError, Global};
use std::marker::Model;

/// The frame of a packet, which contracts see as that packet.
///
/// A packet that was put into a frame can be dropped, and comes out of the frame as it was.
#[derive(Drop)]
pub struct Frame {
    bytes: Vec<u8>,
}

impl Model for Frame {
    ghost use Rattle.chorus_entry.specs.declared.packet.Packet.{Packet};
    ghost use Rattle.chorus_frame.specs.Frames.{packet_held, HoldsFrame};

    ghost Value = { Packet };

    ghost view = { λ frame. packet_held frame.bytes.items };

    ghost invariant = { λ frame. HoldsFrame frame.bytes.items };
}

impl Frame {
    /// The frame of a packet that is within its ranges.
    pub fn of(alloc: Global, packet: &Packet) -> Result<Frame, AllocError>
        requires { IsTrue (has_ranges packet.now) }
        ensures { IfOk result (λ made. made ≡ packet.now) }
    {
        let mut bytes = Vec::new(alloc);
        encode(packet, &mut bytes)?;
        Ok(Frame { bytes })
    }

    /// The packet whose frame this is.
    pub fn unpack(&self) -> Result<Packet, AllocError>
        ensures packet { IfOk result (λ packet. packet ≡ self.now) }
        ensures ranges { IfOk result (λ packet. IsTrue (has_ranges packet)) }
    {
        match decode(*self.bytes.allocator(), &self.bytes) {
            Ok(packet) => Ok(packet),
            Err(DecodeFault::Memory(error)) => Err(error),
            Err(_) => unreachable!(),
        }
    }

    /// The bytes. Takes no memory.
    pub fn bytes(&self) -> &[u8]
        ensures frame { result.now ≡ frame self.now }
        ensures ranges { IsTrue (has_ranges self.now) }
        ensures read { packet_of result.now ≡ Ok self.now }
    {
        self.bytes.as_slice()
    }
}
