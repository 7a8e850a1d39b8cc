//! What is left to read of a frame.

ghost use Rattle.std.specs.Prelude.{◌≡◌, ◌==◌, ℕ, List, length, MatchResult, IfOk, Ok};
ghost use Rattle.chorus_frame.specs.Numbers.{number_at, bytes_at};

use crate::fault::DecodeFault;
use byteorder::{BigEndian, ByteOrder};
use std::marker::Model;

/// The bytes of a frame that are left to read.
///
/// Each call reads one field from the front. It answers `Short` exactly where the bytes end inside the field.
#[derive(Drop)]
pub(crate) struct Reader<'a> {
    rest: &'a [u8],
}

impl<'a> Model for Reader<'a> {
    ghost Value = { List ℕ };

    ghost view = { λ reader. reader.rest.now };
}

impl<'a> Reader<'a> {
    ghost use Rattle.chorus_frame.specs.Calls.{Reads, Fails};

    /// All of these bytes are left to read of the frame.
    pub(crate) fn new(bytes: &'a [u8]) -> Reader<'a>
        ensures { result ≡ bytes.now }
    {
        Reader { rest: bytes }
    }

    /// Whether nothing is left to read of the frame.
    pub(crate) fn is_empty(&self) -> bool
        ensures { result ≡ (length self.now == 0) }
    {
        self.rest.is_empty()
    }

    /// The next `count` bytes.
    #[tactic(auto, unfolding(crate::specs::Numbers::bytes_at))]
    pub(crate) fn bytes(&mut self, count: usize) -> Result<&'a [u8], DecodeFault>
        ensures reads { MatchResult result
            (λ bytes. bytes_at count self.old ≡ Ok (bytes.now, self.new))
            (λ fault. Fails fault (bytes_at count self.old)) }
        ensures len { IfOk result (λ bytes. length bytes.now ≡ count) }
    {
        if self.rest.len() < count {
            return Err(DecodeFault::Short);
        }
        let (bytes, rest) = self.rest.split_at(count);
        self.rest = rest;
        Ok(bytes)
    }

    /// A number of 8 bits.
    #[tactic(auto, unfolding(crate::specs::Numbers::number_at))]
    pub(crate) fn u8(&mut self) -> Result<u8, DecodeFault>
        ensures { Reads result self.new (number_at 1 self.old) }
    {
        if self.rest.is_empty() {
            return Err(DecodeFault::Short);
        }
        let number = self.rest[0];
        self.rest = &self.rest[1..];
        Ok(number)
    }

    /// A number of 16 bits.
    #[tactic(auto, unfolding(crate::specs::Numbers::number_at))]
    pub(crate) fn u16(&mut self) -> Result<u16, DecodeFault>
        ensures { Reads result self.new (number_at 2 self.old) }
    {
        if self.rest.len() < 2 {
            return Err(DecodeFault::Short);
        }
        let number = BigEndian::read_u16(self.rest);
        self.rest = &self.rest[2..];
        Ok(number)
    }

    /// A number of 32 bits.
    #[tactic(auto, unfolding(crate::specs::Numbers::number_at))]
    pub(crate) fn u32(&mut self) -> Result<u32, DecodeFault>
        ensures { Reads result self.new (number_at 4 self.old) }
    {
        if self.rest.len() < 4 {
            return Err(DecodeFault::Short);
        }
        let number = BigEndian::read_u32(self.rest);
        self.rest = &self.rest[4..];
        Ok(number)
    }

    /// A number of 64 bits.
    #[tactic(auto, unfolding(crate::specs::Numbers::number_at))]
    pub(crate) fn u64(&mut self) -> Result<u64, DecodeFault>
        ensures { Reads result self.new (number_at 8 self.old) }
    {
        if self.rest.len() < 8 {
            return Err(DecodeFault::Short);
        }
        let number = BigEndian::read_u64(self.rest);
        self.rest = &self.rest[8..];
        Ok(number)
    }
}
