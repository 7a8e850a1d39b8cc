//! The bytes as chunks, and the line between the ends.

ghost use Rattle.std.specs.Prelude.{◌≡◌, ◌⊎◌, ◌<◌, ◌≤◌, ◌-◌, ◌^◌, IfOk, OnOk, OnErr};
ghost use Rattle.chorus_transport.specs.Receiving.{after_arrival};
ghost use Rattle.chorus_lossy.specs.Line.{chunk_at, chunk_count};

use chorus_transport::{Chunk, Receiver};
use std::alloc::{AllocError, Global};

/// The bytes of a chunk; the last one may have fewer.
pub const CHUNK_BYTES: usize = 64;

/// The window of both ends, in chunks.
pub const WINDOW: u16 = 8;

/// In how many chunks the bytes are carried over the line.
pub(crate) fn chunk_count(bytes: &[u8]) -> u64
    ensures value { result ≡ chunk_count bytes.now }
    ensures small { result ≤ 2 ^ 57 }
{
    bytes.len().div_ceil(CHUNK_BYTES) as u64
}

/// The chunk of that number, from 0, of the bytes that are carried over the line.
pub(crate) fn chunk_at(alloc: Global, bytes: &[u8], number: u64) -> Result<Chunk, AllocError>
    requires { number < chunk_count bytes.now }
    ensures { IfOk result (λ chunk. chunk ≡ chunk_at bytes.now number) }
{
    let begin = number as usize * CHUNK_BYTES;
    let len = CHUNK_BYTES.min(bytes.len() - begin);
    Chunk::new(alloc, &bytes[begin..begin + len])
}

/// Lets a chunk arrive from the line at the receiver.
pub(crate) fn arrive(number: u64, chunk: Chunk, receiver: &mut Receiver) -> Result<(), AllocError>
    requires { number < 2 ^ 64 - 1 }
    ensures ok { OnOk result (receiver.new ≡ after_arrival receiver.old number chunk) }
    ensures err { OnErr result (receiver.new ≡ receiver.old) }
{
    match receiver.arrived(number, chunk) {
        Ok(_) => Ok(()),
        Err((_, error)) => Err(error),
    }
}

/// Lets a chunk arrive from the line at the receiver, and again.
pub(crate) fn arrive_twice(
    alloc: Global,
    number: u64,
    chunk: Chunk,
    receiver: &mut Receiver,
) -> Result<(), AllocError>
    requires { number < 2 ^ 64 - 1 }
    ensures ok { OnOk result (receiver.new
        ≡ after_arrival (after_arrival receiver.old number chunk) number chunk) }
    ensures err { OnErr result ((receiver.new ≡ receiver.old)
        ⊎ (receiver.new ≡ after_arrival receiver.old number chunk)) }
{
    let again = Chunk::new(alloc, chunk.bytes())?;
    arrive(number, again, receiver)?;
    arrive(number, chunk, receiver)
}
