//! Bytes carried from one end to the other.

ghost use Rattle.std.specs.Prelude.{◌≡◌, IfOk, OnOk, OnErr};
ghost use Rattle.chorus_transport.specs.Sending.{next_number};
ghost use Rattle.chorus_transport.specs.Receiving.{ack_of};
ghost use Rattle.chorus_lossy.specs.declared.line.TheConstants.{WINDOW};
ghost use Rattle.chorus_lossy.specs.Line.{chunk_count, ends, new_ends};
ghost use Rattle.chorus_lossy.specs.Carrying.{IsCarried, IsWithin};

use crate::rounds::{Run, play};
use chorus_transport::{Receiver, Sender};
use std::alloc::{AllocError, Global};

/// What was carried.
#[derive(Debug, Drop)]
pub struct Carried {
    /// The bytes that were delivered.
    pub delivered: Vec<u8>,
    /// How often a chunk was emitted.
    pub emitted: u64,
    /// How often a chunk or an acknowledgement was lost.
    pub lost: u64,
}

/// Carries the bytes over the two ends, which were just made with a window of [`WINDOW`](crate::WINDOW), in chunks of
/// [`CHUNK_BYTES`](crate::CHUNK_BYTES), the last one shorter. The draws begin with the first state.
///
/// It ends within four rounds for each window of chunks, whatever the draws. The only error is want of memory. It leaves the
/// ends as they are after a first part of what happens in the run.
pub fn carry(
    alloc: Global,
    first: u64,
    bytes: &[u8],
    sender: &mut Sender,
    receiver: &mut Receiver,
) -> Result<Carried, AllocError>
    requires { ends sender.old receiver.old ≡ new_ends }
    ensures delivered { IfOk result (λ carried. carried.delivered.items ≡ bytes.now) }
    ensures carried { IfOk result (λ carried.
        IsCarried first bytes.now carried.emitted carried.lost (ends sender.new receiver.new)) }
    ensures put { OnOk result (next_number sender.new ≡ chunk_count bytes.now) }
    ensures acknowledged { OnOk result (ack_of receiver.new ≡ chunk_count bytes.now) }
    ensures memory { OnErr result (IsWithin first bytes.now (ends sender.new receiver.new)) }
{
    let mut run = Run::new(alloc, first);
    let mut round = 1;
    while run.delivered.len() != bytes.len() {
        play(alloc, bytes, round, &mut run, sender, receiver)?;
        round += 1;
    }
    Ok(run.carried())
}
