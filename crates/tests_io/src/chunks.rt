//! The two ends of a bad line, with a window of one chunk.
use chorus_transport::{Acked, Chunk, Got, PutFault, Receiver, Sender};
use std::alloc::Global;
use std::process::Abort;

/// A sender and a receiver with windows of one keep one chunk each.
#[test]
fn windows_and_acknowledgements(rt: HostRuntime) {
    let (first, second) = fill_window(&rt, rt.alloc());
    receive_in_window(&rt, rt.alloc(), first, second);
}

/// A window of one takes the first chunk, which is emitted and acknowledged, and hands the second back.
fn fill_window(rt: &impl Abort, alloc: Global) -> (Chunk, Chunk) {
    let mut sender = Sender::new(alloc, 1).expect(rt, "a window of 1");
    assert!(rt; put(rt, alloc, &mut sender, b"first").is_ok());
    let second = refused(rt, alloc, &mut sender, b"second");
    let first = emitted(rt, alloc, &sender, 0).expect(rt, "the chunk");
    assert!(rt; emitted(rt, alloc, &sender, 1).is_none());
    assert_moves_once(rt, &mut sender);
    (first, second)
}

/// Gives the chunk that a full window hands back.
fn refused(rt: &impl Abort, alloc: Global, sender: &mut Sender, bytes: &[u8]) -> Chunk {
    let Err((chunk, fault)) = put(rt, alloc, sender, bytes) else {
        panic!(rt; "a full window")
    };
    assert!(rt; matches!(fault, PutFault::WindowFull { base: 0, next: 1 }));
    chunk
}

/// The one chunk that is kept is acknowledged once.
fn assert_moves_once(rt: &impl Abort, sender: &mut Sender) {
    for (upto, expected) in [
        (0, Acked::Old),
        (2, Acked::Beyond),
        (1, Acked::Moved { by: 1 }),
    ] {
        assert!(rt; sender.acked(upto) == expected, "up to {upto}");
    }
}

/// A window of one keeps the first chunk alone, hands it out once, and acknowledges it.
fn receive_in_window(rt: &impl Abort, alloc: Global, first: Chunk, second: Chunk) {
    assert_bytes(rt, &first, b"first");
    let mut receiver = Receiver::new(alloc, 1).expect(rt, "a window of 1");
    assert!(rt; arrive(rt, &mut receiver, 1, second) == Got::Far);
    assert!(rt; arrive(rt, &mut receiver, 0, first) == Got::Kept);
    let again = chunk(rt, alloc, b"again");
    assert!(rt; arrive(rt, &mut receiver, 0, again) == Got::Old);
    assert!(rt; receiver.ack() == 1);
    assert_delivers(rt, &mut receiver, b"first");
    assert!(rt; receiver.next().is_none());
}

/// The next chunk that the receiver delivers has these bytes.
fn assert_delivers(rt: &impl Abort, receiver: &mut Receiver, bytes: &[u8]) {
    let next = receiver.next().expect(rt, "the chunk");
    assert_bytes(rt, &next, bytes);
}

/// Asserts that a chunk that was emitted or delivered has these bytes.
fn assert_bytes(rt: &impl Abort, chunk: &Chunk, bytes: &[u8]) {
    assert!(rt; chunk.bytes() == bytes);
}

/// Makes a chunk of these bytes, to be put into a window or to arrive.
fn chunk(rt: &impl Abort, alloc: Global, bytes: &[u8]) -> Chunk {
    Chunk::new(alloc, bytes).expect(rt, "memory")
}

/// Gives the sender a chunk of these bytes; a full window hands it back with the fault.
fn put(
    rt: &impl Abort,
    alloc: Global,
    sender: &mut Sender,
    bytes: &[u8],
) -> Result<(), (Chunk, PutFault)> {
    assert!(rt; sender.next() < u64::MAX);
    sender.put(chunk(rt, alloc, bytes))
}

/// The copy of the chunk of this number that the sender emits, if its window still keeps it.
fn emitted(rt: &impl Abort, alloc: Global, sender: &Sender, number: u64) -> Option<Chunk> {
    sender.emit(alloc, number).ok().expect(rt, "memory")
}

/// Lets a chunk arrive at the receiver under this number, and tells what the window did with it.
fn arrive(rt: &impl Abort, receiver: &mut Receiver, number: u64, chunk: Chunk) -> Got {
    assert!(rt; number < u64::MAX);
    receiver.arrived(number, chunk).ok().expect(rt, "memory")
}
