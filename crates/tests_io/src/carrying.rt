//! What is counted while bytes are carried. The counts are those of another program, which follows the rounds over lists.

use chorus_lossy::{Carried, WINDOW, carry};
use chorus_transport::{Receiver, Sender};
use std::alloc::Global;
use std::process::Abort;

/// The bytes that are carried: so many, of which no two neighbouring chunks are the same.
pub(crate) fn bytes_of(rt: &impl Abort, alloc: Global, len: usize) -> Vec<u8> {
    let mut bytes = Vec::new(alloc);
    for i in 0..len {
        bytes.push((i % 251) as u8).expect(rt, "memory");
    }
    bytes
}

/// Carries the bytes. Gives what was carried, and how many chunks were put and acknowledged.
fn carry_through(rt: &impl Abort, alloc: Global, first: u64, bytes: &[u8]) -> (Carried, u64, u64) {
    let Some(mut sender) = Sender::new(alloc, WINDOW) else {
        panic!(rt; "a window")
    };
    let Some(mut receiver) = Receiver::new(alloc, WINDOW) else {
        panic!(rt; "a window")
    };
    let carried = carry(alloc, first, bytes, &mut sender, &mut receiver).expect(rt, "memory");
    (carried, sender.next(), receiver.ack())
}

/// Asserts one count of a carrying over the lossy line, and names the carrying where it is wrong.
fn assert_count(rt: &impl Abort, found: u64, count: u64, name: &str) {
    assert_eq!(rt; found, count, "{name}");
}

/// Asserts how often chunks are emitted, and how often something is lost, where so many bytes are carried.
fn assert_carried(rt: &impl Abort, alloc: Global, first: u64, len: usize, emitted: u64, lost: u64) {
    let name = format!(in alloc; "{len} from {first}").expect(rt, "memory");
    let name = name.as_str();
    let bytes = bytes_of(rt, alloc, len);
    let (carried, put, acknowledged) = carry_through(rt, alloc, first, &bytes);
    assert!(rt; carried.delivered == bytes, "{name}");
    assert_count(rt, carried.emitted, emitted, name);
    assert_count(rt, carried.lost, lost, name);
    let chunks = len.div_ceil(64) as u64;
    assert_count(rt, put, chunks, name);
    assert_count(rt, acknowledged, chunks, name);
}

/// Asserts the emitted chunks and the losses for 21 pairs of a first draw and a length, from none to 10000 bytes.
fn assert_lengths_and_draws(rt: &impl Abort, alloc: Global) {
    for (first, len, emitted, lost) in [
        (0, 0, 0, 0),
        (0, 1, 1, 0),
        (0, 64, 1, 0),
        (0, 65, 4, 2),
        (0, 512, 16, 5),
        (0, 513, 17, 5),
        (0, 10_000, 278, 56),
        (1, 692, 22, 5),
        (7, 5, 1, 0),
        (7, 65, 2, 0),
        (7, 512, 10, 2),
        (7, 513, 11, 2),
        (7, 10_000, 302, 61),
        (123_456_789, 5, 3, 2),
        (123_456_789, 512, 24, 10),
        (123_456_789, 513, 34, 12),
        (123_456_789, 10_000, 293, 69),
        (u64::MAX, 1, 2, 1),
        (u64::MAX, 65, 4, 2),
        (u64::MAX, 513, 25, 8),
        (u64::MAX, 10_000, 352, 88),
    ] {
        assert_carried(rt, alloc, first, len, emitted, lost);
    }
}

/// Bytes carried over the lossy line arrive, with so many chunks emitted and lost.
#[test]
fn texts_are_carried(rt: HostRuntime) {
    assert_lengths_and_draws(&rt, rt.alloc());
}
