//! Faults in mid-stream: what was read or written by then, and what goes on behind one.

use chorus_io::*;
use std::alloc::Global;
use std::process::Abort;

const DIGITS: &[u8] = b"0123456789";

/// A source of these bytes, whose read of each of these numbers fails.
pub(crate) fn source_of(
    rt: &impl Abort,
    alloc: Global,
    bytes: &[u8],
    failing: &[u64],
) -> MemSource {
    MemSource::new(copied(rt, alloc, bytes), copied(rt, alloc, failing))
}

/// A sink that takes so many bytes at a time, whose write of each of these numbers fails.
pub(crate) fn sink_of(rt: &impl Abort, alloc: Global, most: usize, failing: &[u64]) -> MemSink {
    assert!(rt; most >= 1);
    MemSink::new(alloc, most, copied(rt, alloc, failing))
}

/// Copies bytes, or the numbers of failing calls, into memory that a source or sink can own.
pub(crate) fn copied<T: Copy>(rt: &impl Abort, alloc: Global, items: &[T]) -> Vec<T> {
    Vec::from_slice(alloc, items).expect(rt, "memory")
}

/// A reading of ten bytes fails in the source.
fn assert_faults<S: Source>(rt: &impl Abort, alloc: Global, source: &mut S) {
    assert_eq!(rt; read_all(alloc, source, 10).err(), Some(ReadAll::Fault));
}

/// A reading of ten bytes gives these, all that is left.
fn assert_left<S: Source>(rt: &impl Abort, alloc: Global, source: &mut S, left: &[u8]) {
    let read = read_all(alloc, source, 10).ok().expect(rt, "the rest");
    assert_same(rt, &read, left, 10);
}

/// Asserts that what was read or written is as expected, and names the bytes per call where it is not.
pub(crate) fn assert_same(rt: &impl Abort, bytes: &[u8], expected: &[u8], most: usize) {
    assert_eq!(rt; bytes, expected, "up to {most} bytes");
}

/// A source whose first or second read fails gives what is left behind that.
#[test]
fn source_fails_at_call_1_and_2(rt: HostRuntime) {
    // A source of ten bytes gives them all in one call. The second finds the end.
    for (failing, left) in [(1, DIGITS), (2, b"".as_slice())] {
        let mut source = source_of(&rt, rt.alloc(), DIGITS, &[failing]);
        assert_one_fault(&rt, rt.alloc(), &mut source, left);
    }
}

/// The first reading of ten bytes fails, and the next one gives what is left.
fn assert_one_fault<S: Source>(rt: &impl Abort, alloc: Global, source: &mut S, left: &[u8]) {
    assert_faults(rt, alloc, source);
    assert!(rt; source.faults() == 1);
    assert_left(rt, alloc, source, left);
    assert!(rt; source.faults() == 1);
}

/// A sink whose second write fails keeps the first one's bytes, and goes on.
#[test]
fn second_write_fails(rt: HostRuntime) {
    // What went out is what one write takes. The sink goes on behind it.
    for most in [1, 5, 64] {
        let mut sink = sink_of(&rt, rt.alloc(), most, &[2]);
        assert_write(&rt, &mut sink, &[b'a'; 100], Err(Failed), 1);
        assert_same(&rt, sink.bytes(), front(&rt, &[b'a'; 100], most), most);
        assert_write(&rt, &mut sink, b"bc", Ok(()), 1);
        assert_ends_behind(&rt, sink.bytes(), most);
    }
}

/// Writes the bytes with this outcome. So many writes failed by then.
fn assert_write<K: Sink>(
    rt: &impl Abort,
    sink: &mut K,
    bytes: &[u8],
    outcome: Result<(), Failed>,
    faults: u64,
) {
    assert!(rt; write_all(sink, bytes) == outcome);
    assert!(rt; sink.faults() == faults);
}

/// The first `len` bytes of what is written, which a failing sink still took.
fn front<'a>(rt: &impl Abort, bytes: &'a [u8], len: usize) -> &'a [u8] {
    bytes.get(..len).expect(rt, "a part")
}

/// In what a sink holds two bytes stand behind the first `most`, and the last one of these is an `a`.
fn assert_ends_behind(rt: &impl Abort, bytes: &[u8], most: usize) {
    assert!(rt; bytes.len().checked_sub(most) == Some(2));
    assert!(rt; bytes.ends_with(b"abc"));
}
