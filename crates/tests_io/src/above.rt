//! What a layer above proves from the contracts here: generic in a source and a sink, and at a source that never fails.
ghost use Rattle.std.specs.Prelude.{◌≡◌, ◌≢◌, ◌++◌, [], OnOk, IfSome, IsErrOf, Err};
ghost use Rattle.std.specs.Io.KnownBytes.{Appends};
ghost use Rattle.tests_io.specs.declared.above.Stop.TheVariants.{WriteFault};
ghost use Rattle.chorus_io.specs.Count.{Rose};
ghost use Rattle.chorus_io.specs.Bytes.{AppendsPrefix};

use crate::bytes::{assert_same, copied, sink_of, source_of};
use chorus_io::{Failed, MemSource, ReadAll, Sink, Source, read_all, write_all};
use std::alloc::Global;

#[derive(Clone, Copy, PartialEq, Eq)]
enum Stop {
    Input,
    ReadFault,
    WriteFault,
}

impl From<Failed> for Stop {
    ghost from_gives = { λ _ e. e ≡ WriteFault };

    fn from(_: Failed) -> Self {
        Stop::WriteFault
    }
}

/// Writes a heading and then the whole input, as a layer above sources and sinks may do.
fn copy<S: Source, K: Sink>(
    alloc: Global,
    source: &mut S,
    sink: &mut K,
    heading: &[u8],
) -> Result<(), Stop>
    ensures done { OnOk result (IfSome (S.left source.old) (λ input.
        Appends (K.held sink.old) (K.held sink.new) (heading.now ++ input))) }
    ensures prefix { IfSome (S.left source.old) (λ input.
        AppendsPrefix (K.held sink.old) (K.held sink.new) (heading.now ++ input)) }
    ensures untouched { IsErrOf result Stop.Input → sink.new ≡ sink.old }
    ensures read_fault { IsErrOf result Stop.ReadFault →
        Rose (S.faults source.old) (S.faults source.new) }
    ensures write_fault { IsErrOf result Stop.WriteFault →
        Rose (K.faults sink.old) (K.faults sink.new) }
{
    let input = match read_all(alloc, source, 100) {
        Ok(input) => input,
        Err(ReadAll::Fault) => return Err(Stop::ReadFault),
        Err(_) => return Err(Stop::Input),
    };
    write_all(sink, heading)?;
    write_all(sink, &input)?;
    Ok(())
}

/// The whole input of a source in memory of which no read is listed to fail.
fn read_reliable(alloc: Global, source: &mut MemSource) -> Result<Vec<u8>, ReadAll>
    requires unlisted { source.old.plan.failing ≡ [] }
    requires no_fault_yet { source.old.plan.faults ≡ 0 }
    ensures no_fault { result ≢ Err ReadAll.Fault }
    ensures still { source.new.plan.faults ≡ 0 }
{
    read_all(alloc, source, 100)
}

/// A layer above copies a source to its sink, until a write fails.
#[test]
fn copies_until_the_sink_fails(rt: HostRuntime) {
    for (failing, result, held) in [
        (9, Ok(()), b"#0123456789".as_slice()),
        (3, Err(Stop::WriteFault), b"#01234".as_slice()),
        (1, Err(Stop::WriteFault), b"".as_slice()),
    ] {
        let mut source = source_of(&rt, rt.alloc(), b"0123456789", &[]);
        let mut sink = sink_of(&rt, rt.alloc(), 5, &[failing]);
        assert!(rt; copy(rt.alloc(), &mut source, &mut sink, b"#") == result);
        assert_same(&rt, sink.bytes(), held, 5);
    }
}

/// A layer above reads the whole of a source that never fails.
#[test]
fn reads_a_reliable_source(rt: HostRuntime) {
    let input = copied(&rt, rt.alloc(), b"0123");
    let mut source = MemSource::new(input, Vec::new(rt.alloc()));
    let read = read_reliable(rt.alloc(), &mut source)
        .ok()
        .expect(&rt, "the input");
    assert_same(&rt, &read, b"0123", 100);
}
