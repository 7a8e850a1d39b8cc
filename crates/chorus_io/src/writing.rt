//! All the output.
ghost use Rattle.std.specs.Prelude.{◌≤◌, OnOk, OnErr};
ghost use Rattle.std.specs.Io.KnownBytes.{Appends};
ghost use Rattle.chorus_io.specs.Count.{Rose};
ghost use Rattle.chorus_io.specs.Bytes.{AppendsPrefix};

use crate::{Failed, Sink};

/// Writes the bytes. What went out is a prefix of them, all of it at `Ok`. `Failed` comes only where the sink's count of
/// faults rose in this call. Takes no memory but what the sink takes.
pub fn write_all<K: Sink>(sink: &mut K, bytes: &[u8]) -> Result<(), Failed>
    ensures ok { OnOk result (Appends (K.held sink.old) (K.held sink.new) bytes.now) }
    ensures prefix { AppendsPrefix (K.held sink.old) (K.held sink.new) bytes.now }

    ensures failed { OnErr result (Rose (K.faults sink.old) (K.faults sink.new)) }
    ensures never_falls { K.faults sink.old ≤ K.faults sink.new }
{
    let mut at = 0;
    while at < bytes.len() {
        at += sink.write(&bytes[at..])?;
    }
    Ok(())
}
