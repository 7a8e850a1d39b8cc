//! The parts of a text are written.

ghost use Rattle.std.specs.Prelude.{◌≤◌, OnOk, OnErr};
ghost use Rattle.std.specs.Io.KnownBytes.{Appends};
ghost use Rattle.chorus_io.specs.Count.{Rose};
ghost use Rattle.chorus_io.specs.Bytes.{AppendsPrefix};
ghost use Rattle.chorus_run.specs.ReportParts.Parts.{whole};

use chorus_io::{Failed, Sink, write_all};

/// Writes the parts of a text one behind the other. What went out is a prefix of the whole text, all of it at `Ok`. `Failed` comes
/// only where the sink's count of faults rose in this call.
pub(crate) fn write_parts<K: Sink>(sink: &mut K, parts: &[Vec<u8>]) -> Result<(), Failed>
    ensures ok { OnOk result (Appends (K.held sink.old) (K.held sink.new) (whole parts.now)) }
    ensures prefix { AppendsPrefix (K.held sink.old) (K.held sink.new) (whole parts.now) }
    ensures failed { OnErr result (Rose (K.faults sink.old) (K.faults sink.new)) }
    ensures never_falls { K.faults sink.old ≤ K.faults sink.new }
{
    let mut rest = parts;
    while let [part, behind @ ..] = rest {
        write_all(sink, part)?;
        rest = behind;
    }
    Ok(())
}
