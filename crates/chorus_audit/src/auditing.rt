//! What a source gives, audited.

ghost use Rattle.std.specs.Prelude.{◌≡◌, ◌≢◌, ◌≤◌, ◌++◌, ℕ, length, IfOk, OnOk};
ghost use Rattle.chorus_io.specs.Count.{Rose};
ghost use Rattle.chorus_audit.specs.Tests.{IsVerdict};
ghost use Rattle.chorus_audit.specs.declared.limits.TheConstants.{AUDIT_LIMIT};
ghost use Rattle.chorus_audit.specs.declared.judging.Audit.{Audit};
ghost use Rattle.chorus_audit.specs.Output.{Prints, ReadsBy, verdict_text};

use crate::judging::{Audit, audit_text};
use crate::limits::AUDIT_LIMIT;
use chorus_input::read_input;
use chorus_io::{ReadAll, Sink, Source, write_all};
use chorus_show::Status;
use chorus_ui::{Layout, push_decimal};
use std::alloc::{AllocError, Global};

/// Reads the source to its end, and writes the line `legal N` or `wrong line L rule R` that says what [`audit_text`] finds. The
/// status is `Done` for both. A text of more than [`AUDIT_LIMIT`] bytes is [`Status::TOO_LONG`].
pub fn audit<S: Source, K: Sink>(
    alloc: Global,
    layout: Layout,
    source: &mut S,
    sink: &mut K,
) -> Status
    // Why it ended. Want of memory is the one free answer, and hides no read fault.
    ensures read_fault { result ≡ Status.ReadFault →
        Rose (S.faults source.old) (S.faults source.new) }
    ensures steady { result ≡ Status.Memory → S.faults source.new ≡ S.faults source.old }
    ensures reliable { S.reliable source.old → S.faults source.new ≡ S.faults source.old }
    ensures write_fault { result ≡ Status.WriteFault →
        Rose (K.faults sink.old) (K.faults sink.new) }
    ensures reads { ReadsBy result (S.left source.old) (S.left source.new) }

    // What it did.
    ensures prints { Prints layout result (S.left source.old) (K.held sink.old) (K.held sink.new) }
    ensures unwritten { result ≢ Status.Done → result ≢ Status.WriteFault → sink.new ≡ sink.old }
{
    let text = match read_input(alloc, source, AUDIT_LIMIT) {
        Ok(text) => text,
        Err(ReadAll::Fault) => return Status::ReadFault,
        Err(ReadAll::TooLong) => return Status::TOO_LONG,
        Err(ReadAll::Memory(_)) => return Status::Memory,
    };
    let Ok(line) = verdict_line(alloc, layout, &text) else {
        return Status::Memory;
    };
    match write_all(sink, &line) {
        Ok(()) => Status::Done,
        Err(_) => Status::WriteFault,
    }
}

/// The line that says what an audit of the text finds.
fn verdict_line(alloc: Global, layout: Layout, text: &[u8]) -> Result<Vec<u8>, AllocError>
    requires { length text.now ≤ AUDIT_LIMIT }
    ensures { IfOk result (λ line.
        (audit : Audit) × IsVerdict layout text.now audit × (line.items ≡ verdict_text audit)) }
{
    let mut line = Vec::new(alloc);
    push_verdict(audit_text(alloc, layout, text)?, &mut line)?;
    Ok(line)
}

/// Appends the line that says what an audit finds. After an error a part of it may stand there.
pub fn push_verdict(audit: Audit, out: &mut Vec<u8>) -> Result<(), AllocError>
    ensures { OnOk result (out.new.items ≡ out.old.items ++ verdict_text audit) }
{
    match audit {
        Audit::Legal { entries } => {
            out.extend_from_slice(b"legal ")?;
            push_decimal(u64::from(entries), out)?;
        }
        Audit::Wrong { line, rule } => {
            out.extend_from_slice(b"wrong line ")?;
            push_decimal(u64::from(line), out)?;
            out.extend_from_slice(b" rule ")?;
            push_decimal(u64::from(rule), out)?;
        }
    }
    out.push(b'\n')?;
    Ok(())
}
