//! What a source gives, judged.

ghost use Rattle.std.specs.Prelude.{◌≡◌, ◌≢◌, ◌≤◌, ◌++◌, ℕ, length, IfErr, IfOk, reverse, Err};
ghost use Rattle.chorus_io.specs.Count.{Rose};
ghost use Rattle.chorus_audit.specs.declared.limits.TheConstants.{AUDIT_LIMIT};
ghost use Rattle.chorus_audit.specs.Output.{ReadsBy};
ghost use Rattle.chorus_judge.specs.Output.{IsJudged, IsJudgedBy, IsJudgedFor, Judges, status_of};

use crate::asked::{Asked, Measure};
use crate::blaming::blame_in;
use crate::finding::open_entries;
use crate::judgement::{Judgement, judgement_of};
use crate::promising::promised_for;
use crate::texts::push_judged;
use chorus_audit::{AUDIT_LIMIT, read_for};
use chorus_input::read_input;
use chorus_io::{ReadAll, Sink, Source, write_all};
use chorus_show::Status;
use chorus_ui::Layout;
use judge_heads::{layout_for, make_plain};
use std::alloc::{AllocError, Global};

/// Reads the source to its end, judges the journal that it gave, and writes what was found: whether it is lawful, and a run, what is
/// open at the end of its entries, or of those in front of the line that is wrong, and who sat where; or, by promises, whether it keeps
/// them, and what is open by them. It is judged for the layout that is asked for; where none is, for the one that its head names, or 16
/// sites of one place each. A text of more than [`AUDIT_LIMIT`] bytes is [`Status::TOO_LONG`]; no error is `Done`.
pub fn judge<S: Source, K: Sink>(
    alloc: Global,
    asked: Asked,
    source: &mut S,
    sink: &mut K,
) -> Result<Judgement, Status>
    // Why it ended. Want of memory is the one free answer, and hides no read fault.
    ensures read_fault { result ≡ Err Status.ReadFault →
        Rose (S.faults source.old) (S.faults source.new) }
    ensures steady { result ≡ Err Status.Memory → S.faults source.new ≡ S.faults source.old }
    ensures reliable { S.reliable source.old → S.faults source.new ≡ S.faults source.old }
    ensures write_fault { result ≡ Err Status.WriteFault →
        Rose (K.faults sink.old) (K.faults sink.new) }
    ensures reads { ReadsBy (status_of result) (S.left source.old) (S.left source.new) }

    // What it did.
    ensures judges { Judges asked result (S.left source.old) (K.held sink.old) (K.held sink.new) }
    ensures unwritten { IfErr result (λ status.
        (status ≢ Status.Done) × (status ≢ Status.WriteFault → sink.new ≡ sink.old)) }
{
    let mut text = match read_input(alloc, source, AUDIT_LIMIT) {
        Ok(text) => text,
        Err(ReadAll::Fault) => return Err(Status::ReadFault),
        Err(ReadAll::TooLong) => return Err(Status::TOO_LONG),
        Err(ReadAll::Memory(_)) => return Err(Status::Memory),
    };
    let Ok((judgement, told)) = judged(alloc, asked, &mut text) else {
        return Err(Status::Memory);
    };
    match write_all(sink, &told) {
        Ok(()) => Ok(judgement),
        Err(_) => Err(Status::WriteFault),
    }
}

/// What the text is judged to be, and the text that says it. The text is made plain.
fn judged(
    alloc: Global,
    asked: Asked,
    text: &mut Vec<u8>,
) -> Result<(Judgement, Vec<u8>), AllocError>
    requires { length text.old.items ≤ AUDIT_LIMIT }
    ensures { IfOk result (λ found. IsJudged asked text.old.items found.0 found.1.items) }
{
    let (named, start) = make_plain(text);
    judged_by(
        alloc,
        asked.measure,
        layout_for(asked.layout, named),
        &text[start..],
    )
}

/// What the plain text is judged to be for the layout, by this measure, and the text that says it.
fn judged_by(
    alloc: Global,
    measure: Measure,
    layout: Layout,
    text: &[u8],
) -> Result<(Judgement, Vec<u8>), AllocError>
    requires { length text.now ≤ AUDIT_LIMIT }
    ensures { IfOk result (λ found. IsJudgedBy measure layout text.now found.0 found.1.items) }
{
    match measure {
        Measure::Rules => judged_for(alloc, layout, text),
        Measure::Promises => promised_for(alloc, layout, text),
    }
}

/// What the plain text is judged to be for the layout by the rules, and the text that says it.
fn judged_for(
    alloc: Global,
    layout: Layout,
    text: &[u8],
) -> Result<(Judgement, Vec<u8>), AllocError>
    requires { length text.now ≤ AUDIT_LIMIT }
    ensures { IfOk result (λ found. IsJudgedFor layout text.now found.0 found.1.items) }
{
    let reading = read_for(alloc, layout, text)?;
    let opens = open_entries(alloc, layout, reading.world.ledger())?;
    let blame = blame_in(alloc, reading.world.ledger(), text, reading.audit)?;
    let mut told = Vec::new(alloc);
    push_judged(
        layout,
        reading.audit,
        &blame,
        reading.world.entries(),
        &opens,
        &mut told,
    )?;
    Ok((judgement_of(reading.audit, &opens), told))
}
