//! How the program ended, for the one who started it.

ghost use Rattle.std.specs.Prelude.{◌≡◌, ◌≢◌, ◌≤◌, ◌++◌, OnOk, OnErr, decimal};
ghost use Rattle.std.specs.Io.KnownBytes.{Appends};
ghost use Rattle.std.specs.IoError.{error_kind};
ghost use Rattle.chorus_io.specs.Bytes.{AppendsPrefix};
ghost use Rattle.chorus_io.specs.Count.{Rose};
ghost use Rattle.chorus_show.specs.Faults.{fault_line};
ghost use Rattle.chorus_program.specs.Ending.{IsSaid};
ghost use Rattle.chorus_program.specs.Concluding.{claim_line, end_line, exit_number, verdict_line};

use crate::conclusion::Verdict;
use chorus_check::Checked;
use chorus_io::{Failed, Sink, write_all};
use chorus_show::Status;
use std::io::{self, ErrorKind};

/// The exit status of the program: where all was done and something was found, the number of that verdict, else that of the
/// status. The line that says what went wrong, or which claim does not hold, goes to the sink for errors, where there is one; a line that
/// cannot be written changes no exit status. Takes no memory but what the sink takes.
pub fn ended<K: Sink>(status: Status, verdict: Option<Verdict>, errors: &mut K) -> u8
    ensures number { result ≡ exit_number status verdict }
    ensures line { IsSaid (end_line status verdict) (K.held errors.old) (K.held errors.new)
        (K.faults errors.old) (K.faults errors.new) }
{
    let _ = say(status, verdict, errors);
    exit_number(status, verdict)
}

/// The number of what was found where all was done, else that of the status.
fn exit_number(status: Status, verdict: Option<Verdict>) -> u8
    ensures { result ≡ exit_number status verdict }
{
    match (status, verdict) {
        (Status::Done, Some(verdict)) => verdict.number(),
        _ => status.number(),
    }
}

/// How the program ends that got no words: there was no memory for them, or one of them is no text.
pub fn without_words(fault: &io::Error) -> Status
    ensures memory { error_kind fault.now ≡ ErrorKind.OutOfMemory → result ≡ Status.Memory }
    ensures usage { error_kind fault.now ≢ ErrorKind.OutOfMemory → result ≡ Status.Usage }
{
    if fault.kind() == ErrorKind::OutOfMemory {
        Status::Memory
    } else {
        Status::Usage
    }
}

/// Writes the line of how the program ended, if there is one.
fn say<K: Sink>(status: Status, verdict: Option<Verdict>, errors: &mut K) -> Result<(), Failed>
    ensures ok { OnOk result
        (Appends (K.held errors.old) (K.held errors.new) (end_line status verdict)) }
    ensures prefix { AppendsPrefix (K.held errors.old) (K.held errors.new)
        (end_line status verdict) }
    ensures failed { OnErr result (Rose (K.faults errors.old) (K.faults errors.new)) }
{
    match (status, verdict) {
        (Status::Done, Some(verdict)) => say_verdict(verdict, errors),
        _ => say_fault(status, errors),
    }
}

/// Writes the line of what the program found, if it has one: of a claim that does not hold.
fn say_verdict<K: Sink>(verdict: Verdict, errors: &mut K) -> Result<(), Failed>
    ensures ok { OnOk result
        (Appends (K.held errors.old) (K.held errors.new) (verdict_line verdict)) }
    ensures prefix { AppendsPrefix (K.held errors.old) (K.held errors.new) (verdict_line verdict) }
    ensures failed { OnErr result (Rose (K.faults errors.old) (K.faults errors.new)) }
{
    match verdict {
        Verdict::Checked(Checked::Fails { claim }) => say_claim(claim, b" fails\n", errors),
        Verdict::Checked(Checked::Open { claim }) => say_claim(claim, b" open\n", errors),
        Verdict::Checked(Checked::Holds) | Verdict::Judged(_) => write_all(errors, b""),
    }
}

/// Writes the line of a claim of which the program found this.
fn say_claim<K: Sink>(claim: u64, found: &[u8], errors: &mut K) -> Result<(), Failed>
    ensures ok { OnOk result
        (Appends (K.held errors.old) (K.held errors.new) (claim_line claim found.now)) }
    ensures prefix { AppendsPrefix (K.held errors.old) (K.held errors.new)
        (claim_line claim found.now) }
    ensures failed { OnErr result (Rose (K.faults errors.old) (K.faults errors.new)) }
{
    write_number(b"chorus: claim ", claim, errors)?;
    write_all(errors, found)
}

/// Writes the fault line of the status with which the program ended, if it has one.
fn say_fault<K: Sink>(status: Status, errors: &mut K) -> Result<(), Failed>
    ensures ok { OnOk result
        (Appends (K.held errors.old) (K.held errors.new) (fault_line status)) }
    ensures prefix { AppendsPrefix (K.held errors.old) (K.held errors.new) (fault_line status) }
    ensures failed { OnErr result (Rose (K.faults errors.old) (K.faults errors.new)) }
{
    match status {
        Status::Done => write_all(errors, b""),
        Status::Usage => write_all(
            errors,
            b"chorus: usage: chorus replay, run, or load FIRST COMMANDS\n",
        ),
        Status::Scenario { line, reason } => say_refused(line, reason, errors),
        Status::ReadFault => write_all(errors, b"chorus: read fault\n"),
        Status::WriteFault => write_all(errors, b"chorus: write fault\n"),
        Status::Memory => write_all(errors, b"chorus: out of memory\n"),
        Status::Worn { clock } => say_worn(clock, errors),
    }
}

/// Writes the program's fault line of a text that is refused.
fn say_refused<K: Sink>(line: u32, reason: u8, errors: &mut K) -> Result<(), Failed>
    ensures ok { OnOk result (Appends (K.held errors.old) (K.held errors.new)
        (fault_line (Status.Scenario line reason))) }
    ensures prefix { AppendsPrefix (K.held errors.old) (K.held errors.new)
        (fault_line (Status.Scenario line reason)) }
    ensures failed { OnErr result (Rose (K.faults errors.old) (K.faults errors.new)) }
{
    write_number(b"chorus: scenario line ", u64::from(line), errors)?;
    write_number(b" reason ", u64::from(reason), errors)?;
    write_all(errors, b"\n")
}

/// Writes the program's fault line of a clock that is worn.
fn say_worn<K: Sink>(clock: u64, errors: &mut K) -> Result<(), Failed>
    ensures ok { OnOk result (Appends (K.held errors.old) (K.held errors.new)
        (fault_line (Status.Worn clock))) }
    ensures prefix { AppendsPrefix (K.held errors.old) (K.held errors.new)
        (fault_line (Status.Worn clock)) }
    ensures failed { OnErr result (Rose (K.faults errors.old) (K.faults errors.new)) }
{
    write_number(b"chorus: worn at clock ", clock, errors)?;
    write_all(errors, b"\n")
}

/// Writes the text and the number's decimal, a part of the program's fault line.
fn write_number<K: Sink>(text: &[u8], number: u64, errors: &mut K) -> Result<(), Failed>
    ensures ok { OnOk result
        (Appends (K.held errors.old) (K.held errors.new) (text.now ++ decimal number)) }
    ensures prefix { AppendsPrefix (K.held errors.old) (K.held errors.new)
        (text.now ++ decimal number) }
    ensures failed { OnErr result (Rose (K.faults errors.old) (K.faults errors.new)) }
    ensures never_falls { K.faults errors.old ≤ K.faults errors.new }
{
    write_all(errors, text)?;
    let mut buffer = itoa::Buffer::new();
    write_all(errors, buffer.format(number).as_bytes())
}
