//! What a source gives, carried, and what came of it printed.

ghost use Rattle.std.specs.Prelude.{◌≡◌, ◌≢◌, ◌++◌, List, ℕ, IfOk, OnOk, OnErr};
ghost use Rattle.chorus_io.specs.Count.{Rose};
ghost use Rattle.chorus_lossy.specs.Line.{ends, new_ends};
ghost use Rattle.chorus_lossy.specs.Carrying.{IsWithin};
ghost use Rattle.chorus_lossy.specs.Output.{HasCarried, Leaves, Prints, ReadsBy, lossy_text, text_with, wire_line};

use crate::carrying::{Carried, carry};
use chorus_input::read_input;
use chorus_io::{ReadAll, Sink, Source, write_all};
use chorus_show::Status;
use chorus_transport::{Receiver, Sender};
use chorus_ui::push_decimal;
use std::alloc::{AllocError, Global};

/// The most bytes of an input that is carried.
pub const INPUT_LIMIT: usize = 4_194_304;

/// Reads the source to its end, carries its bytes by [`carry`] over the two ends, which were just made with a window of
/// [`WINDOW`](crate::WINDOW), and writes what was delivered, LF, and the line `wire EMITTED LOST` with what was counted.
///
/// Where the input has more than [`INPUT_LIMIT`] bytes, which is [`Status::TOO_LONG`], or a read fails, the ends are as they were
/// made. Where there is no memory they stand as [`carry`] says.
pub fn lossy<S: Source, K: Sink>(
    alloc: Global,
    first: u64,
    source: &mut S,
    sink: &mut K,
    sender: &mut Sender,
    receiver: &mut Receiver,
) -> Status
    requires { ends sender.old receiver.old ≡ new_ends }
    // Why it ended. Want of memory is the one free answer, and hides no read fault.
    ensures read_fault { result ≡ Status.ReadFault →
        Rose (S.faults source.old) (S.faults source.new) }
    ensures steady { result ≡ Status.Memory → S.faults source.new ≡ S.faults source.old }
    ensures reliable { S.reliable source.old → S.faults source.new ≡ S.faults source.old }
    ensures write_fault { result ≡ Status.WriteFault →
        Rose (K.faults sink.old) (K.faults sink.new) }

    // What it did with the bytes that it read.
    ensures carries { (bytes : List ℕ)
        × ReadsBy result bytes (S.left source.old) (S.left source.new)
        × Prints first result bytes (K.held sink.old) (K.held sink.new)
        × Leaves first result bytes (ends sender.new receiver.new) }
    ensures unwritten { result ≢ Status.Done → result ≢ Status.WriteFault → sink.new ≡ sink.old }
{
    let bytes = match read_input(alloc, source, INPUT_LIMIT) {
        Ok(bytes) => bytes,
        Err(ReadAll::Fault) => return Status::ReadFault,
        Err(ReadAll::TooLong) => return Status::TOO_LONG,
        Err(ReadAll::Memory(_)) => return Status::Memory,
    };
    let Ok(text) = carried_text(alloc, first, &bytes, sender, receiver) else {
        return Status::Memory;
    };
    match write_all(sink, &text) {
        Ok(()) => Status::Done,
        Err(_) => Status::WriteFault,
    }
}

/// Carries the bytes, and gives the text that is printed of what came of it.
fn carried_text(
    alloc: Global,
    first: u64,
    bytes: &[u8],
    sender: &mut Sender,
    receiver: &mut Receiver,
) -> Result<Vec<u8>, AllocError>
    requires { ends sender.old receiver.old ≡ new_ends }
    ensures text { IfOk result (λ text. text.items ≡ lossy_text first bytes.now) }
    ensures carried { OnOk result (HasCarried first bytes.now (ends sender.new receiver.new)) }
    ensures memory { OnErr result (IsWithin first bytes.now (ends sender.new receiver.new)) }
{
    let carried = carry(alloc, first, bytes, sender, receiver)?;
    text_of(carried)
}

/// The text that is printed of what was carried: the bytes, LF, and the line `wire EMITTED LOST`.
fn text_of(carried: Carried) -> Result<Vec<u8>, AllocError>
    ensures { IfOk result (λ text.
        text.items ≡ text_with carried.delivered.items carried.emitted carried.lost) }
{
    let mut text = carried.delivered;
    text.push(b'\n')?;
    push_wire(carried.emitted, carried.lost, &mut text)?;
    Ok(text)
}

/// Appends the line `wire EMITTED LOST`. After an error a part of it may stand there.
fn push_wire(emitted: u64, lost: u64, out: &mut Vec<u8>) -> Result<(), AllocError>
    ensures { OnOk result (out.new.items ≡ out.old.items ++ wire_line emitted lost) }
{
    out.extend_from_slice(b"wire ")?;
    push_decimal(emitted, out)?;
    out.push(b' ')?;
    push_decimal(lost, out)?;
    out.push(b'\n')?;
    Ok(())
}
