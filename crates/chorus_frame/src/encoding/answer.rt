//! Answers.

ghost use Rattle.std.specs.Prelude.{◌≡◌, ◌++◌, OnOk, OnErr, length, take};
ghost use Rattle.chorus_frame.specs.Numbers.{number};
ghost use Rattle.chorus_frame.specs.Spelling.{answer_fields, located_fields};

use super::number::{push_u8, push_u16, push_u64};
use chorus_entry::Answer;
use std::alloc::AllocError;

/// Appends to a frame an answer, or a front of it for want of memory, here and in the call below.
pub(super) fn push_answer(answer: &Answer, out: &mut Vec<u8>) -> Result<(), AllocError>
    ensures ok { OnOk result (out.new.items ≡ out.old.items ++ answer_fields answer.now) }
    ensures err { OnErr result (take (length out.old.items) out.new.items ≡ out.old.items) }
{
    match answer {
        Answer::Accepted { pos } => {
            push_u8(1, out)?;
            push_u64(*pos, out)
        }
        Answer::Full { len } => {
            push_u8(2, out)?;
            push_u8(*len, out)
        }
        Answer::Stale { to, hop } => push_located(3, *to, *hop, out),
        Answer::Early { hop } => {
            push_u8(4, out)?;
            push_u64(*hop, out)
        }
        Answer::NoPort => push_u8(5, out),
        Answer::Already => push_u8(6, out),
        Answer::ClientsFull => push_u8(7, out),
        Answer::Elsewhere { to, hop } => push_located(8, *to, *hop, out),
        Answer::NoMember => push_u8(9, out),
        Answer::Chosen { count } => {
            push_u8(10, out)?;
            push_u16(*count, out)
        }
        Answer::Gone => push_u8(11, out),
    }
}

/// Appends to a frame the code of an answer, a place, and the hop by which a port went there.
fn push_located(code: u8, to: u16, hop: u64, out: &mut Vec<u8>) -> Result<(), AllocError>
    ensures ok { OnOk result
        (out.new.items ≡ out.old.items ++ (number 1 code ++ located_fields to hop)) }
    ensures err { OnErr result (take (length out.old.items) out.new.items ≡ out.old.items) }
{
    push_u8(code, out)?;
    push_u16(to, out)?;
    push_u64(hop, out)
}
