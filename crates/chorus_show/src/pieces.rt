//! Parts of lines, for texts that are no journals.

ghost use Rattle.std.specs.Prelude.{◌≡◌, ◌++◌, OnOk};
ghost use Rattle.chorus_show.specs.Lines.{act_text, answer_text};
ghost use Rattle.chorus_show.specs.Phrases.{id_text};

use crate::fields::Field;
use chorus_entry::{Act, Answer, MsgId};
use std::alloc::AllocError;

/// Appends the text of the act, as in the line of an entry, for a text that is no journal. After an error a part of it
/// may stand there.
pub fn push_act(act: &Act, out: &mut Vec<u8>) -> Result<(), AllocError>
    ensures { OnOk result (out.new.items ≡ out.old.items ++ act_text act.now) }
{
    act.push(out)
}

/// Appends the text of the answer, as in the line of an entry, for a text that is no journal. After an error a part of
/// it may stand there.
pub fn push_answer(answer: &Answer, out: &mut Vec<u8>) -> Result<(), AllocError>
    ensures { OnOk result (out.new.items ≡ out.old.items ++ answer_text answer.now) }
{
    answer.push(out)
}

/// Appends the text of the id, `SEAT:NUMBER:COPY`, as in the line of an entry, for a text that is no journal. After an
/// error a part of it may stand there.
pub fn push_id(id: &MsgId, out: &mut Vec<u8>) -> Result<(), AllocError>
    ensures { OnOk result (out.new.items ≡ out.old.items ++ id_text id.now) }
{
    id.push(out)
}
