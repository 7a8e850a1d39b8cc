//! The lines of facts.

ghost use Rattle.std.specs.Prelude.{◌≡◌, ◌∷◌, ◌++◌, OnOk, map, codes, decimal, []};
ghost use Rattle.chorus_ui.specs.Text.{name_text};
ghost use Rattle.chorus_show.specs.Phrases.{phrase, spaced, id_text};
ghost use Rattle.law_explore.specs.Outcome.{Accepted, Answered, Calls, Copied, Holds, Judged, Members, Moving, Next, Open, Settled, Stale, Stuck, port_fact};
ghost use Rattle.explore_report.specs.Facts.{waiting_in, plain_act_text, plain_answer_text, fact_line};

use chorus_entry::{Act, Answer, MsgId, PortRecord};
use chorus_show::{push_act, push_answer, push_id};
use chorus_ui::{Ui, push_decimal};
use std::alloc::AllocError;

/// Appends a space and the number, as a word of a fact's line.
fn push_number(number: u64, out: &mut Vec<u8>) -> Result<(), AllocError>
    ensures { OnOk result (out.new.items ≡ out.old.items ++ 32 ∷ decimal number) }
{
    out.push(b' ')?;
    push_decimal(number, out)
}

/// Appends a space and the name, as a word of a fact's line.
fn push_name(name: Ui, out: &mut Vec<u8>) -> Result<(), AllocError>
    ensures { OnOk result (out.new.items ≡ out.old.items ++ 32 ∷ name_text name) }
{
    out.push(b' ')?;
    name.text(out)
}

/// Appends a space and the id of a message, as a word of a fact's line.
fn push_message(id: &MsgId, out: &mut Vec<u8>) -> Result<(), AllocError>
    ensures { OnOk result (out.new.items ≡ out.old.items ++ 32 ∷ id_text id.now) }
{
    out.push(b' ')?;
    push_id(id, out)
}

/// Appends the line of how a command is answered: the number of its script and its own, both from 1, and the act,
/// without the numbers that tell when. The only error is want of memory; the line may then be cut off.
pub fn push_answered(
    script: u64,
    number: u64,
    act: &Act,
    out: &mut Vec<u8>,
) -> Result<(), AllocError>
    ensures { OnOk result
        (out.new.items ≡ out.old.items ++ fact_line (Answered script number act.now)) }
{
    out.extend_from_slice(b"answer")?;
    push_number(script, out)?;
    push_number(number, out)?;
    out.push(b' ')?;
    push_plain_act(act, out)?;
    out.push(b'\n')?;
    Ok(())
}

/// Appends the act without a position or a hop, for a line of a fact.
fn push_plain_act(act: &Act, out: &mut Vec<u8>) -> Result<(), AllocError>
    ensures { OnOk result (out.new.items ≡ out.old.items ++ plain_act_text act.now) }
{
    match act {
        Act::Take { port, id, .. } => push_take(*port, id, out),
        Act::Depart {
            port,
            to,
            actor,
            ..
        } => push_depart(*port, *to, *actor, out),
        other => push_act(other, out),
    }
}

/// Appends that a message is received from a port, without its position there, for a line of a fact.
fn push_take(port: Ui, id: &MsgId, out: &mut Vec<u8>) -> Result<(), AllocError>
    ensures { OnOk result (out.new.items
        ≡ out.old.items ++ codes "take" ++ 32 ∷ name_text port ++ 32 ∷ id_text id.now) }
{
    out.extend_from_slice(b"take")?;
    push_name(port, out)?;
    push_message(id, out)
}

/// Appends that a port leaves for an actor at another place, without its hop, for a line of a fact.
fn push_depart(port: Ui, to: u16, actor: Ui, out: &mut Vec<u8>) -> Result<(), AllocError>
    ensures { OnOk result (out.new.items ≡ out.old.items
        ++ codes "depart" ++ 32 ∷ name_text port ++ 32 ∷ decimal to ++ 32 ∷ name_text actor) }
{
    out.extend_from_slice(b"depart")?;
    push_name(port, out)?;
    push_number(u64::from(to), out)?;
    push_name(actor, out)
}

/// Appends the line of a fact about a message: its verdict; none is `chosen`. The only error is want of memory; the line may then be
/// cut off.
pub fn push_judged(id: &MsgId, verdict: Option<Answer>, out: &mut Vec<u8>) -> Result<(), AllocError>
    ensures { OnOk result (out.new.items ≡ out.old.items ++ fact_line (Judged id.now verdict)) }
{
    out.extend_from_slice(b"verdict")?;
    push_message(id, out)?;
    out.push(b' ')?;
    match verdict {
        None => out.extend_from_slice(b"chosen")?,
        Some(answer) => push_plain_answer(&answer, out)?,
    }
    out.push(b'\n')?;
    Ok(())
}

/// Appends the line of the fact that the message was told `stale`. The only error is want of memory; the line may then be cut off,
/// as those of the facts below.
pub fn push_stale(id: &MsgId, out: &mut Vec<u8>) -> Result<(), AllocError>
    ensures { OnOk result (out.new.items ≡ out.old.items ++ fact_line (Stale id.now)) }
{
    out.extend_from_slice(b"stale")?;
    push_message(id, out)?;
    out.push(b'\n')?;
    Ok(())
}

/// Appends the answer without a position, a hop or a place, for a line of a fact.
fn push_plain_answer(answer: &Answer, out: &mut Vec<u8>) -> Result<(), AllocError>
    ensures { OnOk result (out.new.items ≡ out.old.items ++ plain_answer_text answer.now) }
{
    match answer {
        Answer::Accepted { .. } => out.extend_from_slice(b"accepted"),
        Answer::Early { .. } => out.extend_from_slice(b"early"),
        Answer::Elsewhere { .. } => out.extend_from_slice(b"elsewhere"),
        other => push_answer(other, out),
    }
}

/// Appends the line of a fact about a held port: its actor, and the messages that wait in it.
pub fn push_held(port: &PortRecord, out: &mut Vec<u8>) -> Result<(), AllocError>
    ensures { OnOk result (out.new.items ≡ out.old.items ++ fact_line (port_fact port.now)) }
{
    out.extend_from_slice(b"port")?;
    push_name(port.ui, out)?;
    push_name(port.actor, out)?;
    push_waiting(port, out)?;
    out.push(b'\n')?;
    Ok(())
}

/// Appends to a fact's line the ids of the messages that wait in the port, each behind a space.
fn push_waiting(port: &PortRecord, out: &mut Vec<u8>) -> Result<(), AllocError>
    ensures { OnOk result (out.new.items
        ≡ out.old.items ++ spaced (map id_text (waiting_in port.now.pending))) }
{
    for index in 0..port.pending.len() {
        if let Some(message) = port.pending.get(index) {
            push_message(&message.id, out)?;
        }
    }
    Ok(())
}

/// Appends the line of how a command is answered that took a reply: as above, and whether the reply ended the script's call.
pub fn push_settled(
    script: u64,
    number: u64,
    act: &Act,
    settles: &Act,
    out: &mut Vec<u8>,
) -> Result<(), AllocError>
    ensures { OnOk result (out.new.items
        ≡ out.old.items ++ fact_line (Settled script number act.now settles.now)) }
{
    push_what_answered(script, number, act, out)?;
    out.push(b' ')?;
    push_act(settles, out)?;
    out.push(b'\n')?;
    Ok(())
}

/// Appends of a line how the command is answered.
fn push_what_answered(
    script: u64,
    number: u64,
    act: &Act,
    out: &mut Vec<u8>,
) -> Result<(), AllocError>
    ensures { OnOk result (out.new.items ≡ out.old.items ++ phrase (codes "answer")
        (decimal script ∷ decimal number ∷ plain_act_text act.now ∷ [])) }
{
    out.extend_from_slice(b"answer")?;
    push_number(script, out)?;
    push_number(number, out)?;
    out.push(b' ')?;
    push_plain_act(act, out)
}

/// Appends the line of the fact that the message was posted and is not settled.
pub fn push_open(id: &MsgId, out: &mut Vec<u8>) -> Result<(), AllocError>
    ensures { OnOk result (out.new.items ≡ out.old.items ++ fact_line (Open id.now)) }
{
    out.extend_from_slice(b"open")?;
    push_message(id, out)?;
    out.push(b'\n')?;
    Ok(())
}

/// Appends the line of the fact that the copy goes to the port.
pub fn push_copied(id: &MsgId, port: Ui, out: &mut Vec<u8>) -> Result<(), AllocError>
    ensures { OnOk result (out.new.items ≡ out.old.items ++ fact_line (Copied id.now port)) }
{
    out.extend_from_slice(b"copy")?;
    push_message(id, out)?;
    push_name(port, out)?;
    out.push(b'\n')?;
    Ok(())
}

/// Appends the line of the fact that the port has accepted these messages.
pub fn push_accepted(port: Ui, ids: &[MsgId], out: &mut Vec<u8>) -> Result<(), AllocError>
    ensures { OnOk result (out.new.items ≡ out.old.items ++ fact_line (Accepted port ids.now)) }
{
    out.extend_from_slice(b"accepted")?;
    push_name(port, out)?;
    push_each_message(ids, out)?;
    out.push(b'\n')?;
    Ok(())
}

/// Appends the ids to a line, each behind a space.
fn push_each_message(ids: &[MsgId], out: &mut Vec<u8>) -> Result<(), AllocError>
    ensures { OnOk result (out.new.items ≡ out.old.items ++ spaced (map id_text ids.now)) }
{
    for id in ids {
        push_message(id, out)?;
    }
    Ok(())
}

/// Appends the line of the fact that the port is on its way to the actor.
pub fn push_moving(port: Ui, actor: Ui, out: &mut Vec<u8>) -> Result<(), AllocError>
    ensures { OnOk result (out.new.items ≡ out.old.items ++ fact_line (Moving port actor)) }
{
    out.extend_from_slice(b"moving")?;
    push_name(port, out)?;
    push_name(actor, out)?;
    out.push(b'\n')?;
    Ok(())
}

/// Appends the line of the fact that the group has these members.
pub fn push_members(group: Ui, ports: &[Ui], out: &mut Vec<u8>) -> Result<(), AllocError>
    ensures { OnOk result (out.new.items ≡ out.old.items ++ fact_line (Members group ports.now)) }
{
    out.extend_from_slice(b"members")?;
    push_name(group, out)?;
    push_each_name(ports, out)?;
    out.push(b'\n')?;
    Ok(())
}

/// Appends the names to a line, each behind a space.
fn push_each_name(names: &[Ui], out: &mut Vec<u8>) -> Result<(), AllocError>
    ensures { OnOk result (out.new.items ≡ out.old.items ++ spaced (map name_text names.now)) }
{
    for name in names {
        push_name(*name, out)?;
    }
    Ok(())
}

/// Appends the line of the fact that the script's call of this number is outstanding.
pub fn push_calls(script: u64, number: u32, out: &mut Vec<u8>) -> Result<(), AllocError>
    ensures { OnOk result (out.new.items ≡ out.old.items ++ fact_line (Calls script number)) }
{
    out.extend_from_slice(b"outstanding")?;
    push_numbers(script, u64::from(number), out)?;
    out.push(b'\n')?;
    Ok(())
}

/// Appends two numbers to a line, each behind a space.
fn push_numbers(one: u64, two: u64, out: &mut Vec<u8>) -> Result<(), AllocError>
    ensures { OnOk result
        (out.new.items ≡ out.old.items ++ spaced (decimal one ∷ decimal two ∷ [])) }
{
    push_number(one, out)?;
    push_number(two, out)
}

/// Appends the line of the fact that the script holds the client's request of this number.
pub fn push_holds(
    script: u64,
    client: u32,
    number: u32,
    out: &mut Vec<u8>,
) -> Result<(), AllocError>
    ensures { OnOk result
        (out.new.items ≡ out.old.items ++ fact_line (Holds script client number)) }
{
    out.extend_from_slice(b"hand")?;
    push_number(script, out)?;
    push_number(u64::from(client), out)?;
    push_number(u64::from(number), out)?;
    out.push(b'\n')?;
    Ok(())
}

/// Appends the line of the fact that the script never came to this command, which waits.
pub fn push_stuck(script: u64, number: u64, out: &mut Vec<u8>) -> Result<(), AllocError>
    ensures { OnOk result (out.new.items ≡ out.old.items ++ fact_line (Stuck script number)) }
{
    out.extend_from_slice(b"stuck")?;
    push_number(script, out)?;
    push_number(number, out)?;
    out.push(b'\n')?;
    Ok(())
}

/// Appends the line of the fact that this is the script's next command.
pub fn push_next(script: u64, number: u64, out: &mut Vec<u8>) -> Result<(), AllocError>
    ensures { OnOk result (out.new.items ≡ out.old.items ++ fact_line (Next script number)) }
{
    out.extend_from_slice(b"next")?;
    push_number(script, out)?;
    push_number(number, out)?;
    out.push(b'\n')?;
    Ok(())
}
