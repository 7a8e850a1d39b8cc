//! Whole turns that post a message to a port: the room that they need is taken before their first change.

ghost use Rattle.std.specs.Prelude.{◌≡◌, ◌<◌, reverse, OnErr, IfOk};
ghost use Rattle.chorus_ui.specs.declared.kind.Kind.TheVariants as Kind;
ghost use Rattle.chorus_ui.specs.declared.limits.TheConstants.{CLOCK_LIMIT};
ghost use Rattle.chorus_entry.specs.declared.command.Command.TheVariants as Command;
ghost use Rattle.chorus_entry.specs.declared.dest.Dest.TheVariants as Dest;
ghost use Rattle.chorus_entry.specs.declared.tag.Tag.TheVariants as Tag;
ghost use Rattle.law_machine.specs.PlaceState.{greatest_clock};
ghost use Rattle.law_machine.specs.Own.{next_message};
ghost use Rattle.law_machine.specs.Trying.{go};
ghost use Rattle.law_machine.specs.Doing.{direct};
ghost use Rattle.law_machine.specs.Replies.{verdict_reply, post_reply};
ghost use Rattle.chorus_calls.specs.Callers.{Seated};
ghost use Rattle.chorus_place.specs.PlaceTables.Room.{KeepsRoom};
ghost use Rattle.chorus_place.specs.PlaceTables.Tables.{state, turn, IsSound};
ghost use Rattle.chorus_place.specs.PlaceTables.Steps.{posted};
ghost use Rattle.chorus_place.specs.PlaceTables.Commands.{Performed, StaysOut};
ghost use Rattle.chorus_place.specs.PlaceTables.AtOnce.{IsFree};
ghost use Rattle.chorus_place.specs.PlaceTurns.Posting.{last_answer, MayPostTo, IsToPort, IsPostReady, IsAtOnce, IsToWait};

use crate::tables::{Tables, next_message};
use chorus_calls::Caller;
use chorus_entry::{Answer, Body, Dest, Entry, Message, MsgId, Tag};
use chorus_ui::Ui;
use law_machine::Reply;
use place_unsettled::{Key, Wait};
use std::alloc::AllocError;

/// How a message that is posted to a port goes.
#[derive(Drop)]
pub(crate) enum Way {
    /// It is decided here at once, by this hop of the port.
    AtOnce { hop: u64 },
    /// It waits behind the others; `again` is a copy of the one that will be tried at another place.
    Behind { again: Option<Wait> },
}

/// What the post of a message to a port takes that can fail: a copy of the message, which waits or is decided, and its way.
#[derive(Drop)]
pub(crate) struct ReadyPost {
    port: Ui,
    message: Message,
    wait: Wait,
    way: Way,
}

/// The reply of a turn that posts a direct message, by its verdict.
fn verdict_reply(msg: MsgId, answer: Answer) -> Reply
    ensures { result ≡ verdict_reply msg answer }
{
    match answer {
        Answer::Accepted { pos } => Reply::Accepted { msg, pos },
        Answer::Full { len } => Reply::Full { msg, len },
        Answer::Early { hop } => Reply::Early { msg, hop },
        Answer::NoPort => Reply::NoPort(msg),
        Answer::Already => Reply::Already(msg),
        Answer::ClientsFull => Reply::ClientsFull(msg),
        Answer::Gone => Reply::Gone(msg),
        _ => Reply::Posted(msg),
    }
}

/// Takes what the post of the caller's next message, with this tag, to a port needs. Changes nothing else, whatever the
/// answer.
pub(crate) fn ready_post(
    tables: &mut Tables,
    port: Ui,
    tag: Tag,
    body: Body,
    caller: &Caller,
) -> Result<ReadyPost, AllocError>
    requires may { MayPostTo port tag body caller.now }
    ensures port { IfOk result (λ ready. ready.port ≡ port) }
    ensures message { IfOk result (λ ready. ready.message ≡ next_message tag body caller.now) }
    ensures ready { IfOk result (λ ready. IsPostReady ready tables.new) }
    ensures turn { (c : Seated) → turn tables.new c ≡ turn tables.old c }
    ensures out { StaysOut tables.old.out tables.new.out }
    ensures kept { KeepsRoom tables.old tables.new }
{
    match tables.hop_at_once(port) {
        Some(hop) => ready_at_once(tables, port, tag, body, hop, caller),
        None => ready_to_wait(tables, port, tag, body, caller),
    }
}

/// Takes what the post of the caller's next message to a port needs, where it is decided here at once.
fn ready_at_once(
    tables: &mut Tables,
    port: Ui,
    tag: Tag,
    body: Body,
    hop: u64,
    caller: &Caller,
) -> Result<ReadyPost, AllocError>
    requires may { MayPostTo port tag body caller.now }
    requires free { IsFree port hop (state tables.old) }
    ensures port { IfOk result (λ ready. ready.port ≡ port) }
    ensures message { IfOk result (λ ready. ready.message ≡ next_message tag body caller.now) }
    ensures ready { IfOk result (λ ready. IsPostReady ready tables.new) }
    ensures turn { (c : Seated) → turn tables.new c ≡ turn tables.old c }
    ensures out { StaysOut tables.old.out tables.new.out }
    ensures kept { KeepsRoom tables.old tables.new }
{
    tables.make_room(2, 0)?;
    let message = next_message(caller, tag, body);
    let wait = Wait {
        message: message.copied(0)?,
        only: None,
        home: tables.number(),
    };
    let way = Way::AtOnce { hop };
    Ok(ReadyPost {
        port,
        message,
        wait,
        way,
    })
}

/// Takes what the post of the caller's next message to a port needs, where it is to wait behind others, or to be tried
/// at another place.
fn ready_to_wait(
    tables: &mut Tables,
    port: Ui,
    tag: Tag,
    body: Body,
    caller: &Caller,
) -> Result<ReadyPost, AllocError>
    requires may { MayPostTo port tag body caller.now }
    ensures port { IfOk result (λ ready. ready.port ≡ port) }
    ensures message { IfOk result (λ ready. ready.message ≡ next_message tag body caller.now) }
    ensures ready { IfOk result (λ ready. IsPostReady ready tables.new) }
    ensures turn { (c : Seated) → turn tables.new c ≡ turn tables.old c }
    ensures out { StaysOut tables.old.out tables.new.out }
    ensures kept { KeepsRoom tables.old tables.new }
{
    let key = Key { port, route: None };
    let waits = tables.waiting_for(&key);
    let reports = tables.most_reports(&key);
    tables.make_room(waits + 2, reports + 1)?;
    let message = next_message(caller, tag, body);
    let wait = Wait {
        message: message.copied(0)?,
        only: None,
        home: tables.number(),
    };
    let again = tables.copy_leaving(&key, 0, Some(&wait), Answer::NoPort)?;
    tables.make_line(&key)?;
    let way = Way::Behind { again };
    Ok(ReadyPost {
        port,
        message,
        wait,
        way,
    })
}

/// Posts a message for which all is there, and lets it go. Takes no memory. Gives the reply.
pub(crate) fn post_prepared(tables: &mut Tables, ready: ReadyPost, caller: &mut Caller) -> Reply
    requires ready { IsPostReady ready tables.old }
    requires posts { caller.old.posts < u32.MAX }
    requires clock { greatest_clock (turn tables.old caller.old) < CLOCK_LIMIT }
    ensures turn { turn tables.new caller.new ≡
        go (direct ready.port) (posted ready.message ready.port (turn tables.old caller.old)) }
    ensures reply { result ≡ post_reply ready.message.id tables.new.journal.past }
    ensures out { tables.new.out ≡ tables.old.out }
    ensures kept { KeepsRoom tables.old tables.new }
{
    let ReadyPost {
        port,
        message,
        wait,
        way,
    } = ready;
    match way {
        Way::AtOnce { hop } => post_at_once(tables, port, message, wait, hop, caller),
        Way::Behind { again } => post_behind(tables, port, message, wait, again, caller),
    }
}

/// Posts a message, of which `wait` has a copy, that is decided here at once. The answer says what the caller is told.
fn post_at_once(
    tables: &mut Tables,
    port: Ui,
    message: Message,
    wait: Wait,
    hop: u64,
    caller: &mut Caller,
) -> Reply
    requires message { IsToPort port message wait tables.old }
    requires ready { IsAtOnce port hop tables.old }
    requires posts { caller.old.posts < u32.MAX }
    requires clock { greatest_clock (turn tables.old caller.old) < CLOCK_LIMIT }
    ensures turn { turn tables.new caller.new ≡
        go (direct port) (posted message port (turn tables.old caller.old)) }
    ensures reply { result ≡ post_reply message.id tables.new.journal.past }
    ensures out { tables.new.out ≡ tables.old.out }
    ensures kept { KeepsRoom tables.old tables.new }
{
    let Wait { message: copy, .. } = wait;
    let id = message.id;
    tables.post_alone(message, Dest::Port(port), caller);
    let answer = tables.decide_at_once(copy, port, hop, caller);
    verdict_reply(id, answer)
}

/// Posts a message, of which `wait` is a copy, behind those that wait, and lets them go.
fn post_behind(
    tables: &mut Tables,
    port: Ui,
    message: Message,
    wait: Wait,
    again: Option<Wait>,
    caller: &mut Caller,
) -> Reply
    requires message { IsToPort port message wait tables.old }
    requires ready { IsToWait port wait again tables.old }
    requires posts { caller.old.posts < u32.MAX }
    requires clock { greatest_clock (turn tables.old caller.old) < CLOCK_LIMIT }
    ensures turn { turn tables.new caller.new ≡
        go (direct port) (posted message port (turn tables.old caller.old)) }
    ensures reply { result ≡ post_reply message.id tables.new.journal.past }
    ensures out { tables.new.out ≡ tables.old.out }
    ensures kept { KeepsRoom tables.old tables.new }
{
    let key = Key { port, route: None };
    let id = message.id;
    tables.post(&key, message, wait, caller);
    tables.go(&key, again, caller);
    last_reply(tables, id)
}

/// The answer that the last entry gives at the end of a post's turn, where it is a decision or a choice.
fn last_answer(entries: &[Entry]) -> Option<Answer>
    ensures { result ≡ last_answer (reverse entries.now) }
{
    let len = entries.len();
    if len == 0 {
        return None;
    }
    entries[len - 1].act.answer()
}

/// The reply to a post that went behind others, at the end of its turn: what the last entry says of it.
fn last_reply(tables: &Tables, id: MsgId) -> Reply
    ensures { result ≡ post_reply id tables.now.journal.past }
{
    match last_answer(tables.entries()) {
        Some(answer) => verdict_reply(id, answer),
        None => Reply::Posted(id),
    }
}

/// Sends a message to a port. Want of memory changes nothing.
pub(crate) fn send_to_port(
    tables: &mut Tables,
    port: Ui,
    body: Body,
    caller: &mut Caller,
) -> Result<Reply, AllocError>
    requires kind { port.kind ≡ Kind.Port }
    requires posts { caller.old.posts < u32.MAX }
    requires sound { IsSound (next_message Tag.Plain body caller.old) }
    requires clock { greatest_clock (turn tables.old caller.old) < CLOCK_LIMIT }
    ensures performed { IfOk result (λ reply. Performed (Command.Send (Dest.Port port) body)
        (turn tables.old caller.old) (turn tables.new caller.new) reply) }
    ensures refused { OnErr result (turn tables.new caller.new ≡ turn tables.old caller.old) }
    ensures out { StaysOut tables.old.out tables.new.out }
    ensures kept { KeepsRoom tables.old tables.new }
{
    let ready = ready_post(tables, port, Tag::Plain, body, caller)?;
    Ok(post_prepared(tables, ready, caller))
}
