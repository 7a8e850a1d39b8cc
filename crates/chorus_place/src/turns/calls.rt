//! Whole turns with calls: what can fail comes first, and then the caller and the place change.

ghost use Rattle.std.specs.Prelude.{◌≡◌, ◌+◌, ◌^◌, ◌<◌, ◌≤◌, None, length, IfOk, OnOk, OnErr, true};
ghost use Rattle.chorus_ui.specs.declared.kind.Kind.TheVariants as Kind;
ghost use Rattle.chorus_ui.specs.declared.limits.TheConstants.{BODY_LIMIT, CLOCK_LIMIT};
ghost use Rattle.chorus_entry.specs.declared.command.Command.TheVariants as Command;
ghost use Rattle.law_machine.specs.PlaceState.{greatest_clock, note};
ghost use Rattle.chorus_place.specs.PlaceTables.Plain.{is_plain};
ghost use Rattle.chorus_place.specs.PlaceTables.Room.{KeepsRoom};
ghost use Rattle.chorus_place.specs.PlaceTables.Tables.{turn};
ghost use Rattle.chorus_place.specs.PlaceTables.Commands.{Performed, StaysOut};
ghost use Rattle.chorus_place.specs.PlaceTurns.Allowed.{MayBeginCall, MayReply};
ghost use Rattle.chorus_place.specs.PlaceTurns.CallTurns.{outstanding_number, with_call, without_call};

use crate::tables::Tables;
use crate::turns::messages::{post_prepared, ready_post};
use chorus_calls::Caller;
use chorus_entry::{Act, Body, Hand, Tag};
use chorus_ui::Ui;
use law_machine::Reply;
use std::alloc::AllocError;

/// A copy of the body of a call, which is within the limit.
fn copied(body: &Body) -> Result<Body, AllocError>
    ensures copy { IfOk result (λ copy. copy ≡ body.now) }
    ensures within { length body.now ≤ BODY_LIMIT }
{
    // That it is within the limit is told by its bytes.
    let _bytes = body.bytes();
    body.copied()
}

/// The number of the call that the caller has outstanding, with which a turn refuses another one.
fn outstanding_number(caller: &Caller) -> Option<u32>
    ensures { result ≡ outstanding_number caller.now }
{
    match caller.client().again() {
        Some(call) => Some(call.number),
        None => None,
    }
}

/// A part of the turn of a call: makes this call the caller's outstanding one, unless another one is.
fn begin(caller: &mut Caller, port: Ui, back: Ui, body: Body)
    requires given { caller.old.client.given < u32.MAX }
    requires port { port.kind ≡ Kind.Port }
    requires back { back.kind ≡ Kind.Port }
    ensures { caller.new ≡ with_call port back body caller.old }
{
    let _answer = caller.client_mut().begin(port, back, body);
}

/// A part of the turn of a cancel: ends the caller's outstanding call, and gives its number.
fn end_call(caller: &mut Caller) -> Option<u32>
    ensures number { result ≡ outstanding_number caller.old }
    ensures after { caller.new ≡ without_call caller.old }
{
    caller.client_mut().cancel()
}

/// Calls a port: posts a request with the caller's next number, whose reply goes to the port `back`, and makes it the
/// outstanding call. `Outstanding` where a call is outstanding. Want of memory changes nothing.
pub(crate) fn call(
    tables: &mut Tables,
    port: Ui,
    back: Ui,
    body: Body,
    caller: &mut Caller,
) -> Result<Reply, AllocError>
    requires may { MayBeginCall port back caller.old }
    requires clock { greatest_clock (turn tables.old caller.old) < CLOCK_LIMIT }
    ensures performed { IfOk result (λ reply. Performed (Command.Call port back body)
        (turn tables.old caller.old) (turn tables.new caller.new) reply) }
    ensures refused { OnErr result (turn tables.new caller.new ≡ turn tables.old caller.old) }
    ensures out { StaysOut tables.old.out tables.new.out }
    ensures kept { KeepsRoom tables.old tables.new }
{
    if let Some(number) = outstanding_number(caller) {
        refuse(tables, Act::Outstanding { number }, caller)?;
        return Ok(Reply::Outstanding { number });
    }
    begin_call(tables, port, back, body, caller)
}

/// Posts a request with the caller's next number, and makes it the outstanding call.
fn begin_call(
    tables: &mut Tables,
    port: Ui,
    back: Ui,
    body: Body,
    caller: &mut Caller,
) -> Result<Reply, AllocError>
    requires free { caller.old.client.outstanding ≡ None }
    requires may { MayBeginCall port back caller.old }
    requires clock { greatest_clock (turn tables.old caller.old) < CLOCK_LIMIT }
    ensures performed { IfOk result (λ reply. Performed (Command.Call port back body)
        (turn tables.old caller.old) (turn tables.new caller.new) reply) }
    ensures refused { OnErr result (turn tables.new caller.new ≡ turn tables.old caller.old) }
    ensures out { StaysOut tables.old.out tables.new.out }
    ensures kept { KeepsRoom tables.old tables.new }
{
    let number = caller.client().given() + 1;
    let carried = copied(&body)?;
    let ready = ready_post(tables, port, Tag::Request { number, back }, carried, caller)?;
    begin(caller, port, back, body);
    Ok(post_prepared(tables, ready, caller))
}

/// Posts the caller's outstanding call again, with the same number and body. `NoCall` where none is outstanding. Want of
/// memory changes nothing.
pub(crate) fn retry(tables: &mut Tables, caller: &mut Caller) -> Result<Reply, AllocError>
    requires posts { caller.old.posts < u32.MAX }
    requires clock { greatest_clock (turn tables.old caller.old) < CLOCK_LIMIT }
    ensures performed { IfOk result (λ reply. Performed Command.Retry
        (turn tables.old caller.old) (turn tables.new caller.new) reply) }
    ensures refused { OnErr result (turn tables.new caller.new ≡ turn tables.old caller.old) }
    ensures out { StaysOut tables.old.out tables.new.out }
    ensures kept { KeepsRoom tables.old tables.new }
{
    let Some(call) = caller.client().again() else {
        refuse(tables, Act::NoCall, caller)?;
        return Ok(Reply::NoCall);
    };
    let tag = Tag::Request {
        number: call.number,
        back: call.back,
    };
    let port = call.port;
    let body = copied(call.body)?;
    let ready = ready_post(tables, port, tag, body, caller)?;
    Ok(post_prepared(tables, ready, caller))
}

/// Ends the caller's outstanding call. `NoCall` where none is outstanding. Want of memory changes nothing.
pub(crate) fn cancel(tables: &mut Tables, caller: &mut Caller) -> Result<Reply, AllocError>
    requires clock { greatest_clock (turn tables.old caller.old) + 1 < 2 ^ 64 }
    ensures performed { IfOk result (λ reply. Performed Command.Cancel
        (turn tables.old caller.old) (turn tables.new caller.new) reply) }
    ensures refused { OnErr result (turn tables.new caller.new ≡ turn tables.old caller.old) }
    ensures out { StaysOut tables.old.out tables.new.out }
    ensures kept { KeepsRoom tables.old tables.new }
{
    tables.make_room(1, 0)?;
    let Some(number) = end_call(caller) else {
        tables.note(Act::NoCall, caller);
        return Ok(Reply::NoCall);
    };
    tables.note(Act::Cancel { number }, caller);
    Ok(Reply::Cancelled { number })
}

/// Replies to the request in the caller's hand, and empties the hand. `NoRequest` where the hand is empty. Want of memory
/// changes nothing.
pub(crate) fn send_reply(
    tables: &mut Tables,
    body: Body,
    caller: &mut Caller,
) -> Result<Reply, AllocError>
    requires posts { caller.old.posts < u32.MAX }
    requires clock { greatest_clock (turn tables.old caller.old) < CLOCK_LIMIT }
    ensures performed { IfOk result (λ reply. Performed (Command.Reply body)
        (turn tables.old caller.old) (turn tables.new caller.new) reply) }
    ensures refused { OnErr result (turn tables.new caller.new ≡ turn tables.old caller.old) }
    ensures out { StaysOut tables.old.out tables.new.out }
    ensures kept { KeepsRoom tables.old tables.new }
{
    let Some(hand) = caller.hand() else {
        refuse(tables, Act::NoRequest, caller)?;
        return Ok(Reply::NoRequest);
    };
    answer_request(tables, &hand, body, caller)
}

/// Posts a reply to the request in hand, and empties the hand.
fn answer_request(
    tables: &mut Tables,
    hand: &Hand,
    body: Body,
    caller: &mut Caller,
) -> Result<Reply, AllocError>
    requires may { MayReply hand.now caller.old }
    requires clock { greatest_clock (turn tables.old caller.old) < CLOCK_LIMIT }
    ensures performed { IfOk result (λ reply. Performed (Command.Reply body)
        (turn tables.old caller.old) (turn tables.new caller.new) reply) }
    ensures refused { OnErr result (turn tables.new caller.new ≡ turn tables.old caller.old) }
    ensures out { StaysOut tables.old.out tables.new.out }
    ensures kept { KeepsRoom tables.old tables.new }
{
    // That the body is within the limit is told by its bytes.
    let _bytes = body.bytes();
    let tag = Tag::Reply {
        client: hand.client,
        number: hand.number,
    };
    let ready = ready_post(tables, hand.back, tag, body, caller)?;
    caller.set_hand(None);
    Ok(post_prepared(tables, ready, caller))
}

/// The turn of a call, a retry or a reply that is refused: appends an entry that changes nothing else, in room that it takes.
/// Want of memory changes nothing.
fn refuse(tables: &mut Tables, act: Act, caller: &mut Caller) -> Result<(), AllocError>
    requires plain { is_plain act ≡ true }
    requires clock { greatest_clock (turn tables.old caller.old) + 1 < 2 ^ 64 }
    ensures ok { OnOk result (turn tables.new caller.new ≡
        note act (turn tables.old caller.old)) }
    ensures refused { OnErr result (turn tables.new caller.new ≡ turn tables.old caller.old) }
    ensures out { StaysOut tables.old.out tables.new.out }
    ensures kept { KeepsRoom tables.old tables.new }
{
    tables.make_room(1, 0)?;
    tables.note(act, caller);
    Ok(())
}
