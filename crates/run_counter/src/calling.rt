//! Clients add, by calls that they make again.

ghost use Rattle.std.specs.Prelude.{◌≡◌, true, false};
ghost use Rattle.chorus_entry.specs.Command.{meets_conditions};
ghost use Rattle.chorus_sessions.specs.Sessions.{takes, IsSession};

use crate::giving::{give, go_round, take_one};
use chorus_entry::{Answer, Body, Command, MsgId};
use chorus_nucleus::Nucleus;
use chorus_place::Reply;
use chorus_sessions::{Pumped, Session};
use chorus_ui::Ui;
use law_machine::Outcome;
use std::alloc::Global;
use std::sync::Wait;
use std::thread;

/// How many rounds a client waits for a reply before it gives the call up.
const ROUNDS: u32 = 512;

/// What a client's calls are made with.
#[derive(Clone, Copy)]
pub(crate) struct Calls {
    pub(crate) alloc: Global,
    /// The counter: a port.
    pub(crate) counter: Ui,
    /// Where replies come.
    pub(crate) back: Ui,
}

/// What is told of the post of a call.
#[derive(Clone, Copy, PartialEq, Eq)]
enum Told {
    /// The counter has the call.
    There,
    /// It has not got this post: it overtook the counter. The call may be made again.
    Again,
    /// It has not got it, and no more is learned of it.
    Refused,
}

/// What the verdict of a call's post means.
fn meaning(answer: Answer) -> Told {
    match answer {
        Answer::Accepted { .. } | Answer::Already => Told::There,
        Answer::Early { .. } => Told::Again,
        _ => Told::Refused,
    }
}

/// Waits for the verdict of the post of a call, and moves packets meanwhile.
fn verdict<R: Wait>(rt: &R, nucleus: &Nucleus, session: &mut Session, id: MsgId) -> Told
    requires { IsSession nucleus.now session.old }
    ensures { IsSession nucleus.now session.new }
{
    for _ in rt.forever() {
        match session.outcome(nucleus, id) {
            Ok(Outcome::Answer(answer)) => return meaning(answer),
            Ok(Outcome::Unknown) => return Told::Refused,
            _ => {}
        }
        if session.pump(rt, nucleus) == Pumped::Stuck {
            return Told::Refused;
        }
        thread::yield_now();
    }
    Told::Refused
}

/// Makes a call, or makes it again, and waits for the verdict of that post.
fn post<R: Wait>(rt: &R, nucleus: &Nucleus, session: &mut Session, command: &Command) -> Told
    requires session { IsSession nucleus.now session.old }
    requires conditions { meets_conditions command.now ≡ true }
    requires no_take { takes command.now ≡ false }
    ensures { IsSession nucleus.now session.new }
{
    match give(rt, nucleus, session, command) {
        Some(Reply::Accepted { .. }) | Some(Reply::Already(_)) => Told::There,
        Some(Reply::Posted(id)) => verdict(rt, nucleus, session, id),
        Some(Reply::Early { .. }) => Told::Again,
        _ => Told::Refused,
    }
}

/// Makes the call, and makes it again as long as it overtook the counter.
fn call<R: Wait>(rt: &R, nucleus: &Nucleus, session: &mut Session, calls: &Calls)
    requires { IsSession nucleus.now session.old }
    ensures { IsSession nucleus.now session.new }
{
    let Ok(body) = Body::new(calls.alloc, b"add") else {
        return;
    };
    let command = Command::Call {
        port: calls.counter,
        back: calls.back,
        body,
    };
    if !command.meets_conditions() {
        return;
    }
    let mut told = post(rt, nucleus, session, &command);
    for _ in rt.forever() {
        if told != Told::Again {
            return;
        }
        session.pump(rt, nucleus);
        told = post(rt, nucleus, session, &Command::Retry);
    }
}

/// Waits for a reply, a number of rounds, and moves packets meanwhile. False where none came.
fn await_reply<R: Wait>(rt: &R, nucleus: &Nucleus, session: &mut Session, back: Ui) -> bool
    requires { IsSession nucleus.now session.old }
    ensures { IsSession nucleus.now session.new }
{
    for round in 0..ROUNDS {
        if go_round(rt, nucleus, session, round) && take_one(nucleus, session, back) {
            return true;
        }
    }
    false
}

/// Adds one: makes a call until the counter has it, makes it once more, and waits for the reply. A call that got none is given up.
pub(crate) fn add_one<R: Wait>(rt: &R, nucleus: &Nucleus, session: &mut Session, calls: &Calls)
    requires { IsSession nucleus.now session.old }
    ensures { IsSession nucleus.now session.new }
{
    call(rt, nucleus, session, calls);
    give(rt, nucleus, session, &Command::Retry);
    if !await_reply(rt, nucleus, session, calls.back) {
        give(rt, nucleus, session, &Command::Cancel);
    }
}
