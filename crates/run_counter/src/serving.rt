//! Servers take calls, tell each its number, and hand the counter on.

ghost use Rattle.chorus_sessions.specs.Sessions.{IsSession};

use crate::giving::{give, go_round, take_one};
use chorus_entry::{Body, Command};
use chorus_nucleus::Nucleus;
use chorus_sessions::Session;
use chorus_ui::{Kind, Ui};
use std::alloc::Global;
use std::sync::Wait;

/// How many rounds a server works before it goes home.
const ROUNDS: u32 = 4_096;

/// How many calls a server takes before it hands the counter on.
const BATCH: u8 = 2;

/// Serves: takes some calls, tells each its number, hands the counter on where there were some, moves packets, and so on, a number of
/// rounds.
pub(crate) fn serve<R: Wait>(
    rt: &R,
    nucleus: &Nucleus,
    session: &mut Session,
    alloc: Global,
    counter: Ui,
    next: u16,
)
    requires { IsSession nucleus.now session.old }
    ensures { IsSession nucleus.now session.new }
{
    for round in 0..ROUNDS {
        if go_round(rt, nucleus, session, round)
            && serve_some(rt, nucleus, session, alloc, counter)
        {
            hand_on(rt, nucleus, session, counter, next);
        }
    }
}

/// Takes some calls, where they wait and the session's actor holds the counter, and replies to each. False where there was none.
fn serve_some<R: Wait>(
    rt: &R,
    nucleus: &Nucleus,
    session: &mut Session,
    alloc: Global,
    counter: Ui,
) -> bool
    requires { IsSession nucleus.now session.old }
    ensures { IsSession nucleus.now session.new }
{
    for index in 0..BATCH {
        if !take_one(nucleus, session, counter) {
            return index > 0;
        }
        reply(rt, nucleus, session, alloc);
    }
    true
}

/// Replies to the message that was taken last: with its number, 1 more than its position in the counter.
fn reply<R: Wait>(rt: &R, nucleus: &Nucleus, session: &mut Session, alloc: Global)
    requires { IsSession nucleus.now session.old }
    ensures { IsSession nucleus.now session.new }
{
    let number = last_number(session);
    let Ok(body) = Body::new(alloc, &number.to_be_bytes()) else {
        return;
    };
    give(rt, nucleus, session, &Command::Reply { body });
}

/// The number of the message that was taken last, which is 1 more than its position.
fn last_number(session: &Session) -> u64 {
    match session.taken().last() {
        Some(got) => got.position.saturating_add(1),
        None => 0,
    }
}

/// Takes messages, this many at most, as long as the session's actor holds the counter, and messages wait there.
pub(crate) fn take_some(nucleus: &Nucleus, session: &mut Session, counter: Ui, most: u8)
    requires { IsSession nucleus.now session.old }
    ensures { IsSession nucleus.now session.new }
{
    for _ in 0..most {
        if !take_one(nucleus, session, counter) {
            return;
        }
    }
}

/// Moves the counter to the first actor of the site, where the session's own actor holds it. Else nothing changes.
fn hand_on<R: Wait>(rt: &R, nucleus: &Nucleus, session: &mut Session, counter: Ui, next: u16)
    requires { IsSession nucleus.now session.old }
    ensures { IsSession nucleus.now session.new }
{
    let Some(actor) = Ui::new(next, Kind::Actor, 1) else {
        return;
    };
    let command = Command::Move {
        port: counter,
        actor,
    };
    if command.meets_conditions() {
        give(rt, nucleus, session, &command);
    }
}
