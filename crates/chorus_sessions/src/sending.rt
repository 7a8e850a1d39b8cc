//! A message is sent until it is settled.

ghost use Rattle.std.specs.Prelude.{◌≡◌, ◌≤◌, true, length};
ghost use Rattle.chorus_ui.specs.declared.limits.TheConstants.{BODY_LIMIT};
ghost use Rattle.chorus_ui.specs.NameKind.{is_port};
ghost use Rattle.chorus_nucleus.specs.Passes.{IsPassOf};
ghost use Rattle.chorus_sessions.specs.Sessions.{taken_by, Goes, IsSession};
ghost use Rattle.chorus_sessions.specs.Delivering.{Delivers, DeliversAs};
ghost use Rattle.chorus_sessions.specs.Sending.{told_in, told_of, Hears, Awaits, Sends};

use crate::hand::PortMessage;
use crate::pumping::{Pumped, pump_all};
use crate::session::Session;
use chorus_entry::{Answer, Body, Dest, Message, MsgId, Tag};
use chorus_nucleus::{CallFault, Nucleus, Pass};
use chorus_ui::Ui;
use law_machine::{Outcome, Reply};
use std::sync::Wait;
use std::thread;

/// Which message a port accepted, and at which position.
#[derive(Clone, Copy, PartialEq, Eq)]
pub(crate) struct Accepted {
    pub(crate) id: MsgId,
    pub(crate) position: u64,
}

/// What is told of a message.
#[derive(Clone, Copy, PartialEq, Eq)]
pub(crate) enum Told {
    /// The port accepted it.
    Accepted(Accepted),
    /// It was not accepted, and never will be: it overtook the port, or another pass had the place. It may be sent
    /// again.
    Again,
    /// It was not accepted: there is no room, no such port, or no memory; or no more can be learned of it.
    Refused,
}

/// How many rounds of pumps may work off nothing before the verdict is asked for again: another session may have brought it.
const ROUNDS: u32 = 64;

/// What a reply means for a session that sends.
fn meaning(reply: Reply) -> Told
    ensures { result ≡ told_in reply }
{
    match reply {
        Reply::Accepted { msg, pos } => Told::Accepted(Accepted {
            id: msg,
            position: pos,
        }),
        Reply::Early { .. } => Told::Again,
        _ => Told::Refused,
    }
}

/// What a verdict on this message means for a session that sends, or that none was told.
fn meaning_later(id: MsgId, answer: Option<Answer>) -> Told
    ensures { result ≡ told_of id answer }
{
    match answer {
        Some(Answer::Accepted { pos }) => Told::Accepted(Accepted { id, position: pos }),
        Some(Answer::Early { .. }) => Told::Again,
        _ => Told::Refused,
    }
}

/// Asks, for a session that sends, what became of its message. Pending also where the place is busy.
#[tactic(auto, using(crate::proofs::Delivering::delivering))]
fn ask(nucleus: &Nucleus, pass: &mut Pass, id: MsgId) -> Outcome
    requires { IsPassOf nucleus.now pass.old }
    ensures goes { Goes nucleus.now pass.old pass.new }
    ensures hears { Hears nucleus.now id result pass.old pass.new }
{
    match nucleus.outcome(pass, id) {
        Ok(outcome) => outcome,
        Err(_) => Outcome::Pending,
    }
}

/// Asks for the verdict where it may have come: behind rounds of pumps of which the last worked off something, or at each 64th.
#[tactic(auto, using(crate::proofs::Delivering::delivering))]
fn ask_behind(nucleus: &Nucleus, pass: &mut Pass, id: MsgId, idle: u32) -> Outcome
    requires { IsPassOf nucleus.now pass.old }
    ensures goes { Goes nucleus.now pass.old pass.new }
    ensures hears { Hears nucleus.now id result pass.old pass.new }
{
    if idle % ROUNDS == 0 {
        ask(nucleus, pass, id)
    } else {
        Outcome::Pending
    }
}

/// Waits for the verdict of a message that a session posted, and moves packets meanwhile. None where no packet can be moved any more.
#[tactic(auto, using(crate::proofs::Delivering::delivering))]
fn verdict<R: Wait>(rt: &R, nucleus: &Nucleus, pass: &mut Pass, id: MsgId) -> Option<Answer>
    requires { IsPassOf nucleus.now pass.old }
    ensures goes { Goes nucleus.now pass.old pass.new }
    ensures told { Awaits nucleus.now id result pass.old pass.new }
{
    let mut idle: u32 = 0;
    for _ in rt.forever() {
        match ask_behind(nucleus, pass, id, idle) {
            Outcome::Answer(answer) => return Some(answer),
            Outcome::Unknown => return None,
            Outcome::Pending => {}
        }
        idle = match pump_all(rt, nucleus, pass) {
            Pumped::Served => 0,
            Pumped::Nothing => idle.wrapping_add(1),
            Pumped::Stuck => return None,
        };
        thread::yield_now();
    }
    None
}

/// Sends a session's message once.
#[tactic(auto, using(crate::proofs::Delivering::delivering))]
fn send_once<R: Wait>(rt: &R, nucleus: &Nucleus, pass: &mut Pass, port: Ui, body: &[u8]) -> Told
    requires pass { IsPassOf nucleus.now pass.old }
    requires port { is_port port ≡ true }
    requires body { length body.now ≤ BODY_LIMIT }
    ensures goes { Goes nucleus.now pass.old pass.new }
    ensures told { Sends nucleus.now port body.now result pass.old pass.new }
{
    if pass.posts() == u32::MAX {
        return Told::Refused;
    }
    match nucleus.send(pass, Dest::Port(port), body) {
        Ok(Reply::Posted(id)) => meaning_later(id, verdict(rt, nucleus, pass, id)),
        Ok(reply) => meaning(reply),
        Err(CallFault::Busy { .. }) => Told::Again,
        Err(_) => Told::Refused,
    }
}

/// Sends a session's message until the port accepted it, and moves packets in between: a port that is under way has to come. None
/// where it was refused for good.
#[tactic(auto, using(crate::proofs::Delivering::delivering))]
fn send_until_told<R: Wait>(
    rt: &R,
    nucleus: &Nucleus,
    pass: &mut Pass,
    port: Ui,
    body: &[u8],
) -> Option<Accepted>
    requires pass { IsPassOf nucleus.now pass.old }
    requires port { is_port port ≡ true }
    requires body { length body.now ≤ BODY_LIMIT }
    ensures goes { Goes nucleus.now pass.old pass.new }
    ensures delivers { DeliversAs nucleus.now port body.now result pass.old pass.new }
{
    for _ in rt.forever() {
        match send_once(rt, nucleus, pass, port, body) {
            Told::Accepted(accepted) => return Some(accepted),
            Told::Again => {
                if pump_all(rt, nucleus, pass) == Pumped::Stuck {
                    return None;
                }
                thread::yield_now();
            }
            Told::Refused => return None,
        }
    }
    None
}

impl Session {
    /// Sends a message with this body, at most 4,096 bytes, to the port, and waits for its verdict; meanwhile it moves
    /// packets, and looks at the outcome behind each round in which some moved. A message that overtook the port is sent
    /// again, as another message, and so is one that found its place busy. True where the port accepted it, and then it
    /// is the last of [`Session::delivered`]; false where it was refused, or the session has posted 2^32 - 1 messages,
    /// or there is no memory or a clock is worn: what was posted last may then still be accepted.
    #[tactic(auto, using(crate::proofs::Steps::sessions))]
    pub fn deliver<R: Wait>(&mut self, rt: &R, nucleus: &Nucleus, port: Ui, body: &[u8]) -> bool
        requires session { IsSession nucleus.now self.old }
        requires port { is_port port ≡ true }
        requires body { length body.now ≤ BODY_LIMIT }
        ensures session { IsSession nucleus.now self.new }
        ensures kept { taken_by self.new ≡ taken_by self.old }
        ensures delivers { Delivers nucleus.now port body.now result self.old self.new }
    {
        let Ok(()) = self.hand.delivered.reserve(1) else {
            return false;
        };
        let Ok(kept) = Body::new(self.alloc, body) else {
            return false;
        };
        match send_until_told(rt, nucleus, &mut self.pass, port, body) {
            Some(accepted) => {
                self.hand.delivered.push_reserved(PortMessage {
                    port,
                    position: accepted.position,
                    message: Message {
                        id: accepted.id,
                        tag: Tag::Plain,
                        body: kept,
                    },
                });
                true
            }
            None => false,
        }
    }
}
