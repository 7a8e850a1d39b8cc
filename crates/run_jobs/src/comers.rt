//! Those who come to the queue, and what they do.

ghost use Rattle.std.specs.Prelude.{◌≡◌, true};
ghost use Rattle.chorus_ui.specs.NameKind.{is_port};
ghost use Rattle.chorus_sessions.specs.Sessions.{IsSession};

use chorus_nucleus::Nucleus;
use chorus_sessions::{Behaviour, Session};
use chorus_ui::{Kind, Ui};
use std::sync::Wait;
use std::thread;

/// How many jobs wait in the queue, at most.
pub(crate) const CAPACITY: u8 = 64;

/// How often a worker looks for jobs before it goes home.
const ROUNDS: u32 = 64;

/// How many jobs a worker takes before it hands the queue on.
const BATCH: u8 = 2;

/// What somebody does who comes to the queue.
#[derive(Clone, Copy)]
pub enum Role {
    /// Sends so many jobs, whose bodies are this name and a number, from 0.
    Client { name: u8, jobs: u8 },
    /// Takes jobs while its actor holds the queue, and hands the queue on to the first actor of the site `next`.
    Worker { next: u16 },
}

/// Somebody who comes to the queue: in which actor, and to do what.
#[derive(Clone, Copy)]
pub struct Comer {
    /// An actor of the layout.
    pub actor: Ui,
    /// What it does.
    pub role: Role,
}

/// The actor of this number on the site, for somebody who comes; None where there is no such name.
pub(crate) fn actor(site: u16, number: u64) -> Option<Ui> {
    Ui::new(site, Kind::Actor, number)
}

/// Somebody who came to this queue.
#[derive(Clone, Copy)]
pub(crate) struct Party {
    pub(crate) comer: Comer,
    pub(crate) queue: Ui,
}

impl Behaviour for Party {
    ghost in_actor = { λ party. party.comer.actor };

    fn actor(&self) -> Ui {
        self.comer.actor
    }

    fn run<R: Wait>(&self, rt: &R, nucleus: &Nucleus, session: &mut Session) {
        if !self.queue.is_port() {
            return;
        }
        match self.comer.role {
            Role::Client { name, jobs } => {
                send_jobs(rt, nucleus, session, self.queue, name, jobs)
            }
            Role::Worker { next } => work(rt, nucleus, session, self.queue, next),
        }
    }

    /// The worker whose actor holds the queue takes all that is left.
    fn finish(&self, nucleus: &Nucleus, session: &mut Session) {
        if let Role::Worker { .. } = self.comer.role {
            take_some(nucleus, session, self.queue, CAPACITY);
        }
    }
}

/// Sends so many jobs with this name to the queue, as a client does.
fn send_jobs<R: Wait>(
    rt: &R,
    nucleus: &Nucleus,
    session: &mut Session,
    queue: Ui,
    name: u8,
    jobs: u8,
)
    requires session { IsSession nucleus.now session.old }
    requires queue { is_port queue ≡ true }
    ensures { IsSession nucleus.now session.new }
{
    for number in 0..jobs {
        session.deliver(rt, nucleus, queue, &[name, number]);
    }
}

/// Works: takes some jobs, hands the queue on, moves packets, and so on, a number of rounds.
fn work<R: Wait>(rt: &R, nucleus: &Nucleus, session: &mut Session, queue: Ui, next: u16)
    requires { IsSession nucleus.now session.old }
    ensures { IsSession nucleus.now session.new }
{
    for _ in 0..ROUNDS {
        take_some(nucleus, session, queue, BATCH);
        hand_on(nucleus, session, queue, next);
        session.pump(rt, nucleus);
        thread::yield_now();
    }
}

/// Takes jobs, this many at most, as long as the session's actor holds the queue, and jobs wait there.
fn take_some(nucleus: &Nucleus, session: &mut Session, queue: Ui, most: u8)
    requires { IsSession nucleus.now session.old }
    ensures { IsSession nucleus.now session.new }
{
    if !queue.is_port() {
        return;
    }
    for _ in 0..most {
        if session.take(nucleus, queue) != Ok(true) {
            return;
        }
    }
}

/// Moves the queue to the first actor of the site, where the session's own actor holds it. Else nothing changes.
fn hand_on(nucleus: &Nucleus, session: &mut Session, queue: Ui, next: u16)
    requires { IsSession nucleus.now session.old }
    ensures { IsSession nucleus.now session.new }
{
    let Some(actor) = Ui::new(next, Kind::Actor, 1) else {
        return;
    };
    if queue.is_port() && actor.is_actor() {
        let _told = session.move_port(nucleus, queue, actor);
    }
}
