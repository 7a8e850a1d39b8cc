//! Those who come to the counter, and what they do.

ghost use Rattle.chorus_sessions.specs.Sessions.{IsSession};

use crate::calling::{Calls, add_one};
use crate::serving::{serve, take_some};
use chorus_nucleus::Nucleus;
use chorus_sessions::{Behaviour, Session};
use chorus_ui::{Kind, Ui};
use std::alloc::Global;
use std::sync::Wait;

/// How many messages wait in the counter, at most.
pub(crate) const CAPACITY: u8 = 64;

/// What somebody does who comes to the counter.
#[derive(Clone, Copy)]
pub enum Role {
    /// Adds one so many times, by a call each, which it makes again and again. Its actor makes a port `back` for the replies.
    Client { back: Ui, adds: u8 },
    /// Takes calls while its actor holds the counter, tells each its number, and hands the counter on to the first actor of the
    /// site `next`.
    Server { next: u16 },
}

/// Somebody who comes to the counter: in which actor, and to do what.
#[derive(Clone, Copy)]
pub struct Comer {
    /// An actor of the layout.
    pub actor: Ui,
    /// What it does.
    pub role: Role,
}

/// The actor of this number on the site, for somebody who comes; None where there is no such name.
pub(crate) fn actor(site: u16, number: u64) -> Option<Ui> {
    Ui::new(site, Kind::Actor, number)
}

/// Somebody who came to this counter.
#[derive(Clone, Copy)]
pub(crate) struct Party {
    pub(crate) alloc: Global,
    pub(crate) comer: Comer,
    pub(crate) counter: Ui,
}

impl Behaviour for Party {
    ghost in_actor = { λ party. party.comer.actor };

    fn actor(&self) -> Ui {
        self.comer.actor
    }

    fn run<R: Wait>(&self, rt: &R, nucleus: &Nucleus, session: &mut Session) {
        match self.comer.role {
            Role::Client { back, adds } => {
                let calls = Calls {
                    alloc: self.alloc,
                    counter: self.counter,
                    back,
                };
                add_all(rt, nucleus, session, &calls, adds)
            }
            Role::Server { next } => serve(rt, nucleus, session, self.alloc, self.counter, next),
        }
    }

    /// The server whose actor holds the counter takes all that is left.
    fn finish(&self, nucleus: &Nucleus, session: &mut Session) {
        if let Role::Server { .. } = self.comer.role {
            take_some(nucleus, session, self.counter, CAPACITY);
        }
    }
}

/// Adds one so many times, as a client does.
fn add_all<R: Wait>(rt: &R, nucleus: &Nucleus, session: &mut Session, calls: &Calls, adds: u8)
    requires { IsSession nucleus.now session.old }
    ensures { IsSession nucleus.now session.new }
{
    for _ in 0..adds {
        add_one(rt, nucleus, session, calls);
    }
}
