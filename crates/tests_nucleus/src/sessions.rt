//! Sessions of a nucleus: what one calls that has a port of its own, and what it is handed out; and how sessions are refused.

use crate::ground::{actor_of, port_of};
use chorus_entry::{Answer, Command, MsgId};
use chorus_nucleus::Nucleus;
use chorus_sessions::{Behaviour, Finished, NewPort, Session, SessionsFault, run_sessions};
use chorus_ui::{Layout, Ui};
use law_machine::{Outcome, Reply};
use std::alloc::Global;
use std::process::Abort;
use std::sync::Wait;
use std::sync::atomic::{AtomicU32, Ordering};
use std::thread::Threads;

/// A session in this actor, which holds the port, and how many of its calls told what they are to tell.
#[derive(Drop)]
struct Holder {
    actor: Ui,
    port: Ui,
    right: AtomicU32,
}

impl Holder {
    /// Counts a call of the session that told what it is to tell.
    fn note(&self, is_right: bool) {
        if is_right {
            self.right.fetch_add(1, Ordering::SeqCst);
        }
    }
}

/// The id of the session's first message.
fn first_id() -> MsgId {
    MsgId {
        seat: 1,
        number: 1,
        copy: 0,
    }
}

impl Behaviour for Holder {
    ghost in_actor = { λ holder. holder.actor };

    fn actor(&self) -> Ui {
        self.actor
    }

    /// The session sends to its port, asks what became of that, gives a command that is refused, and takes the message.
    fn run<R: Wait>(&self, _rt: &R, nucleus: &Nucleus, session: &mut Session) {
        if !self.port.is_port() || session.posts() == u32::MAX {
            return;
        }
        let sent = session.send(nucleus, self.port, b"a");
        self.note(matches!(sent, Ok(Reply::Accepted { pos: 0, .. })));
        self.note(session.posts() == 1);
        let outcome = session.outcome(nucleus, first_id());
        self.note(outcome == Ok(Outcome::Answer(Answer::Accepted { pos: 0 })));
        let cancelled = session.act(nucleus, &Command::Cancel);
        self.note(matches!(cancelled, Ok(Reply::NoCall)));
        self.note(session.take(nucleus, self.port) == Ok(true));
        self.note(session.take(nucleus, self.port) == Ok(false));
        self.note(session.taken().len() == 1);
    }

    /// The session does nothing more.
    fn finish(&self, _nucleus: &Nucleus, _session: &mut Session) {}
}

/// Runs one session, in the first actor of the site, on a nucleus of one place, whose first actor holds a port with this room. Gives
/// what came of it, and how many calls told what they are to tell.
fn run_one<R: Abort + Threads + Wait + Sync>(
    rt: &R,
    alloc: Global,
    site: u16,
    capacity: u8,
) -> (Result<Finished, SessionsFault>, u32) {
    let layout = Layout::new(1, 1).expect(rt, "a layout");
    let holder = Holder {
        actor: actor_of(rt, site, 1),
        port: port_of(rt, 1, 1),
        right: AtomicU32::new(0),
    };
    let ports = [NewPort {
        actor: actor_of(rt, 1, 1),
        capacity,
    }];
    let sessions = [holder];
    let finished = run_sessions(alloc, rt, layout, &ports, &sessions);
    (finished, sessions[0].right.load(Ordering::SeqCst))
}

/// A session of a nucleus is told what its calls tell, and has in hand what it took.
#[test]
fn a_session_has_what_it_took(rt: HostRuntime) {
    let (finished, right) = run_one(&rt, rt.alloc(), 1, 2);
    let finished = finished.ok().expect(&rt, "memory");
    assert_eq!(rt; right, 7);
    assert!(rt; finished.hands.len() == 1 && finished.closed.rest.is_empty());
    let hand = &finished.hands[0];
    assert!(rt; hand.seat == 1 && hand.taken.len() == 1);
    let taken = &hand.taken[0];
    assert!(rt; taken.port == port_of(&rt, 1, 1) && taken.position == 0);
    assert!(rt; taken.message.id == first_id());
}

/// No session runs where a port has room for none or too many, and where a session comes in an actor that the layout has not.
#[test]
fn sessions_are_refused(rt: HostRuntime) {
    for (site, capacity, fault) in [
        (1, 0, SessionsFault::NoPort),
        (1, 65, SessionsFault::NoPort),
        (2, 2, SessionsFault::NoSession),
    ] {
        let (finished, right) = run_one(&rt, rt.alloc(), site, capacity);
        assert!(rt; finished.err() == Some(fault) && right == 0);
    }
}
