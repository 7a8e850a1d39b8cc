//! Sessions are run.

ghost use Rattle.std.specs.Prelude.{◌≡◌, [], true, IfOk, None, OnOk, Some, slice_get};
ghost use Rattle.chorus_nucleus.specs.Calls.{gave};
ghost use Rattle.chorus_nucleus.specs.Passes.{known, layout_of, worn_by, IsPassOf};
ghost use Rattle.chorus_nucleus.specs.Rounds.{IsEven};
ghost use Rattle.chorus_nucleus.specs.Closing.{IsClosed};
ghost use Rattle.chorus_net.specs.Closing.{past_of};
ghost use Rattle.chorus_sessions.specs.Hands.{AreHandedOut, AreKept, WereDelivered};
ghost use Rattle.chorus_sessions.specs.Delivering.{Pumps};
ghost use Rattle.chorus_sessions.specs.Kept.{NoneIsLost};
ghost use Rattle.chorus_sessions.specs.Playing.{ended_by, HaveDone, HaveEnded, HasPlayed, HavePlayed, IsEmptied};
ghost use Rattle.chorus_sessions.specs.declared.running.Ending.TheVariants as Ending;
ghost use Rattle.chorus_sessions.specs.Sessions.{AreSessions, Goes, HasAllBack, HaveRun, IsKeeper, IsRunOf, IsSession};

use crate::behaviour::Behaviour;
use crate::coming::{enter_all, retire_all};
use crate::fault::SessionsFault;
use crate::hand::Hand;
use crate::pumping::settle;
use crate::session::Session;
use crate::setup::{NewPort, make_ports};
use chorus_net::Closed;
use chorus_nucleus::{CloseFault, Nucleus, Pass};
use chorus_ui::Layout;
use std::alloc::{AllocError, Global};
use std::sync::Wait;
use std::thread::{self, Threads};

/// How far sessions came.
#[derive(Clone, Copy, Debug, PartialEq, Eq)]
pub enum Ending {
    /// All ran and finished, and packets were moved until none was left or a clock was worn.
    Whole,
    /// All ran and finished. Then memory was wanting to move packets.
    Unmoved,
    /// All ran. Then memory was wanting to move packets, and none finished.
    Unfinished,
}

impl Ending {
    /// How far they came where packets were moved last, or memory was wanting for that.
    fn behind(self, is_settled: bool) -> Ending
        ensures { result ≡ ended_by self is_settled }
    {
        if self == Ending::Whole && !is_settled {
            Ending::Unmoved
        } else {
            self
        }
    }
}

/// What came of sessions.
#[derive(Drop)]
pub struct Finished {
    /// What each session has in hand, that of the last behaviour first.
    pub hands: Vec<Hand>,
    /// The journals of all places, and what is left: the messages that wait still.
    pub closed: Closed,
    /// How far the sessions came.
    pub ending: Ending,
}

/// All sessions run side by side, each in a thread of its own where one can be made.
fn run_all<R: Threads + Wait + Sync, B: Behaviour>(
    rt: &R,
    nucleus: &Nucleus,
    behaviours: &[B],
    sessions: &mut [Session],
)
    requires { AreSessions nucleus.now sessions.old }
    ensures run { HaveRun nucleus.now sessions.old sessions.new }
    ensures done { HaveDone B.ran nucleus.now behaviours.now sessions.old sessions.new }
{
    let threads = sessions.len();
    if threads > 0 {
        thread::for_each_mut(
            rt,
            sessions,
            threads,
            &|index: usize, session: &mut Session|
                requires { IsSession nucleus.now session.old }
                ensures { IsSession nucleus.entry.now session.exit.now
                    × ((b : B) → slice_get behaviours.entry.now index ≡ Some b →
                    B.ran b nucleus.entry.now session.entry.now session.exit.now) }
            { run_one(rt, nucleus, behaviours, index, session) },
        );
    }
}

/// One session runs.
fn run_one<R: Wait, B: Behaviour>(
    rt: &R,
    nucleus: &Nucleus,
    behaviours: &[B],
    index: usize,
    session: &mut Session,
)
    requires { IsSession nucleus.now session.old }
    ensures { IsSession nucleus.now session.new
        × ((b : B) → slice_get behaviours.now index ≡ Some b →
        B.ran b nucleus.now session.old session.new) }
{
    if let Some(behaviour) = behaviours.get(index) {
        behaviour.run(rt, nucleus, session);
    }
}

/// One session after the other finishes.
fn finish_all<R: Threads + Sync, B: Behaviour>(
    rt: &R,
    nucleus: &Nucleus,
    behaviours: &[B],
    sessions: &mut [Session],
)
    requires { AreSessions nucleus.now sessions.old }
    ensures run { HaveRun nucleus.now sessions.old sessions.new }
    ensures done { HaveDone B.finished nucleus.now behaviours.now sessions.old sessions.new }
{
    thread::for_each_mut(
        rt,
        sessions,
        1,
        &|index: usize, session: &mut Session|
            requires { IsSession nucleus.now session.old }
            ensures { IsSession nucleus.entry.now session.exit.now
                × ((b : B) → slice_get behaviours.entry.now index ≡ Some b →
                B.finished b nucleus.entry.now session.entry.now session.exit.now) }
        { finish_one(nucleus, behaviours, index, session) },
    );
}

/// One session finishes.
fn finish_one<B: Behaviour>(
    nucleus: &Nucleus,
    behaviours: &[B],
    index: usize,
    session: &mut Session,
)
    requires { IsSession nucleus.now session.old }
    ensures { IsSession nucleus.now session.new
        × ((b : B) → slice_get behaviours.now index ≡ Some b →
        B.finished b nucleus.now session.old session.new) }
{
    if let Some(behaviour) = behaviours.get(index) {
        behaviour.finish(nucleus, session);
    }
}

/// The sessions run, packets are moved until none is left or a clock is worn, and the sessions finish; all this where all came. Where
/// memory is wanting to move them, no session finishes.
fn run_to_the_end<R: Threads + Wait + Sync, B: Behaviour>(
    rt: &R,
    nucleus: &Nucleus,
    pass: &mut Pass,
    behaviours: &[B],
    sessions: &mut [Session],
    all_came: bool,
) -> Result<Ending, SessionsFault>
    requires pass { IsPassOf nucleus.now pass.old }
    requires sessions { AreSessions nucleus.now sessions.old }
    ensures pass { Goes nucleus.now pass.old pass.new }
    ensures pumps { Pumps nucleus.now pass.old pass.new }
    ensures sessions { HaveRun nucleus.now sessions.old sessions.new }
    ensures came { OnOk result (all_came ≡ true) }
    ensures done { IfOk result (λ ending. HaveEnded ending B.ran B.finished nucleus.now behaviours.now
        sessions.old sessions.new) }
{
    if !all_came {
        return Err(SessionsFault::NoSession);
    }
    run_all(rt, nucleus, behaviours, sessions);
    if !settle(rt, nucleus, pass) {
        return Ok(Ending::Unfinished);
    }
    finish_all(rt, nucleus, behaviours, sessions);
    Ok(Ending::Whole)
}

/// The ports are made; the sessions come, run, and go; and packets are moved until none is left or a clock is worn. Gives what they
/// have in hand.
fn play<R: Threads + Wait + Sync, B: Behaviour>(
    alloc: Global,
    rt: &R,
    nucleus: &Nucleus,
    pass: &mut Pass,
    ports: &[NewPort],
    behaviours: &[B],
) -> Result<(Vec<Hand>, Ending), SessionsFault>
    requires pass { IsPassOf nucleus.now pass.old }
    requires keeper { IsKeeper 0 0 pass.old }
    requires new { gave (known pass.old) ≡ [] }
    ensures pass { IsPassOf nucleus.now pass.new }
    ensures back { HasAllBack pass.new }
    ensures kept { IfOk result (λ r. AreKept (layout_of nucleus.now) (known pass.new)
        (known pass.new).notes r.0.items) }
    ensures played { IfOk result (λ r. HasPlayed B.in_actor B.ran B.finished nucleus.now ports.now
        behaviours.now r.0.items r.1 pass.old pass.new) }
    ensures even { IfOk result (λ r. r.1 ≡ Ending.Whole → worn_by pass.new ≡ None →
        IsEven (layout_of nucleus.now) (known pass.new)) }
{
    make_ports(nucleus, pass, ports)?;
    let mut hands = Vec::with_capacity(alloc, behaviours.len())?;
    let mut sessions = Vec::with_capacity(alloc, behaviours.len())?;
    let all_came = enter_all(alloc, nucleus, pass, behaviours, &mut sessions);
    let ran = run_to_the_end(rt, nucleus, pass, behaviours, &mut sessions, all_came);
    retire_all(nucleus, pass, sessions, &mut hands);
    let ending = ran?;
    let is_settled = settle(rt, nucleus, pass);
    Ok((hands, ending.behind(is_settled)))
}

/// Closes the nucleus of the sessions, whose other passes were all retired.
fn close<R: Wait>(rt: &R, nucleus: Nucleus, pass: Pass) -> Result<Closed, AllocError>
    requires pass { IsPassOf nucleus pass }
    requires back { HasAllBack pass }
    ensures { IfOk result (λ closed. IsClosed nucleus pass closed) }
{
    match nucleus.close(rt, pass) {
        Ok(closed) => Ok(closed),
        Err(CloseFault::Memory(none)) => Err(none),
        Err(CloseFault::PassesOut(..)) => unreachable!(),
    }
}

/// Runs sessions on a nucleus of this layout, one for each behaviour, in their order. The ports are made first. Then
/// the sessions come, each in its actor, and run, each in a thread of its own where one can be made. When all have run,
/// packets are moved until none is left or a clock is worn, and they finish, one after the other. Then packets are moved once more, and
/// the nucleus is closed. Where memory is wanting to move packets, `ending` tells how far the sessions came, and what they have in hand is given back.
///
/// `NoPort` comes where a port was not made, `NoSession` where a session did not come; no behaviour has run then. `Memory` comes also
/// behind behaviours that ran, where the nucleus cannot be closed for want of it: what was handed out is lost then. At the close it comes
/// in place of the other two.
pub fn run_sessions<R: Threads + Wait + Sync, B: Behaviour>(
    alloc: Global,
    rt: &R,
    layout: Layout,
    ports: &[NewPort],
    behaviours: &[B],
) -> Result<Finished, SessionsFault>
    ensures run { IfOk result (λ f. IsRunOf layout f.closed) }
    ensures hands { IfOk result (λ f. AreHandedOut (past_of f.closed) f.hands.items) }
    ensures kept { IfOk result (λ f. NoneIsLost layout f.closed f.hands.items) }
    ensures delivered { IfOk result (λ f. WereDelivered (past_of f.closed) f.hands.items) }
    ensures played { IfOk result (λ f. HavePlayed B.in_actor B.ran B.finished layout ports.now
        behaviours.now f.hands.items f.ending f.closed) }
    ensures left { IfOk result (λ f. f.ending ≡ Ending.Whole → IsEmptied f.closed) }
{
    let (nucleus, mut pass) = Nucleus::start(alloc, rt, layout)?;
    let hands = play(alloc, rt, &nucleus, &mut pass, ports, behaviours);
    let closed = close(rt, nucleus, pass)?;
    let (hands, ending) = hands?;
    Ok(Finished {
        hands,
        closed,
        ending,
    })
}
