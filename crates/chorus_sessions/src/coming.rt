//! Sessions come and go.

ghost use Rattle.std.specs.Prelude.{◌≡◌, ◌≤◌, true, [], length, map, reverse, IfOk};
ghost use Rattle.std.specs.Vec.{vec_capacity};
ghost use Rattle.chorus_nucleus.specs.Passes.{known, layout_of, IsPassOf};
ghost use Rattle.chorus_sessions.specs.Hands.{AreKept};
ghost use Rattle.chorus_nucleus.specs.Calls.{gave};
ghost use Rattle.chorus_sessions.specs.Playing.{left_by, HaveCome, IsNewSession};
ghost use Rattle.chorus_sessions.specs.Sessions.{hand_of, AreSessions, Draws, HasAllBack, IsKeeper, IsSession};

use crate::behaviour::Behaviour;
use crate::fault::SessionsFault;
use crate::hand::Hand;
use crate::session::Session;
use chorus_nucleus::{Nucleus, Pass};
use chorus_ui::Ui;
use std::alloc::Global;

/// A session comes in the actor.
#[tactic(auto, using(crate::proofs::Comings::comings))]
fn enter_one(
    alloc: Global,
    nucleus: &Nucleus,
    pass: &mut Pass,
    actor: Ui,
) -> Result<Session, SessionsFault>
    requires pass { IsPassOf nucleus.now pass.old }
    requires keeper { (known pass.old).keeper ≡ true }
    ensures pass { IsPassOf nucleus.now pass.new }
    ensures session { IfOk result (λ session. IsSession nucleus.now session) }
    ensures new { IfOk result (λ session. IsNewSession nucleus.now actor (known pass.old).made
        session) }
    ensures drawn { Draws result pass.old pass.new }
{
    if !actor.is_actor() {
        return Err(SessionsFault::NoSession);
    }
    let Ok(own) = nucleus.enter(pass, actor) else {
        return Err(SessionsFault::NoSession);
    };
    let seat = own.seat();
    Ok(Session {
        alloc,
        pass: own,
        hand: Hand {
            seat,
            taken: Vec::new(alloc),
            delivered: Vec::new(alloc),
        },
    })
}

/// A session comes for each behaviour, in their order, up to the first for which that fails. True where all came.
pub(crate) fn enter_all<B: Behaviour>(
    alloc: Global,
    nucleus: &Nucleus,
    pass: &mut Pass,
    behaviours: &[B],
    sessions: &mut Vec<Session>,
) -> bool
    requires pass { IsPassOf nucleus.now pass.old }
    requires keeper { IsKeeper 0 0 pass.old }
    requires room { (sessions.old.items ≡ [])
        × (length behaviours.now ≤ vec_capacity sessions.old) }
    ensures pass { IsPassOf nucleus.now pass.new }
    ensures keeper { IsKeeper (length sessions.new.items) 0 pass.new }
    ensures sessions { AreSessions nucleus.now sessions.new.items }
    ensures few { length sessions.new.items ≤ length behaviours.now }
    ensures gave { gave (known pass.new) ≡ gave (known pass.old) }
    ensures came { result ≡ true →
        HaveCome B.in_actor nucleus.now 1 behaviours.now sessions.new.items }
{
    for index in 0..behaviours.len() {
        let Ok(session) = enter_one(alloc, nucleus, pass, behaviours[index].actor()) else {
            return false;
        };
        sessions.push_reserved(session);
    }
    true
}

/// Retires the passes of the sessions, and keeps what each has in hand, that of the last session first.
pub(crate) fn retire_all(
    nucleus: &Nucleus,
    pass: &mut Pass,
    mut sessions: Vec<Session>,
    hands: &mut Vec<Hand>,
)
    requires pass { IsPassOf nucleus.now pass.old }
    requires keeper { IsKeeper (length sessions.items) 0 pass.old }
    requires sessions { AreSessions nucleus.now sessions.items }
    requires room { (hands.old.items ≡ [])
        × (length sessions.items ≤ vec_capacity hands.old) }
    ensures pass { IsPassOf nucleus.now pass.new }
    ensures back { HasAllBack pass.new }
    ensures kept { AreKept (layout_of nucleus.now) (known pass.new) (known pass.new).notes
        hands.new.items }
    ensures gave { gave (known pass.new) ≡ gave (known pass.old) }
    ensures hands { hands.new.items ≡ map hand_of (reverse sessions.items) }
    ensures notes { (known pass.new).notes ≡ map left_by (reverse sessions.items) }
{
    while let Some(session) = sessions.pop() {
        let Session {
            pass: own,
            hand,
            ..
        } = session;
        nucleus.retire(own, pass);
        hands.push_reserved(hand);
    }
}
