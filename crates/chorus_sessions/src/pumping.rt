//! Sessions pump places, so that packets go on.

ghost use Rattle.std.specs.Prelude.{◌≡◌, ◌<◌, ◌+◌, true, None};
ghost use Rattle.chorus_ui.specs.Layout.{has_place, places};
ghost use Rattle.chorus_nucleus.specs.Passes.{known, layout_of, worn_by, IsPassOf};
ghost use Rattle.chorus_nucleus.specs.Rounds.{IsEven, IsRound};
ghost use Rattle.chorus_sessions.specs.Sessions.{hand_of, pass_of, Goes, IsSession};
ghost use Rattle.chorus_sessions.specs.Delivering.{IsServed, Pumps};

use crate::session::Session;
use chorus_nucleus::{CallFault, Nucleus, Pass};
use chorus_serve::Pump;
use std::sync::Wait;

/// What a round of pumps came to, one of each place.
#[derive(Clone, Copy, Debug, PartialEq, Eq)]
pub enum Pumped {
    /// A packet was worked off.
    Served,
    /// No packet was: none was there, or another session had its place.
    Nothing,
    /// No packet was, and a place can go no further: there is no memory, or its clock is worn.
    Stuck,
}

/// What pumps of all places found: whether one worked off a packet, whether one was refused for good, whether each was idle, and how
/// many packets were put and worked off.
#[derive(Clone, Copy)]
struct Sums {
    served: bool,
    refused: bool,
    idle: bool,
    put: u64,
    worked: u64,
}

impl Sums {
    /// What the round came to.
    fn told(self) -> Pumped {
        if self.served {
            Pumped::Served
        } else if self.refused {
            Pumped::Stuck
        } else {
            Pumped::Nothing
        }
    }

    /// Whether nothing is left after a round that found this.
    fn is_over(self) -> bool
        ensures { result ≡ true → (self.idle ≡ true) × (self.put ≡ self.worked) × (self.put < u64.MAX) }
    {
        self.idle && self.put == self.worked && self.put < u64::MAX
    }
}

/// Pumps the place behind this index for sessions, and counts what it told.
#[tactic(auto, using(crate::proofs::Delivering::delivering))]
fn visit<R: Wait>(rt: &R, nucleus: &Nucleus, pass: &mut Pass, index: u16, sums: &mut Sums)
    requires pass { IsPassOf nucleus.now pass.old }
    requires place { has_place (layout_of nucleus.now) (index + 1) ≡ true }
    requires so_far { sums.old.idle ≡ true →
        IsRound index sums.old.put sums.old.worked (known pass.old) }
    ensures goes { Goes nucleus.now pass.old pass.new }
    ensures served { IsServed nucleus.now pass.old pass.new }
    ensures round { sums.new.idle ≡ true →
        IsRound (index + 1) sums.new.put sums.new.worked (known pass.new) }
{
    match nucleus.serve(rt, pass, index + 1) {
        Ok(Pump::Idle { put, worked }) => {
            sums.put = sums.put.saturating_add(put);
            sums.worked = sums.worked.saturating_add(worked);
        }
        Ok(Pump::Served { .. }) => {
            sums.idle = false;
            sums.served = true;
        }
        Err(CallFault::Busy { .. }) => sums.idle = false,
        Err(_) => {
            sums.idle = false;
            sums.refused = true;
        }
    }
}

/// Pumps each place once, for sessions, and adds up what that found. A place that another pass has is left to that one.
#[tactic(auto, using(crate::proofs::Delivering::delivering))]
fn sum_all<R: Wait>(rt: &R, nucleus: &Nucleus, pass: &mut Pass) -> Sums
    requires { IsPassOf nucleus.now pass.old }
    ensures goes { Goes nucleus.now pass.old pass.new }
    ensures pumps { Pumps nucleus.now pass.old pass.new }
    ensures round { result.idle ≡ true →
        IsRound (places (layout_of nucleus.now)) result.put result.worked (known pass.new) }
{
    let mut sums = Sums {
        served: false,
        refused: false,
        idle: true,
        put: 0,
        worked: 0,
    };
    for index in 0..nucleus.layout().places() {
        visit(rt, nucleus, pass, index, &mut sums);
    }
    sums
}

impl Session {
    /// Pumps each place once for this session, so that packets go on, and tells whether one did. A place that another session has is
    /// left to that one.
    #[tactic(auto, using(crate::proofs::Steps::sessions))]
    pub fn pump<R: Wait>(&mut self, rt: &R, nucleus: &Nucleus) -> Pumped
        requires { IsSession nucleus.now self.old }
        ensures session { IsSession nucleus.now self.new }
        ensures pumps { Pumps nucleus.now (pass_of self.old) (pass_of self.new) }
        ensures kept { hand_of self.new ≡ hand_of self.old }
    {
        pump_all(rt, nucleus, &mut self.pass)
    }
}

/// Pumps each place once, for sessions. A place that another pass has is left to that one.
#[tactic(auto, using(crate::proofs::Delivering::delivering))]
pub(crate) fn pump_all<R: Wait>(rt: &R, nucleus: &Nucleus, pass: &mut Pass) -> Pumped
    requires { IsPassOf nucleus.now pass.old }
    ensures goes { Goes nucleus.now pass.old pass.new }
    ensures pumps { Pumps nucleus.now pass.old pass.new }
{
    sum_all(rt, nucleus, pass).told()
}

/// Pumps all places until nothing is left, or until a clock is worn: then each is idle, and they worked off as many packets as they
/// put. False where memory is wanting for that.
#[tactic(auto, using(crate::proofs::Delivering::delivering))]
pub(crate) fn settle<R: Wait>(rt: &R, nucleus: &Nucleus, pass: &mut Pass) -> bool
    requires { IsPassOf nucleus.now pass.old }
    ensures goes { Goes nucleus.now pass.old pass.new }
    ensures pumps { Pumps nucleus.now pass.old pass.new }
    ensures even { result ≡ true → worn_by pass.new ≡ None →
        IsEven (layout_of nucleus.now) (known pass.new) }
{
    for _ in rt.forever() {
        let sums = sum_all(rt, nucleus, pass);
        if pass.worn().is_some() {
            return true;
        }
        if sums.is_over() {
            return true;
        }
        if sums.told() == Pumped::Stuck {
            return false;
        }
    }
    false
}
