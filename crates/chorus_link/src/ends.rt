//! The two ends of a link.
ghost use Rattle.std.specs.Prelude.{◌≡◌, true};
ghost use Rattle.std.specs.Arc.{arc_value};
ghost use Rattle.crossbeam_queue.specs.Passes.{view, IsPassOf};
ghost use Rattle.chorus_link.specs.Ties.{pass_of_prop};

use crate::rule::{Gets, InOrder, Log, Puts};
use crossbeam_queue::{Pass, RuledArrayQueue};
use std::alloc::Global;
use std::sync::{Arc, Wait};

/// The queue under the rule of a link, shared by the two ends.
pub(crate) type Line<P> = Arc<RuledArrayQueue<P, Log<P>, InOrder>, Global>;

/// The end of a link that puts packets.
///
/// A contract sees which link it is of, its `room`, all packets that were put (`packets_put`), as much of what was got as
/// this end knows (`known_got`), and the count of its `fulls`.
#[derive(Drop)]
pub struct SendEnd<P> {
    pub(crate) queue: Line<P>,
    pub(crate) pass: Pass<P, Log<P>>,
    pub(crate) fulls: u64,
    ghost of_queue: { IsPassOf (arc_value queue) pass } by { pass_of_prop (arc_value queue) pass },
    ghost puts: { (view pass).puts ≡ true },
}

/// The end of a link that gets packets.
///
/// A contract sees which link it is of, all packets that were got (`packets_got`), as much of what was put as this end
/// knows (`known_put`), and the count of its `empties`.
#[derive(Drop)]
pub struct RecvEnd<P> {
    pub(crate) queue: Line<P>,
    pub(crate) pass: Pass<P, Log<P>>,
    pub(crate) empties: u64,
    ghost of_queue: { IsPassOf (arc_value queue) pass } by { pass_of_prop (arc_value queue) pass },
    ghost gets: { (view pass).gets ≡ true },
}

impl<P: Drop> SendEnd<P> {
    ghost use Rattle.std.specs.Prelude.{◌≡◌, ◌+◌, [], ◌∷◌, ◌++◌, OnOk, OnErr, IfErr, MatchResult};
    ghost use Rattle.chorus_link.specs.Lists.{StartsWith};
    ghost use Rattle.chorus_link.specs.Ends.{packets_put, known_got, fulls_of, send_link, room, PutsNothing, WasFull};

    /// Puts a packet behind all that was put, in one operation of the queue.
    ///
    /// The packet comes back only where the link was full at a step of this call, and `fulls` rises by one. Such a call that
    /// finds the count at 2^64 - 1 tries again until there is room, so the count stands still there. Takes no memory.
    pub fn push<R: Wait>(&mut self, rt: &R, packet: P) -> Result<(), P>
        ensures link { (send_link self.new ≡ send_link self.old) × (room self.new ≡ room self.old) }
        ensures moved { OnOk result (packets_put self.new ≡ packets_put self.old ++ packet ∷ []) }
        ensures learned { OnOk result (StartsWith (known_got self.new) (known_got self.old)) }
        ensures back { IfErr result (λ x. x ≡ packet) }
        ensures unmoved { OnErr result (PutsNothing self.old self.new) }
        ensures counted { MatchResult result (λ _. fulls_of self.new ≡ fulls_of self.old)
            (λ _. fulls_of self.new ≡ fulls_of self.old + 1) }
        ensures full { OnErr result
            (WasFull (room self.old) (packets_put self.old) (known_got self.old)) }
    {
        let mut packet = packet;
        for _ in rt.forever() {
            match self.queue.push_as::<Puts, R>(rt, &mut self.pass, packet) {
                Ok(()) => return Ok(()),
                Err(back) => {
                    if self.fulls < u64::MAX {
                        self.fulls += 1;
                        return Err(back);
                    }
                    packet = back;
                }
            }
        }
        unreachable!()
    }

    /// How many packets came back because the link was full, up to 2^64 - 1.
    pub fn fulls(&self) -> u64
        ensures { result ≡ fulls_of self.now }
    {
        self.fulls
    }
}

impl<P: Drop> RecvEnd<P> {
    ghost use Rattle.std.specs.Prelude.{◌≡◌, ◌+◌, [], ◌∷◌, ◌++◌, IsTrue, cond, OnSome, IfSome, IfNone, MatchOption};
    ghost use Rattle.chorus_link.specs.Lists.{StartsWith};
    ghost use Rattle.chorus_link.specs.Ends.{packets_got, known_put, empties_of, recv_link, GetsNothing, WasEmpty};

    /// Looks once whether the link is empty, in fewer loads than a pop takes to find it so. Where it is, `empties` rises by one; where
    /// that count stands at 2^64 - 1, the answer is no. Takes no memory.
    #[tactic(auto, using(crate::proofs::Steps::steps))]
    pub fn finds_empty(&mut self) -> bool
        ensures link { recv_link self.new ≡ recv_link self.old }
        ensures unmoved { GetsNothing self.old self.new }
        ensures counted { empties_of self.new ≡ cond result (empties_of self.old + 1) (empties_of self.old) }
        ensures empty { IsTrue result → WasEmpty (packets_got self.old) (known_put self.old) }
    {
        if self.empties == u64::MAX || !self.queue.is_empty_as::<Gets>(&mut self.pass) {
            return false;
        }
        self.empties += 1;
        true
    }

    /// Gets the first packet that was put and not got, in one operation of the queue, behind a look whether it is empty.
    ///
    /// None comes only where the link was empty at a step of this call, and `empties` rises by one. Such a call that finds the
    /// count at 2^64 - 1 tries again until there is a packet, so the count stands still there. Takes no memory.
    #[tactic(auto, using(crate::proofs::Steps::steps))]
    pub fn pop<R: Wait>(&mut self, rt: &R) -> Option<P>
        ensures link { recv_link self.new ≡ recv_link self.old }
        ensures moved { IfSome result (λ x. packets_got self.new ≡ packets_got self.old ++ x ∷ []) }
        ensures learned { OnSome result (StartsWith (known_put self.new) (known_put self.old)) }
        ensures within { OnSome result (StartsWith (known_put self.new) (packets_got self.new)) }
        ensures unmoved { IfNone result (GetsNothing self.old self.new) }
        ensures counted { MatchOption result (empties_of self.new ≡ empties_of self.old + 1)
            (λ _. empties_of self.new ≡ empties_of self.old) }
        ensures empty { IfNone result (WasEmpty (packets_got self.old) (known_put self.old)) }
    {
        if self.finds_empty() {
            return None;
        }
        for _ in rt.forever() {
            match self.queue.pop_as::<Gets, R>(rt, &mut self.pass) {
                Some(packet) => return Some(packet),
                None => {
                    if self.empties < u64::MAX {
                        self.empties += 1;
                        return None;
                    }
                }
            }
        }
        unreachable!()
    }

    /// How often a look or a pop found the link empty, up to 2^64 - 1.
    pub fn empties(&self) -> u64
        ensures { result ≡ empties_of self.now }
    {
        self.empties
    }
}
