//! What is left of a link when its ends are taken together again.
ghost use Rattle.std.specs.Prelude.{◌≡◌, true};
ghost use Rattle.std.specs.Arc.{arc_value};
ghost use Rattle.crossbeam_queue.specs.Passes.{view, IsPassOf};
ghost use Rattle.chorus_link.specs.Ties.{pass_of_prop};

use crate::ends::Line;
use crate::rule::{Gets, Log};
use crossbeam_queue::Pass;
use std::sync::Wait;

/// The packets that were put and not got. A contract sees them as the list `packets_left`; those that are never asked for
/// are dropped with it.
#[derive(Drop)]
pub struct Rest<P> {
    pub(crate) queue: Line<P>,
    pub(crate) pass: Pass<P, Log<P>>,
    ghost of_queue: { IsPassOf (arc_value queue) pass } by { pass_of_prop (arc_value queue) pass },
    ghost puts: { (view pass).puts ≡ true },
    ghost gets: { (view pass).gets ≡ true },
}

impl<P: Drop> Rest<P> {
    ghost use Rattle.std.specs.Prelude.{◌≡◌, [], ◌∷◌, IfSome, IfNone};
    ghost use Rattle.chorus_link.specs.Ends.{packets_left};

    /// The next packet that is left, in order; None exactly where none is left. Takes no memory.
    #[tactic(auto, using(crate::proofs::Steps::steps))]
    pub fn next<R: Wait>(&mut self, rt: &R) -> Option<P>
        ensures first { IfSome result (λ x. packets_left self.old ≡ x ∷ packets_left self.new) }
        ensures none { IfNone result ((packets_left self.old ≡ []) × (packets_left self.new ≡ [])) }
    {
        self.queue.pop_as::<Gets, R>(rt, &mut self.pass)
    }
}
