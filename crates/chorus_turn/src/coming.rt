//! How passes come and go.
ghost use Rattle.std.specs.Prelude.{◌≡◌, ◌≢◌, true, IfOk, IfErr, IsOk, ◌↔◌};
ghost use Rattle.chorus_turn.specs.Lists.{StartsWithBoth};
ghost use Rattle.chorus_turn.specs.Knowing.{limit, after_draw, newcomer, after_retirement, Inherits, IsSameKeeper};

use crate::job::Kept;
use crate::pass::Pass;
use crate::turns::Turns;
use atomic_table::Badge;
use chorus_ui::SEATS_LIMIT;
use std::mem;
use thiserror::Error;

/// All 1,048,576 numbers are drawn.
#[derive(Clone, Copy, Debug, Error, PartialEq, Eq)]
#[error("all {made} numbers are drawn")]
pub struct NoSeat {
    /// How many numbers were drawn: 1,048,576.
    pub made: u32,
}

impl<S: Kept> Turns<S> {
    ghost use Rattle.chorus_turn.specs.Passes.{known, IsPassOf};

    /// A new pass with the next number, which has seen what the keeper has seen.
    ///
    /// `NoSeat` comes exactly where the keeper has drawn 1,048,576 numbers, and leaves it as it was.
    pub fn admit(&self, pass: &mut Pass<S::Remark>) -> Result<Pass<S::Remark>, NoSeat>
        requires pass { IsPassOf self.now pass.old }
        requires keeper { (known pass.old).keeper ≡ true }
        ensures pass { IsPassOf self.now pass.new }
        ensures standing { IsSameKeeper (known pass.old) (known pass.new) }
        ensures ok { IfOk result (λ p. IsPassOf self.now p × (known p ≡ newcomer (known pass.old))
            × (known pass.new ≡ after_draw (known pass.old))) }
        ensures full { IfErr result (λ n. (n.made ≡ limit) × (n.made ≡ (known pass.old).made)
            × (known pass.new ≡ known pass.old)) }
        ensures room { IsOk result ↔ ((known pass.old).made ≢ limit) }
    {
        let number = pass.made;
        if number == SEATS_LIMIT {
            return Err(NoSeat { made: number });
        }
        let mut seat = mem::replace(&mut pass.badge, Badge::blank()).into_seat::<Option<S>>();
        let new = self.draw(&mut seat, number);
        pass.badge = seat.into_badge();
        pass.made += 1;
        Ok(Pass {
            badge: new.into_badge(),
            seat: number,
            ended: 0,
            keeper: false,
            made: 0,
        })
    }

    /// Ends a pass: the other one takes over what it knew, and becomes the keeper where it was the keeper.
    pub fn retire(&self, pass: Pass<S::Remark>, into: &mut Pass<S::Remark>)
        requires pass { IsPassOf self.now pass }
        requires into { IsPassOf self.now into.old }
        ensures into { IsPassOf self.now into.new }
        ensures standing { Inherits (known into.old) (known pass) (known into.new) }
        ensures knows { known into.new ≡ after_retirement (known into.old) (known pass) }
        ensures sees { StartsWithBoth (known into.new).seen
            (known into.old).seen (known pass).seen }
    {
        let Pass {
            badge,
            seat: _,
            ended,
            keeper,
            made,
        } = pass;
        let mut seat = mem::replace(&mut into.badge, Badge::blank()).into_seat::<Option<S>>();
        self.merge(&mut seat, badge.into_seat::<Option<S>>());
        into.badge = seat.into_badge();
        into.ended += ended + 1;
        if keeper {
            into.keeper = true;
            into.made = made;
        }
    }
}
