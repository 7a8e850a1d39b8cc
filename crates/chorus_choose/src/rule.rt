//! The rule of a bell, for proofs alone: no value of these types is made.
ghost use Rattle.std.specs.Prelude.{◌≡◌, ◌+◌, ◌++◌, ◌∷◌, [], ℕ};
ghost use Rattle.chorus_choose.specs.BellRule.{counts, Rung};

use crossbeam_utils::rule::{Outcome, Protocol};
use std::collections::LinkedList;
use std::marker::{Brand, PhantomData};

/// How often one end of a bell rang, and of each of its waits how much the pass of the caller had made before it.
pub struct BellCounts {
    pub rings: u64,
    pub waits: LinkedList<u64>,
}

/// What was taken was put.
pub struct Tokens;

impl Protocol<bool, BellCounts> for Tokens {
    ghost use Rattle.std.specs.Prelude.{[]};

    ghost holds = { Rung };

    ghost first = { counts 0 [] };
}

/// A ring: the token is there.
pub struct Rings;

impl Outcome<bool, BellCounts> for Rings {
    ghost then = { λ v _ _ w. w ≡ counts (v.rings + 1) v.waits };
}

/// How much a pass has made. The proof of a call picks it.
pub trait Made {
    ghost made: { ℕ };
}

impl Made for Brand {
    ghost made = { 0 };
}

/// A wait: the token is taken, and how much had been made before is noted.
pub struct Waits<X> {
    made: PhantomData<X>,
}

impl<X: Made> Outcome<bool, BellCounts> for Waits<X> {
    ghost then = { λ v _ _ w. w ≡ counts v.rings (v.waits ++ (X.made ∷ [])) };
}
