//! A caller's pass: its number, and what it knows of the places.
ghost use Rattle.std.specs.Prelude.{◌≡◌, ◌+◌, ◌≤◌, false, length};
ghost use Rattle.chorus_turn.specs.Knowing.{limit};
ghost use Rattle.chorus_turn.specs.Rule.{known_of, view_of, IsAtRest};

use crate::view::View;
use atomic_table::Badge;

/// The leave to take turns at the places of one table, with a number (a seat) of its own.
///
/// A pass ends by `Turns::retire` or `Turns::close`; where one is dropped, the places can never be closed. What its caller knows stands
/// in contracts alone.
#[derive(Drop)]
pub struct Pass<R> {
    pub(crate) badge: Badge<View<R>>,
    pub(crate) seat: u32,
    pub(crate) ended: u32,
    pub(crate) keeper: bool,
    pub(crate) made: u32,
    ghost one: { length badge.views ≡ 1 },
    ghost rests: { IsAtRest (view_of badge) },
    ghost seated: { (known_of badge).seat ≡ seat },
    ghost noted: { length (known_of badge).notes ≡ ended },
    ghost kept: { (known_of badge).keeper ≡ keeper },
    ghost counted: { (known_of badge).made ≡ made },
    ghost few: { ended + 1 ≤ limit },
    ghost bounded: { made ≤ limit },
    ghost plain: { keeper ≡ false → made ≡ 0 },
}

impl<R> Pass<R> {
    ghost use Rattle.chorus_turn.specs.Passes.{known};

    /// The number of this pass of the turns, from 0. Its entries have it as their seat.
    pub fn seat(&self) -> u32
        ensures { result ≡ (known self.now).seat }
    {
        self.seat
    }

    /// The number of passes of the turns that were retired into this one, also through others.
    pub fn ended(&self) -> u32
        ensures { result ≡ length (known self.now).notes }
    {
        self.ended
    }

    /// Whether this is the one pass of the turns that draws numbers: the opening one, or one into which the keeper was retired.
    pub fn keeper(&self) -> bool
        ensures { result ≡ (known self.now).keeper }
    {
        self.keeper
    }

    /// For the keeper of the turns the count of numbers drawn, the opening one included, at most 1,048,576; 0 for any other pass.
    pub fn made(&self) -> u32
        ensures count { result ≡ (known self.now).made }
        ensures bounded { result ≤ limit }
        ensures plain { (known self.now).keeper ≡ false → result ≡ 0 }
    {
        self.made
    }
}
