//! How the places are taken apart.
ghost use Rattle.std.specs.Prelude.{◌≡◌, ◌≤◌, true, IfOk, IfErr};
ghost use Rattle.std.specs.Slots.{slots_items, slots_len, IsFull};
ghost use Rattle.std.specs.Vec.{vec_len, vec_capacity};
ghost use Rattle.chorus_turn.specs.Lists.{somes, AreFull};

use crate::job::Kept;
use crate::pass::Pass;
use crate::turns::Turns;
use crate::view::View;
use atomic_table::{Badge, Closed};
use std::alloc::Global;
use thiserror::Error;

/// Passes are out still: fewer have ended than numbers were drawn, the keeper's own apart.
#[derive(Clone, Copy, Debug, Error, PartialEq, Eq)]
#[error("of {made} passes {ended} have ended")]
pub struct PassesOut {
    /// How many numbers were drawn, the opening one included.
    pub made: u32,
    /// How many passes were retired into the keeper, also through others.
    pub ended: u32,
}

/// What is left of the pass that closed the places. It keeps, for contracts alone, what the pass knew, and shows that
/// these places were closed, since `Turns::close` alone makes one.
#[derive(Drop)]
pub struct Spent<R> {
    pub(crate) badge: Badge<View<R>>,
}

/// Takes the state of each place out of its slot in the closed table of turns.
fn unload<S>(closed: Closed<Option<S>, Global>, states: &mut Vec<S>)
    requires full { IsFull closed.slots × AreFull (slots_items closed.slots) }
    requires room { (slots_len closed.slots ≤ vec_capacity states.old) × (vec_len states.old ≡ 0) }
    ensures { somes states.new.items ≡ slots_items closed.slots }
{
    let mut closed = closed;
    let mut i = 0;
    while i < closed.slot_count() {
        match closed.take(i) {
            Some(state) => match states.push(state) {
                Ok(()) => {}
                Err(_) => unreachable!(),
            },
            None => unreachable!(),
        }
        i += 1;
    }
    closed.free();
}

impl<S: Kept> Turns<S> {
    ghost use Rattle.chorus_turn.specs.Passes.{known, handed, IsPassOf, IsLeftOf};
    ghost use Rattle.chorus_turn.specs.Calls.{AreOut, Finished};

    /// Ends the places, once every other pass was retired into the keeper, and gives the states in their order.
    ///
    /// `PassesOut` comes exactly where fewer passes have ended than were admitted; places and pass come back as they
    /// were.
    pub fn close(
        self,
        pass: Pass<S::Remark>,
    ) -> Result<(Vec<S>, Spent<S::Remark>), (Turns<S>, Pass<S::Remark>, PassesOut)>
        requires pass { IsPassOf self pass }
        requires keeper { (known pass).keeper ≡ true }
        ensures ok { IfOk result (λ c. IsLeftOf self pass c.1
            × Finished S.entries S.fits S.mark (handed self) c.0.items (known pass)) }
        ensures out { IfErr result (λ e. (e.0 ≡ self) × (e.1 ≡ pass)
            × AreOut (known pass) e.2.made e.2.ended) }
    {
        if pass.ended + 1 < pass.made {
            let out = PassesOut {
                made: pass.made,
                ended: pass.ended,
            };
            return Err((self, pass, out));
        }
        let Pass {
            badge,
            seat: _,
            ended: _,
            keeper: _,
            made: _,
        } = pass;
        let mut seat = badge.into_seat::<Option<S>>();
        let left = self.leave(&mut seat);
        let Turns { table, room } = self;
        let mut states = room.take();
        unload(table.close_with(seat), &mut states);
        let spent = Spent {
            badge: left.into_badge(),
        };
        Ok((states, spent))
    }
}
