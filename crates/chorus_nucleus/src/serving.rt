//! A place of the nucleus is served.
ghost use Rattle.std.specs.Prelude.{◌≡◌, true};
ghost use Rattle.chorus_ui.specs.Layout.{has_place};
ghost use Rattle.chorus_nucleus.specs.Passes.{layout_of, IsPassOf};
ghost use Rattle.chorus_nucleus.specs.Calls.{IsServe};

use crate::answers::answer;
use crate::fault::CallFault;
use crate::nucleus::Nucleus;
use crate::pass::{Pass, note_worn, take_caller};
use crate::site_turns::Serves;
use chorus_serve::Pump;
use std::sync::Wait;

impl Nucleus {
    /// Serves the links of a place, in one turn: it sends what waits there, as far as the links have room, and works off the next
    /// packet that came, if there is one. It publishes nothing; [`pump`](Nucleus::pump) does that too.
    ///
    /// `Busy` as for a command. An error leaves the place's journal and tables as they were, and of the caller all but its last
    /// clock; at `Memory` and `Worn` packets may have been sent, and one taken into the hand.
    pub fn serve<R: Wait>(&self, rt: &R, pass: &mut Pass, place: u16) -> Result<Pump, CallFault>
        requires pass { IsPassOf self.now pass.old }
        requires place { has_place (layout_of self.now) place ≡ true }
        ensures { IsServe self.now place pass.old pass.new result }
    {
        let caller = take_caller(pass);
        let mut job = Serves {
            rt,
            caller,
            took: None,
            before: None,
        };
        let done = self.turns.with(&mut pass.turner, place, &mut job);
        let Serves {
            rt: _,
            caller,
            took: _,
            before: _,
        } = job;
        pass.caller = caller;
        let result = answer(done);
        pass.worn = note_worn(pass.worn, &result);
        result
    }
}
