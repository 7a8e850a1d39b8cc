//! A place of the nucleus is served, and then publishes.
ghost use Rattle.std.specs.Prelude.{◌≡◌, true, IfSome};
ghost use Rattle.chorus_ui.specs.Layout.{has_place};
ghost use Rattle.chorus_turn.specs.Passes as turns;
ghost use Rattle.chorus_turn.specs.Knowing.{IsSamePass};
ghost use Rattle.chorus_nucleus.specs.Passes.{layout_of, AreSites, IsCallerOf, IsPassOf, Reads};
ghost use Rattle.chorus_nucleus.specs.Pumping.{IsPump, PumpDone};

use crate::answers::answer_pump;
use crate::fault::CallFault;
use crate::nucleus::Nucleus;
use crate::pass::{Pass, note_worn, take_caller};
use crate::site_turns::{Pumps, Remark, Serves};
use chorus_board::BoardReader;
use chorus_calls::Caller;
use chorus_serve::Pump;
use chorus_turn::Pass as Turner;
use std::sync::Wait;

impl Nucleus {
    /// One turn that serves and then publishes, for this caller, with a reader of the place's board, if there is one.
    fn pump_with<R: Wait>(
        &self,
        rt: &R,
        turner: &mut Turner<Remark>,
        caller: Caller,
        place: u16,
        reader: Option<BoardReader>,
    ) -> (Caller, Option<BoardReader>, Result<Pump, CallFault>)
        requires turner { turns.IsPassOf self.now.turns turner.old }
        requires sites { AreSites self.now.layout (turns.handed self.now.turns) }
        requires place { has_place self.now.layout place ≡ true }
        requires reader { IfSome reader
            (λ r. Reads self.now.layout (turns.handed self.now.turns) place r) }
        requires caller { IsCallerOf self.now.layout (turns.known turner.old) caller }
        ensures turner { turns.IsPassOf self.now.turns turner.new }
        ensures standing { IsSamePass (turns.known turner.old) (turns.known turner.new) }
        ensures done { PumpDone self.now place reader result.1 result.2
            (turns.known turner.old) caller (turns.known turner.new) result.0 }
    {
        let mut job = Pumps {
            serves: Serves {
                rt,
                caller,
                took: None,
                before: None,
            },
            reader,
            published: Ok(()),
        };
        let done = self.turns.with(turner, place, &mut job);
        let Pumps {
            serves,
            reader,
            published,
        } = job;
        let Serves {
            rt: _,
            caller,
            took: _,
            before: _,
        } = serves;
        (caller, reader, answer_pump(done, published))
    }

    /// Serves the links of a place, as [`serve`](Nucleus::serve) does, and then publishes what its board lacks, as
    /// [`publish`](Nucleus::publish) does, all in one turn: also where it is idle. Who needs no board has `serve`, which costs no publish.
    ///
    /// The faults are those of the serving, which leave what they leave there, and publish nothing. And `Memory` where publishing found
    /// none: then the place was served, and the next publish goes on there.
    pub fn pump<R: Wait>(&self, rt: &R, pass: &mut Pass, place: u16) -> Result<Pump, CallFault>
        requires pass { IsPassOf self.now pass.old }
        requires place { has_place (layout_of self.now) place ≡ true }
        ensures { IsPump self.now place pass.old pass.new result }
    {
        let actor = pass.caller.actor();
        let home = self.layout.place_at(actor.site(), actor);
        let caller = take_caller(pass);
        if place == home {
            let own = pass.sight.reader.take();
            let (caller, reader, done) = self.pump_with(rt, &mut pass.turner, caller, place, own);
            pass.caller = caller;
            pass.sight.reader = reader;
            pass.worn = note_worn(pass.worn, &done);
            done
        } else {
            let (caller, _, done) = self.pump_with(rt, &mut pass.turner, caller, place, None);
            pass.caller = caller;
            pass.worn = note_worn(pass.worn, &done);
            done
        }
    }
}
