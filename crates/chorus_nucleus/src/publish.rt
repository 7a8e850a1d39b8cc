//! A place of the nucleus publishes.
ghost use Rattle.std.specs.Prelude.{◌≡◌, true, IfSome};
ghost use Rattle.chorus_ui.specs.Layout.{has_place};
ghost use Rattle.chorus_turn.specs.Passes as turns;
ghost use Rattle.chorus_turn.specs.Knowing.{IsSamePass};
ghost use Rattle.chorus_nucleus.specs.Passes.{layout_of, AreSites, IsCallerOf, IsPassOf, Reads};
ghost use Rattle.chorus_nucleus.specs.Reading.{IsPublish, PublishDone};

use crate::answers::answer_publish;
use crate::fault::CallFault;
use crate::nucleus::Nucleus;
use crate::pass::Pass;
use crate::site_turns::{Publishes, Remark};
use chorus_board::BoardReader;
use chorus_calls::Caller;
use chorus_turn::Pass as Turner;
use std::sync::Wait;

impl Nucleus {
    /// One turn that publishes, with a reader of the place's board, if there is one.
    fn publish_with<R: Wait>(
        &self,
        rt: &R,
        turner: &mut Turner<Remark>,
        caller: &mut Caller,
        place: u16,
        reader: Option<BoardReader>,
    ) -> (Option<BoardReader>, Result<(), CallFault>)
        requires turner { turns.IsPassOf self.now.turns turner.old }
        requires sites { AreSites self.now.layout (turns.handed self.now.turns) }
        requires place { has_place self.now.layout place ≡ true }
        requires reader { IfSome reader
            (λ r. Reads self.now.layout (turns.handed self.now.turns) place r) }
        ensures turner { turns.IsPassOf self.now.turns turner.new }
        ensures standing { IsSamePass (turns.known turner.old) (turns.known turner.new) }
        ensures reader { IfSome result.0
            (λ r. Reads self.now.layout (turns.handed self.now.turns) place r) }
        ensures done { IsCallerOf self.now.layout (turns.known turner.old) caller.old →
            PublishDone self.now.layout (turns.handed self.now.turns) place reader result.0 result.1
            (turns.known turner.old) (turns.known turner.new) caller.old caller.new }
    {
        let mut job = Publishes {
            rt,
            reader,
            clock: 0,
        };
        let done = self.turns.with(turner, place, &mut job);
        let Publishes {
            rt: _,
            reader,
            clock,
        } = job;
        caller.see(clock);
        (reader, answer_publish(done))
    }

    /// Publishes what the place's board lacks of its journal, in one turn without an entry. At the caller's home place the pass's own
    /// reader has then seen the whole journal that this call found.
    ///
    /// The faults are `Busy`, and `Memory`, after which a beginning of what the board lacked is published.
    pub fn publish<R: Wait>(&self, rt: &R, pass: &mut Pass, place: u16) -> Result<(), CallFault>
        requires pass { IsPassOf self.now pass.old }
        requires place { has_place (layout_of self.now) place ≡ true }
        ensures { IsPublish self.now place pass.old pass.new result }
    {
        let actor = pass.caller.actor();
        if place == self.layout.place_at(actor.site(), actor) {
            let own = pass.sight.reader.take();
            let (reader, done) = self.publish_with(
                rt,
                &mut pass.turner,
                &mut pass.caller,
                place,
                own,
            );
            pass.sight.reader = reader;
            done
        } else {
            let (_, done) = self.publish_with(rt, &mut pass.turner, &mut pass.caller, place, None);
            done
        }
    }
}
