//! A take of a port that is made only where a message waits.
ghost use Rattle.std.specs.Prelude.{◌≡◌, true};
ghost use Rattle.chorus_ui.specs.NameKind.{is_port};
ghost use Rattle.chorus_nucleus.specs.Passes.{IsPassOf};
ghost use Rattle.chorus_nucleus.specs.Ready.{IsReadyTake};

use crate::answers::answer;
use crate::fault::CallFault;
use crate::nucleus::Nucleus;
use crate::pass::{Pass, note_worn, take_caller};
use crate::site_turns::{Acts, Draft, TakesReady};
use crate::taken_message::TakenMessage;
use chorus_entry::Command;
use chorus_ui::Ui;

impl Nucleus {
    /// Takes the first message of the port where the caller's actor holds it at the take's place and one waits, in one turn; else looks,
    /// and appends nothing. The faults are those of [`Nucleus::take`], but that a look compares no clock: a port that gives no message
    /// is told so where clocks are worn too.
    pub fn take_ready(&self, pass: &mut Pass, port: Ui) -> Result<Option<TakenMessage>, CallFault>
        requires pass { IsPassOf self.now pass.old }
        requires port { is_port port ≡ true }
        ensures { IsReadyTake self.now port result pass.old pass.new }
    {
        let command = Command::Take { port };
        let draft = Draft::whole(&command);
        let place = draft.place(self.layout, pass.caller.actor());
        let caller = take_caller(pass);
        let acts = Acts {
            caller,
            draft,
            alloc: self.alloc,
            took: None,
        };
        let mut job = TakesReady { acts, port };
        let done = self.turns.with(&mut pass.turner, place, &mut job);
        let TakesReady { acts, port: _ } = job;
        let Acts {
            caller,
            draft: _,
            alloc: _,
            took: _,
        } = acts;
        pass.caller = caller;
        let result = answer(done);
        pass.worn = note_worn(pass.worn, &result);
        result
    }
}
