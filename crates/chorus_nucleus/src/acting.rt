//! A command's turn, and what became of a message.
ghost use Rattle.std.specs.Prelude.{◌≡◌, ◌<◌, true, if◌then◌else◌, ◌==◌};
ghost use Rattle.chorus_entry.specs.Command.{meets_conditions, has_body_in_limit, is_post};
ghost use Rattle.law_machine.specs.declared.outcome.Outcome.TheVariants.{Unknown};
ghost use Rattle.chorus_nucleus.specs.SiteTurns.Drafts.{meant};
ghost use Rattle.chorus_nucleus.specs.Passes.{caller_of, IsPassOf};
ghost use Rattle.chorus_nucleus.specs.Calls.{IsCall, IsOutcome};

use crate::answers::answer;
use crate::fault::CallFault;
use crate::nucleus::Nucleus;
use crate::pass::{Pass, note_worn, take_caller};
use crate::site_turns::{Acts, Asks, Draft};
use chorus_entry::{Command, Dest, MsgId};
use chorus_place::Reply;
use law_bounds::are_within;
use law_machine::Outcome;

/// What a seat of the nucleus is told of a message: of another seat's nothing.
fn told(seat: u32, id: MsgId, outcome: Outcome) -> Outcome
    ensures { result ≡ (if id.seat == seat then outcome else Unknown) }
{
    if id.seat == seat {
        outcome
    } else {
        Outcome::Unknown
    }
}

impl Nucleus {
    /// Performs the command in one turn at its place.
    pub(crate) fn perform(&self, pass: &mut Pass, draft: &Draft<'_>) -> Result<Reply, CallFault>
        requires pass { IsPassOf self.now pass.old }
        requires conditions { meets_conditions (meant draft.now) ≡ true }
        requires body { has_body_in_limit (meant draft.now) ≡ true }
        requires posts { is_post (meant draft.now) ≡ true → (caller_of pass.old).posts < u32.MAX }
        ensures { IsCall self.now (meant draft.now) pass.old pass.new result }
    {
        let place = draft.place(self.layout, pass.caller.actor());
        let caller = take_caller(pass);
        let mut job = Acts {
            caller,
            draft: draft.same(),
            alloc: self.alloc,
            took: None,
        };
        let done = self.turns.with(&mut pass.turner, place, &mut job);
        let Acts {
            caller,
            draft: _,
            alloc: _,
            took: _,
        } = job;
        pass.caller = caller;
        let result = answer(done);
        pass.worn = note_worn(pass.worn, &result);
        result
    }

    /// Performs a caller's command in one turn at its place, and gives the reply.
    ///
    /// It tries the place once. `Busy` comes exactly where that try found another pass there, and takes no memory. `Worn` tells the
    /// greater of the place's and the caller's last clocks, which is then at least 2^62; a call that is answered found it lower.
    /// `Memory` comes for want of memory for the command's copy or its turn. An error leaves the place as it was, and of the caller
    /// all but its last clock, which is then at least that of the place where it was looked at.
    pub fn act(&self, pass: &mut Pass, command: &Command) -> Result<Reply, CallFault>
        requires pass { IsPassOf self.now pass.old }
        requires conditions { meets_conditions command.now ≡ true }
        requires posts { is_post command.now ≡ true → (caller_of pass.old).posts < u32.MAX }
        ensures { IsCall self.now command.now pass.old pass.new result }
    {
        are_within(&pass.caller, command);
        let _seen: Option<Dest> = None; // the borrow checker looks for this type
        self.perform(pass, &Draft::whole(command))
    }

    /// What became of the message, which the caller posted itself: it looks at the journal of the caller's home place, in one turn.
    /// Another seat's id is `Unknown`. The only fault is `Busy`. Takes no memory. It reads that journal from end to end, and has the
    /// place meanwhile.
    pub fn outcome(&self, pass: &mut Pass, id: MsgId) -> Result<Outcome, CallFault>
        requires { IsPassOf self.now pass.old }
        ensures { IsOutcome self.now id pass.old pass.new result }
    {
        let actor = pass.caller.actor();
        let home = self.layout.place_at(actor.site(), actor);
        match self.turns.with(&mut pass.turner, home, &mut Asks { id }) {
            Ok((outcome, clock)) => {
                pass.caller.see(clock);
                Ok(told(pass.caller.seat(), id, outcome))
            }
            Err(busy) => Err(CallFault::Busy { by: busy.by }),
        }
    }
}
