//! What became of a message, asked in one turn.
ghost use Rattle.std.specs.Prelude.{◌≡◌, []};
ghost use Rattle.chorus_world.specs.Places.{last_clock};
ghost use Rattle.law_machine.specs.Outcomes.{outcome};

use crate::site_turns::site::Site;
use chorus_ends::Ends;
use chorus_entry::MsgId;
use chorus_turn::Job;
use law_machine::Outcome;

/// Asks the place's journal what became of the message.
#[derive(Clone, Copy, Drop)]
pub struct Asks {
    /// The message.
    pub id: MsgId,
}

impl<E: Ends> Job<Site<E>> for Asks {
    type Out = (Outcome, u64);

    ghost accepts = { λ j m seat. Unit {0} };

    ghost ran = { λ j x seat k y out. (out.0 ≡ outcome j.id x.desk.place.journal)
        × (out.1 ≡ last_clock x.desk.place.journal) × (y ≡ x) };

    ghost notes = { λ j k news. news ≡ [] };

    /// Tells what became of the message, by the journal of the place, and the clock of its last entry.
    fn run(&mut self, state: &mut Site<E>, _seat: u32) -> (Outcome, u64) {
        let place = state.desk.place();
        (place.outcome(self.id), place.clock())
    }
}
