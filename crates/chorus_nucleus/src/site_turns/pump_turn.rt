//! A place serves its links and then publishes what its board lacks, in one turn.
ghost use Rattle.chorus_serve.specs.Desks.{seen};

use crate::site_turns::publish_turn::publish_for;
use crate::site_turns::serve_turn::Serves;
use crate::site_turns::site::Site;
use chorus_board::BoardReader;
use chorus_ends::Moves;
use chorus_place::PlaceFault;
use chorus_serve::Pump;
use chorus_turn::Job;
use std::alloc::AllocError;
use std::sync::Wait;

/// Serves the links of the place, for a caller, and then publishes what the board lacks. The reader, if there is one, is heard before,
/// and follows.
#[derive(Drop)]
pub struct Pumps<'a, R> {
    /// What serves.
    pub serves: Serves<'a, R>,
    /// A reader of this board, if there is one.
    pub reader: Option<BoardReader>,
    /// How publishing ended, where the place was served.
    pub published: Result<(), AllocError>,
}

impl<'a, R: Wait, E: Moves<R>> Job<Site<E>> for Pumps<'a, R> {
    ghost use Rattle.std.specs.Prelude.{◌≡◌};
    ghost use Rattle.chorus_nucleus.specs.SiteTurns.Sites.{entries};
    ghost use Rattle.chorus_nucleus.specs.SiteTurns.Turning.{NotesServe};
    ghost use Rattle.chorus_nucleus.specs.SiteTurns.Jobs.{ServedAt};
    ghost use Rattle.chorus_nucleus.specs.SiteTurns.Reading.{AcceptsReader, PublishedBehind};

    type Out = Result<Pump, PlaceFault>;

    ghost accepts = { λ j m seat. (j.serves.caller.seat ≡ seat) × AcceptsReader j.reader m };

    ghost ran = { λ j x seat k y out. ServedAt k.serves.took k.serves.before out j.serves.caller
        k.serves.caller (seen E.links E.packet x.desk) (seen E.links E.packet y.desk)
        × PublishedBehind j.reader k.reader k.published
        (entries (seen E.links E.packet y.desk)) y.board out };

    ghost notes = { λ j k news. NotesServe k.serves.took k.serves.before j.serves.caller
        k.serves.caller news };

    /// Serves the links of the place, and publishes what its board then lacks, in the turn.
    fn run(&mut self, state: &mut Site<E>, seat: u32) -> Result<Pump, PlaceFault> {
        let rt = self.serves.rt;
        let served = self.serves.run(state, seat)?;
        let place = state.desk.place();
        let layout = place.layout();
        let _sites = layout.sites();
        let number = place.number();
        self.published = publish_for(
            rt,
            &mut state.board,
            layout,
            number,
            place.journal(),
            &mut self.reader,
        );
        Ok(served)
    }
}
