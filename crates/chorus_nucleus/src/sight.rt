//! What passes read boards with.
ghost use Rattle.std.specs.Prelude.{◌≤◌};
ghost use Rattle.chorus_nucleus.specs.Passes.{AreRoomy};
ghost use Rattle.chorus_nucleus.specs.Readers.{TakesReader, GivesReader};

use chorus_board::{BoardReader, READERS_PER_BOARD};

/// What a pass reads boards with.
#[derive(Drop)]
pub(crate) struct Sight {
    /// The reader of its home place's board, if it has one.
    pub(crate) reader: Option<BoardReader>,
    /// Of the keeper, by places, the readers that no pass uses, with room for all. Of any other pass, none.
    pub(crate) spare: Vec<Vec<BoardReader>>,
}

/// Takes a reader of the place's board for a pass, if there is one.
pub(crate) fn take_reader(spare: &mut Vec<Vec<BoardReader>>, place: u16) -> Option<BoardReader>
    requires { 1 ≤ place }
    ensures { TakesReader place spare.old.items spare.new.items result }
{
    match spare.get_mut(place as usize - 1) {
        Some(row) => row.pop(),
        None => None,
    }
}

/// Gives a pass's reader of the place's board back, where there is room for it.
pub(crate) fn give_reader(spare: &mut Vec<Vec<BoardReader>>, place: u16, reader: BoardReader)
    requires place { 1 ≤ place }
    requires room { AreRoomy spare.old.items }
    ensures { GivesReader place spare.old.items spare.new.items reader }
{
    let Some(row) = spare.get_mut(place as usize - 1) else {
        return;
    };
    if row.len() < READERS_PER_BOARD {
        row.push_reserved(reader);
    }
}
