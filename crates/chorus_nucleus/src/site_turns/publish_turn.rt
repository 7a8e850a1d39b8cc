//! A place publishes what its board lacks, in one turn.
ghost use Rattle.std.specs.Prelude.{◌≡◌, IfSome, OnOk, All};
ghost use Rattle.chorus_entry.specs.declared.entry.Entry.{Entry};
ghost use Rattle.chorus_ui.specs.Layout.{IsLayout};
ghost use Rattle.chorus_board.specs.Boards.{book_of, entries_published, IsReaderOf};
ghost use Rattle.place_publish.specs.Publishing.{IsBoardAt};
ghost use Rattle.chorus_nucleus.specs.SiteTurns.Reading.{Follows};

use crate::site_turns::site::Site;
use chorus_board::{Board, BoardReader};
use chorus_ends::Ends;
use chorus_entry::Entry;
use chorus_turn::Job;
use chorus_ui::Layout;
use place_publish::publish_missing;
use std::alloc::AllocError;
use std::sync::Wait;

/// Publishes what the board lacks. The reader, if there is one, is heard before, and follows.
#[derive(Drop)]
pub struct Publishes<'a, R> {
    /// The leave to wait.
    pub rt: &'a R,
    /// A reader of this board, if there is one.
    pub reader: Option<BoardReader>,
    /// The clock of the place's last entry, as the job found it; 0 before it ran.
    pub clock: u64,
}

/// Publishes, in a turn, what the board lacks of its place's journal. The reader, if there is one, is heard before, and follows.
pub(crate) fn publish_for<R: Wait>(
    rt: &R,
    board: &mut Board,
    layout: Layout,
    number: u16,
    journal: &[Entry],
    reader: &mut Option<BoardReader>,
) -> Result<(), AllocError>
    requires layout { IsLayout layout }
    requires board { IsBoardAt layout number journal.now board.old }
    requires own { All (λ (e : Entry). e.place ≡ number) journal.now }
    requires reader { IfSome reader.old (λ r. IsReaderOf board.old r) }
    ensures board { IsBoardAt layout number journal.now board.new }
    ensures published { OnOk result (entries_published board.new ≡ journal.now) }
    ensures book { book_of board.new ≡ book_of board.old }
    ensures follows { Follows reader.old reader.new journal.now result }
{
    let Some(mut own) = reader.take() else {
        return publish_missing(rt, board, layout, number, journal);
    };
    board.hear(&mut own);
    let done = publish_missing(rt, board, layout, number, journal);
    if done.is_ok() {
        own.follow(board);
    }
    *reader = Some(own);
    done
}

impl<'a, R: Wait, E: Ends> Job<Site<E>> for Publishes<'a, R> {
    ghost use Rattle.std.specs.Prelude.{◌≡◌, [], OnOk};
    ghost use Rattle.chorus_board.specs.Boards.{entries_published};
    ghost use Rattle.chorus_world.specs.Places.{last_clock};
    ghost use Rattle.chorus_serve.specs.Desks.{seen};
    ghost use Rattle.chorus_nucleus.specs.SiteTurns.Sites.{entries};
    ghost use Rattle.chorus_nucleus.specs.SiteTurns.Reading.{Follows, AcceptsReader};

    type Out = Result<(), AllocError>;

    ghost accepts = { λ j m seat. AcceptsReader j.reader m };

    ghost ran = { λ j x seat k y out. Follows j.reader k.reader
        (entries (seen E.links E.packet x.desk)) out
        × OnOk out (entries_published y.board ≡ entries (seen E.links E.packet x.desk))
        × (y.desk ≡ x.desk)
        × (k.clock ≡ last_clock (seen E.links E.packet x.desk).place.journal) };

    ghost notes = { λ j k news. news ≡ [] };

    /// Publishes what the board lacks of the place's journal, in the turn.
    fn run(&mut self, state: &mut Site<E>, _seat: u32) -> Result<(), AllocError> {
        let place = state.desk.place();
        let layout = place.layout();
        let _sites = layout.sites();
        let number = place.number();
        self.clock = place.clock();
        publish_for(
            self.rt,
            &mut state.board,
            layout,
            number,
            place.journal(),
            &mut self.reader,
        )
    }
}
