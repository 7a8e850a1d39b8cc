//! How a board and its readers are made.
ghost use Rattle.std.specs.Prelude.{◌≡◌, ◌<◌, [], length, All, IfOk, IfSome};
ghost use Rattle.left_right.specs.Sides.{view};
ghost use Rattle.chorus_board.specs.Boards.{IsNewIn, IsNewBoard, IsReaderOf, IsSameBoard, book_of, shown, entries_begun};
ghost use Rattle.chorus_board.specs.Law.{head_of, entries_in, IsAuthor};
ghost use Rattle.chorus_hints.specs.Known.{nothing_known};
ghost use Rattle.chorus_board.specs.Table.{Fine};

use crate::board::{Board, show};
use crate::history::{Head, Witness, open_history};
use crate::reader::BoardReader;
use crate::rule::{TableReader, TableWriter, Tells};
use crate::table::Table;
use chorus_hints::Hints;
use chorus_ui::Layout;
use logbook::Pen;
use std::alloc::{AllocError, Global};
use std::sync::Wait;

/// The readers of a board.
pub const READERS_PER_BOARD: usize = 64;

/// A table of a new board, which stands for no entries.
#[tactic(auto, using(crate::proofs::Publishes::first_fine))]
fn blank(alloc: Global, layout: Layout, place: u16, front: &Witness) -> Result<Table, AllocError>
    requires { entries_in front.now.log ≡ [] }
    ensures table { IfOk result (λ t. t ≡ record {
      hints = nothing_known layout;
      place = place;
      upto = 0;
      clock = 0;
      seen = front.now;
    }) }
    ensures fine { IfOk result (λ t. Fine t) }
{
    Ok(Table {
        hints: Hints::with_room(alloc, layout)?,
        place,
        upto: 0,
        clock: 0,
        seen: front.again(),
    })
}

/// A reader of the copies of a board, which knows what the writer knows. There may be none.
fn handle_of(writer: &mut TableWriter) -> Option<TableReader>
    ensures handle { IfSome result (λ r. view r.place ≡ view writer.old.desk.place) }
    ensures shown { writer.new.desk.shown ≡ writer.old.desk.shown }
    ensures log { (writer.new.log ≡ writer.old.log) × (writer.new.behind ≡ writer.old.behind) }
    ensures view { view writer.new.desk.place ≡ view writer.old.desk.place }
{
    let mut handle = writer.factory().reader().ok()?;
    handle.learn::<Tells>(writer.tell::<Tells>());
    Some(handle)
}

/// The readers of a new board, without a handle, which have seen nothing.
fn readers_of(
    alloc: Global,
    layout: Layout,
    place: u16,
    front: &Witness,
) -> Result<Vec<BoardReader>, AllocError>
    requires { entries_in front.now.log ≡ [] }
    ensures count { IfOk result (λ v. length v.items ≡ READERS_PER_BOARD) }
    ensures new { IfOk result (λ v. All (IsNewIn front.now.book layout place) v.items) }
{
    let mut all = Vec::new(alloc);
    for _ in 0..READERS_PER_BOARD {
        let kept = blank(alloc, layout, place, front)?;
        all.push(new_reader(kept))?;
    }
    Ok(all)
}

/// A reader of a board that has no handle on its copies yet and answers from this table, which it keeps.
fn new_reader(kept: Table) -> BoardReader
    requires { Fine kept }
    ensures { result.kept ≡ kept }
{
    BoardReader { handle: None, kept }
}

impl Board {
    /// The board of a place, on which each port is at its creation place, and its 64 readers, which have seen nothing. Its writer is made
    /// last, when all other memory is taken. A reader to which no handle could be given answers from what it keeps.
    pub fn start<R: Wait>(
        alloc: Global,
        rt: &R,
        layout: Layout,
        place: u16,
    ) -> Result<(Board, Vec<BoardReader>), AllocError>
        ensures board { IfOk result (λ r. IsNewBoard layout place r.0) }
        ensures count { IfOk result (λ r. length r.1.items ≡ READERS_PER_BOARD) }
        ensures readers { IfOk result (λ r. All (IsNewIn (book_of r.0) layout place) r.1.items) }
    {
        let (head, front, author) = open_history()?;
        let mut all = readers_of(alloc, layout, place, &front)?;
        let mut board = Board::opened(alloc, rt, layout, place, (head, front, author))?;
        for reader in all.iter_mut() {
            board.attach(reader);
        }
        Ok((board, all))
    }

    /// A new board with no readers.
    fn opened<R: Wait>(
        alloc: Global,
        rt: &R,
        layout: Layout,
        place: u16,
        history: (Head, Witness, Pen),
    ) -> Result<Board, AllocError>
        requires head { history.0 ≡ head_of history.1.book }
        requires author { IsAuthor history.2.book history.2.nib history.1.book history.1.log }
        requires none { entries_in history.1.log ≡ [] }
        ensures board { IfOk result (λ b. IsNewBoard layout place b) }
        ensures book { IfOk result (λ b. book_of b ≡ history.1.book) }
    {
        let (head, front, author) = history;
        let first = blank(alloc, layout, place, &front)?;
        let second = blank(alloc, layout, place, &front)?;
        let writer = TableWriter::new(alloc, first, second, READERS_PER_BOARD)?;
        let (writer, _) = show(writer, rt);
        Ok(Board {
            writer,
            head,
            front,
            author,
        })
    }

    /// Gives a reader of a new board a handle, if there is one.
    fn attach(&mut self, reader: &mut BoardReader)
        requires { IsReaderOf self.old reader.old }
        ensures reader { reader.new.kept ≡ reader.old.kept }
        ensures board { IsSameBoard self.old self.new × (shown self.new ≡ shown self.old) }
        ensures begun { entries_begun self.new ≡ entries_begun self.old }
    {
        reader.handle = handle_of(&mut self.writer);
    }
}
