//! The name of a board, for contracts alone.
ghost use Rattle.std.specs.Prelude.{◌≡◌, ◌↔◌};
ghost use Rattle.logbook.specs.Pages.{Book};
ghost use Rattle.chorus_board.specs.Boards.{book_of, book_read, name_of, name_of_book, name_read};
ghost use Rattle.chorus_board.specs.declared.board.Board.{Board};
ghost use Rattle.chorus_board.specs.declared.reader.BoardReader.{BoardReader};

/// The name of a board: the numbers of its history, which no other board has. No value is ever made.
///
/// A board and its readers have it, as `name_of` and `name_read`, so that what is said of a state in a type of Rust, such as the mark
/// of a place, may say which board is its own.
pub struct BoardName {
    pub number: u64,
    pub log_name: u64,
    pub cells_name: u64,
}

/// The law of the names of boards: they are equal exactly where they are of one board.
pub fn names_tell_boards()
    ensures names { (x y : Book) → (name_of_book x ≡ name_of_book y) ↔ (x ≡ y) }
    // A reader has the board's name exactly where it is one of that board.
    ensures readers { (board : Board) (reader : BoardReader) →
        (name_read reader ≡ name_of board) ↔ (book_read reader ≡ book_of board) }
{}
