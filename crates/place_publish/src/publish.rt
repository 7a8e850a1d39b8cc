//! A place publishes what its board lacks.
ghost use Rattle.std.specs.Prelude.{◌≡◌, ◌+◌, ◌<◌, length, OnOk, IsOk, All};
ghost use mathlib.Core.List.{IsPrefix};
ghost use Rattle.chorus_entry.specs.declared.entry.Entry.{Entry};
ghost use Rattle.chorus_ui.specs.declared.kind.Kind.TheVariants.{Port};
ghost use Rattle.chorus_ui.specs.Layout.{IsLayout};
ghost use Rattle.chorus_board.specs.Boards.{entries_published, book_of};
ghost use Rattle.place_publish.specs.Publishing.{IsBoardAt, IsUpTo};

use crate::lesson::{Lesson, lesson_of};
use crate::one_publish::publish_first;
use chorus_board::Board;
use chorus_entry::Entry;
use chorus_ui::{Kind, Layout, Ui};
use std::alloc::AllocError;
use std::sync::Wait;

/// Publishes what the entry at `index` teaches, if it teaches anything.
fn publish_entry<R: Wait>(
    rt: &R,
    board: &mut Board,
    layout: Layout,
    number: u16,
    journal: &[Entry],
    index: usize,
) -> Result<(), AllocError>
    requires upto { IsUpTo layout number journal.now index board.old }
    requires within { index < length journal.now }
    requires own { All (λ (e : Entry). e.place ≡ number) journal.now }
    ensures board { IsBoardAt layout number journal.now board.new }
    ensures upto { OnOk result (IsUpTo layout number journal.now (index + 1) board.new) }
    ensures grows { IsPrefix (entries_published board.old) (entries_published board.new) }
    ensures book { book_of board.new ≡ book_of board.old }
{
    let Some(entry) = journal.get(index) else {
        unreachable!()
    };
    let _ = number;
    let Some(lesson) = lesson_of(layout, entry, journal, index) else {
        return Ok(());
    };
    publish_first(rt, board, lesson, journal, index + 1)
}

/// The lesson with which a place publishes that all entries are there: the first port of the layout, at hop 0, which teaches
/// nothing.
fn nothing() -> Lesson
    ensures hop { result.hop ≡ 0 }
    ensures ui { (result.ui.site ≡ 1) × (result.ui.number ≡ 1) × (result.ui.kind ≡ Port) }
{
    Lesson {
        ui: Ui::new(1, Kind::Port, 1).unwrap(),
        place: 1,
        hop: 0,
    }
}

/// Publishes that all entries are there, where that is not published.
fn publish_all<R: Wait>(
    rt: &R,
    board: &mut Board,
    layout: Layout,
    number: u16,
    journal: &[Entry],
) -> Result<(), AllocError>
    requires layout { IsLayout layout }
    requires upto { IsUpTo layout number journal.now (length journal.now) board.old }
    requires own { All (λ (e : Entry). e.place ≡ number) journal.now }
    ensures board { IsBoardAt layout number journal.now board.new }
    ensures published { OnOk result (entries_published board.new ≡ journal.now) }
    ensures grows { IsPrefix (entries_published board.old) (entries_published board.new) }
    ensures nothing_new { entries_published board.old ≡ journal.now →
        (board.new ≡ board.old) × IsOk result }
    ensures book { book_of board.new ≡ book_of board.old }
{
    let _ = (layout, number);
    let upto = journal.len();
    if board.published() == upto as u64 {
        return Ok(());
    }
    publish_first(rt, board, nothing(), journal, upto)
}

/// Publishes what the board of a place lacks of its journal: each entry that tells where a port of the layout is, in their order, and at
/// last that all entries are there. Where the board lacks nothing it publishes nothing, and does not fail.
///
/// It waits for readers that are inside, and for nothing else. At want of memory, the one error, a beginning of what the board lacked is
/// published, and the next call goes on there.
pub fn publish_missing<R: Wait>(
    rt: &R,
    board: &mut Board,
    layout: Layout,
    number: u16,
    journal: &[Entry],
) -> Result<(), AllocError>
    requires layout { IsLayout layout }
    requires board { IsBoardAt layout number journal.now board.old }
    requires own { All (λ (e : Entry). e.place ≡ number) journal.now }
    ensures board { IsBoardAt layout number journal.now board.new }
    ensures published { OnOk result (entries_published board.new ≡ journal.now) }
    ensures grows { IsPrefix (entries_published board.old) (entries_published board.new) }
    ensures nothing_new { entries_published board.old ≡ journal.now →
        (board.new ≡ board.old) × IsOk result }
    ensures book { book_of board.new ≡ book_of board.old }
{
    let mut index = board.published() as usize;
    while index < journal.len() {
        publish_entry(rt, board, layout, number, journal, index)?;
        index += 1;
    }
    publish_all(rt, board, layout, number, journal)
}
