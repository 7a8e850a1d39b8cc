//! One publish.
ghost use Rattle.std.specs.Prelude.{◌≡◌, ◌≤◌, length, take, OnOk, OnErr};
ghost use Rattle.chorus_board.specs.Located.{last_clock_in};
ghost use Rattle.chorus_board.specs.Boards.{entries_published, entries_begun, shown, MayPublish, IsSameBoard};

use crate::lesson::Lesson;
use chorus_board::{Board, Stands};
use chorus_entry::Entry;
use std::alloc::AllocError;
use std::marker::Brand;
use std::sync::Wait;

/// The clock of the last of the first `upto` entries, 0 where `upto` is 0.
fn clock_of(journal: &[Entry], upto: usize) -> u64
    requires { upto ≤ length journal.now }
    ensures { result ≡ last_clock_in (take upto journal.now) }
{
    if upto == 0 {
        return 0;
    }
    let Some(entry) = journal.get(upto - 1) else {
        unreachable!()
    };
    entry.clock
}

/// Publishes the lesson, in one publish, for the first `upto` entries, which `X` names.
fn publish_as<X: Stands, R: Wait>(
    rt: &R,
    board: &mut Board,
    lesson: Lesson,
    journal: &[Entry],
    upto: usize,
) -> Result<(), AllocError>
    requires within { upto ≤ length journal.now }
    requires stands { X.entries ≡ take upto journal.now }
    requires may { MayPublish board.old lesson.ui lesson.place lesson.hop upto
        (last_clock_in X.entries) X.entries }
    ensures board { IsSameBoard board.old board.new }
    ensures begun { entries_begun board.new ≡ X.entries }
    ensures published { OnOk result (entries_published board.new ≡ X.entries) }
    ensures unshown { OnErr result (shown board.new ≡ shown board.old) }
{
    let clock = clock_of(journal, upto);
    board.publish::<X, R>(rt, lesson.ui, lesson.place, lesson.hop, upto as u64, clock)
}

/// Publishes the lesson, in one publish, for the first `upto` entries of the journal.
pub(crate) fn publish_first<R: Wait>(
    rt: &R,
    board: &mut Board,
    lesson: Lesson,
    journal: &[Entry],
    upto: usize,
) -> Result<(), AllocError>
    requires within { upto ≤ length journal.now }
    requires may { MayPublish board.old lesson.ui lesson.place lesson.hop upto
        (last_clock_in (take upto journal.now)) (take upto journal.now) }
    ensures board { IsSameBoard board.old board.new }
    ensures begun { entries_begun board.new ≡ take upto journal.now }
    ensures published { OnOk result (entries_published board.new ≡ take upto journal.now) }
    ensures unshown { OnErr result (shown board.new ≡ shown board.old) }
{
    publish_as::<Brand, R>(rt, board, lesson, journal, upto)
}
