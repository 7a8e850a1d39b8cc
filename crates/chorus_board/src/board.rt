//! A board, as its one writer has it.
ghost use Rattle.std.specs.Prelude.{◌≡◌, true, length, drop, IsOk};
ghost use Rattle.left_right.specs.Sides.{view};
ghost use Rattle.chorus_board.specs.Ids.{board_props};
ghost use Rattle.chorus_board.specs.Law.{head_of, entries_in, IsAuthor};
ghost use Rattle.chorus_board.specs.Located.{last_clock_in, IsOfPlace};
ghost use Rattle.chorus_board.specs.Rule.{book_known, layout_known};
ghost use Rattle.chorus_board.specs.Writers.{after_all, IsReady, IsSettled, IsShown};
ghost use Rattle.chorus_board.specs.Table.{Exact, IsRoomy, IsOfOneBoard};

use crate::history::{Head, Stands, Witness, bring_to, covers};
use crate::reader::{BoardReader, take_in};
use crate::rule::{Shows, TableWriter};
use crate::table::Publish;
use chorus_ui::Ui;
use core::mem::replace_with;
use logbook::Pen;
use std::alloc::AllocError;
use std::sync::Wait;

/// The board of a place, as its one writer has it. It is not dropped: `end` ends it.
pub struct Board {
    pub(crate) writer: TableWriter,
    pub(crate) head: Head,
    pub(crate) front: Witness,
    pub(crate) author: Pen,
    ghost head_is: { head ≡ head_of front.book } by { Prim.hlevel board_props },
    ghost author_is: { IsAuthor author.book author.nib
        front.book front.log } by { Prim.hlevel board_props },
    ghost here: { writer.desk.shown.value.seen.book ≡ front.book } by { Prim.hlevel board_props },
    ghost knows: { ((view writer.desk.place).knows ≡ true)
        × (book_known (view writer.desk.place) ≡ front.book)
        × (layout_known (view writer.desk.place)
        ≡ writer.desk.shown.value.hints.layout)
        × ((view writer.desk.place).place ≡ writer.desk.shown.value.place) } by { Prim.hlevel board_props },
    ghost none_pending: { length (drop writer.behind writer.log.items) ≡ 0 },
    ghost exact: { Exact writer.desk.shown.value.hints
        (entries_in writer.desk.shown.value.seen.log) } by { Prim.hlevel board_props },
    ghost long: { writer.desk.shown.value.upto
        ≡ length (entries_in writer.desk.shown.value.seen.log) },
    ghost last: { writer.desk.shown.value.clock
        ≡ last_clock_in (entries_in writer.desk.shown.value.seen.log) },
    ghost roomy: { IsRoomy writer.desk.shown.value.hints },
    ghost of_place: { IsOfPlace writer.desk.shown.value.place
        (entries_in writer.desk.shown.value.seen.log) } by { Prim.hlevel board_props },
}

impl Board {
    ghost use Rattle.std.specs.Prelude.{◌≡◌, length, OnOk, OnErr};
    ghost use mathlib.Core.List.{IsPrefix};
    ghost use Rattle.chorus_board.specs.Boards.{entries_seen, entries_published, entries_begun, shown, MayPublish, IsReaderOf, IsSameBoard};

    /// Publishes that the port is at the place, by that hop. The publish stands for the entries that `X` names: `upto` of
    /// them, the last with that clock, all of the board's place, which begin with those of the publish before, and after which each
    /// port that the layout can make is located where the board then has it. The layout can make this port.
    ///
    /// It waits for readers that are inside. For want of memory nothing is shown; that list was begun all the same, so the next
    /// one begins with it.
    pub fn publish<X: Stands, R: Wait>(
        &mut self,
        rt: &R,
        ui: Ui,
        place: u16,
        hop: u64,
        upto: u64,
        clock: u64,
    ) -> Result<(), AllocError>
        requires may { MayPublish self.old ui place hop upto clock X.entries }
        ensures board { IsSameBoard self.old self.new }
        ensures begun { entries_begun self.new ≡ X.entries }
        ensures published { OnOk result (entries_published self.new ≡ X.entries) }
        ensures unshown { OnErr result (shown self.new ≡ shown self.old) }
    {
        bring_to::<X>(&self.head, &mut self.front, &mut self.author);
        let operation = Publish {
            ui,
            place,
            hop,
            upto,
            clock,
            seen: self.front.again(),
        };
        match self.writer.append(operation) {
            Ok(()) => {}
            Err(_) => return Err(AllocError),
        }
        show_in(&mut self.writer, rt)
    }

    /// What the reader, which is of this board, has seen is a beginning of what was begun. It compares nothing, and takes no memory.
    pub fn hear(&mut self, reader: &mut BoardReader)
        requires { IsReaderOf self.old reader.old }
        ensures heard { IsPrefix (entries_seen reader.old) (entries_begun self.new) }
        ensures reader { reader.new ≡ reader.old }
        ensures board { self.new ≡ self.old }
    {
        covers(&self.head, &self.front, &mut self.author, &reader.kept.seen);
    }

    /// For how many entries the last publish of the board stands.
    pub fn published(&mut self) -> u64
        ensures count { result ≡ length (entries_published self.old) }
        ensures board { self.new ≡ self.old }
    {
        self.writer.published().upto
    }

    /// Ends the board once no reader is inside. Takes no memory.
    pub fn end<R: Wait>(self, rt: &R) {
        let Self {
            writer,
            head: _,
            front: _,
            author: _,
        } = self;
        drop(writer.take(rt));
    }
}

/// A part of `Board::publish`: shows the board's readers what is pending at its writer.
pub(crate) fn show<R: Wait>(writer: TableWriter, rt: &R) -> (TableWriter, Result<(), AllocError>)
    requires { IsReady writer.desk.shown.value (drop writer.behind writer.log.items) }
    ensures { IsShown (after_all writer.desk.shown.value (drop writer.behind writer.log.items))
        result.0.desk.shown.value (drop result.0.behind result.0.log.items)
        (view result.0.desk.place) × IsOk result.1 }
{
    writer.publish_as::<Shows, R>(rt)
}

/// The last part of `Board::publish`: shows the board's readers what is pending at its writer, which stays where it lies.
fn show_in<R: Wait>(writer: &mut TableWriter, rt: &R) -> Result<(), AllocError>
    requires { IsReady writer.old.desk.shown.value (drop writer.old.behind writer.old.log.items) }
    ensures shown { writer.new.desk.shown.value
        ≡ after_all writer.old.desk.shown.value (drop writer.old.behind writer.old.log.items) }
    ensures settled { IsSettled writer.new.desk.shown.value
        (drop writer.new.behind writer.new.log.items) (view writer.new.desk.place) }
    ensures same { IsOfOneBoard writer.old.desk.shown.value writer.new.desk.shown.value }
    ensures ok { IsOk result }
{
    replace_with(
        writer,
        rt,
        |writer, rt|
            requires { IsReady writer.desk.shown.value (drop writer.behind writer.log.items) }
            ensures { IsShown
                (after_all writer.desk.shown.value (drop writer.behind writer.log.items))
                result.0.desk.shown.value (drop result.0.behind result.0.log.items)
                (view result.0.desk.place) × IsOk result.1 }
        { show(writer, rt) },
    )
}

impl BoardReader {
    ghost use Rattle.std.specs.Prelude.{◌≡◌};
    ghost use mathlib.Core.List.{IsPrefix};
    ghost use Rattle.chorus_board.specs.Boards.{entries_seen, entries_published, HasSameHandle, IsReaderOf, IsSameReader};

    /// The reader, which is of this board, has then seen all that the board's writer published, and all that it had seen. Takes no
    /// memory.
    pub fn follow(&mut self, board: &mut Board)
        requires reader { IsReaderOf board.old self.old }
        ensures reader { IsSameReader self.old self.new }
        ensures board { board.new ≡ board.old }
        ensures begins { IsPrefix (entries_seen self.old) (entries_seen self.new) }
        ensures seen { IsPrefix (entries_published board.old) (entries_seen self.new) }
        ensures handle { HasSameHandle self.old self.new }
    {
        take_in(&mut self.kept, board.writer.published());
    }
}
