//! What reads a board.
ghost use Rattle.std.specs.Prelude.{◌≡◌, true, length, IfSome};
ghost use Rattle.left_right.specs.Sides.{view};
ghost use Rattle.chorus_board.specs.Ids.{board_props};
ghost use Rattle.chorus_board.specs.Rule.{book_known, layout_known};
ghost use Rattle.chorus_board.specs.Law.{entries_in};
ghost use Rattle.chorus_board.specs.Located.{last_clock_in, IsOfPlace};
ghost use Rattle.chorus_board.specs.Table.{Exact, IsRoomy, IsOfOneBoard, Fine};
ghost use mathlib.Core.List.{IsPrefix};

use crate::rule::{Sees, TableReader};
use crate::table::Table;
use chorus_ui::Ui;

/// A reader of one board. It keeps the table that it saw last. Without a handle, or where a read is refused, it answers from
/// that table.
#[derive(Drop)]
pub struct BoardReader {
    pub(crate) handle: Option<TableReader>,
    pub(crate) kept: Table,
    ghost exact: { Exact kept.hints (entries_in kept.seen.log) } by { Prim.hlevel board_props },
    ghost long: { kept.upto ≡ length (entries_in kept.seen.log) },
    ghost last: { kept.clock ≡ last_clock_in (entries_in kept.seen.log) },
    ghost roomy: { IsRoomy kept.hints },
    ghost of_place: { IsOfPlace kept.place (entries_in kept.seen.log) } by { Prim.hlevel board_props },
    ghost tied: { IfSome handle (λ r. ((view r.place).knows ≡ true)
        × (book_known (view r.place) ≡ kept.seen.book)
        × (layout_known (view r.place) ≡ kept.hints.layout)
        × ((view r.place).place ≡ kept.place)) } by { Prim.hlevel board_props },
}

/// Where a port is: a place, the hop by which it came there, and how many entries of the board's place tell so.
#[derive(Clone, Copy, Debug, PartialEq, Eq)]
pub struct Located {
    /// The place, from 1.
    pub place: u16,
    /// The hop, from 0, which is the port's making.
    pub hop: u64,
    /// How many entries the publish stands for.
    pub upto: u64,
}

impl BoardReader {
    ghost use Rattle.std.specs.Prelude.{◌≡◌, length, IsTrue};
    ghost use Rattle.chorus_ui.specs.declared.kind.Kind.TheVariants.{Port};
    ghost use Rattle.chorus_ui.specs.Layout.{has_site};
    ghost use Rattle.chorus_board.specs.Located.{located_on, pair_of, IsOfPlace};
    ghost use Rattle.chorus_board.specs.Boards.{entries_seen, clock_seen, layout_read, place_read, pair_told, ReadsOn};

    /// Where the port is located after some entries of the board's place, which begin with all that this reader had seen. The port's site is in
    /// the layout.
    ///
    /// It takes no turn, no memory and no wait. Where the reader has no handle, or its read is refused, the answer is from
    /// the table that it keeps. What it read is let go before this returns.
    pub fn newest(&mut self, ui: Ui) -> Located
        requires port { ui.kind ≡ Port }
        requires in_layout { IsTrue (has_site (layout_read self.old) ui.site) }
        ensures on { ReadsOn self.old self.new }
        ensures of_place { IsOfPlace (place_read self.old) (entries_seen self.new) }
        ensures located { pair_told result
            ≡ pair_of (located_on (layout_read self.old) (entries_seen self.new) ui) }
        ensures upto { result.upto ≡ length (entries_seen self.new) }
    {
        self.refresh();
        let (place, hop) = self.kept.hints.newest(ui);
        Located {
            place,
            hop,
            upto: self.kept.upto,
        }
    }

    /// The clock of the last entry for which its last answer stands, or what it followed since; 0 where it has seen none. It reads
    /// nothing.
    pub fn clock(&self) -> u64
        ensures { result ≡ clock_seen self.now }
    {
        self.kept.clock
    }

    /// Reads the board, if the read is not refused.
    fn refresh(&mut self)
        ensures { ReadsOn self.old self.new }
    {
        let Some(handle) = self.handle.take() else {
            return;
        };
        match handle.enter_as::<Sees>() {
            Ok(reading) => {
                take_in(&mut self.kept, reading.get());
                self.handle = Some(reading.leave());
            }
            Err(handle) => self.handle = Some(handle),
        }
    }
}

/// A reader of the board keeps the longer of the two tables. Where both stand for as many entries nothing is copied.
pub(crate) fn take_in(kept: &mut Table, newer: &Table)
    requires same { IsOfOneBoard kept.old newer.now }
    requires fine { Fine newer.now × Fine kept.old }
    ensures same { IsOfOneBoard kept.old kept.new }
    ensures fine { Fine kept.new }
    ensures begins { IsPrefix (entries_in kept.old.seen.log) (entries_in kept.new.seen.log) }
    ensures newer { IsPrefix (entries_in newer.now.seen.log) (entries_in kept.new.seen.log) }
{
    let mut both = kept.seen.again();
    both.learn(&newer.seen);
    if newer.upto <= kept.upto {
        return;
    }
    put_down(kept, newer);
}

/// The table that a reader of the board keeps becomes the other one.
pub(crate) fn put_down(kept: &mut Table, newer: &Table)
    requires { newer.now.hints.layout ≡ kept.old.hints.layout }
    ensures { kept.new ≡ newer.now }
{
    kept.hints.copy_from(&newer.hints);
    kept.place = newer.place;
    kept.upto = newer.upto;
    kept.clock = newer.clock;
    kept.seen = newer.seen.again();
}
