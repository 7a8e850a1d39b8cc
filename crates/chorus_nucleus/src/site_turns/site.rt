//! A place, as callers take turns at it.
ghost use Rattle.chorus_board.specs.Boards.{name_of};
ghost use Rattle.chorus_serve.specs.Desks.{seen};
ghost use Rattle.chorus_nucleus.specs.SiteTurns.Sites.{entries, mark, Fits, IsPublished};

use chorus_board::{Board, BoardName};
use chorus_calls::Caller;
use chorus_ends::{Ends, EndsName};
use chorus_entry::{Command, Packet};
use chorus_serve::Desk;
use chorus_turn::Kept;
use chorus_ui::Layout;
use law_closing::Noted;

/// What is noted beside an entry, for contracts alone.
pub type Remark = Noted<Caller, Command, Packet>;

/// A place at the ends of its links, and its board. It is not dropped, since a board is not.
pub struct Site<E: Ends> {
    /// The place at the ends of its links.
    pub desk: Desk<E>,
    /// Its board.
    pub board: Board,
}

/// What no turn changes of a place, for contracts alone. No value is ever made.
pub struct SiteMark {
    /// The layout of all places.
    pub layout: Layout,
    /// The number of the place, from 1.
    pub number: u16,
    /// Which links its ends are of.
    pub ends: EndsName,
    /// Which board it has.
    pub board: BoardName,
}

impl<E: Ends> Kept for Site<E> {
    type Mark = SiteMark;

    type Remark = Remark;

    ghost entries = { λ s. entries (seen E.links E.packet s.desk) };

    ghost mark = { λ s. mark (seen E.links E.packet s.desk) (name_of s.board) };

    ghost fits = { λ s log. Fits (seen E.links E.packet s.desk) log
        × IsPublished (seen E.links E.packet s.desk) s.board };
}
