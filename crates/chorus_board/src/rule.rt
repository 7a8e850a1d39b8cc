//! The rule of what is published. These types are for the proofs alone.
use crate::table::{Publish, Table};
use atomic_table::{Join, Split};
use crossbeam_utils::rule::{Outcome, Protocol};
use left_right::reader::Reader;
use left_right::writer::Writer;

/// What a reader or the writer knows: whose history the board's is, of which layout and of which place. No value of it is made.
pub struct Home {
    pub knows: bool,
    pub number: u64,
    pub log_name: u64,
    pub cells_name: u64,
    pub sites: u64,
    pub turns: u64,
    pub place: u64,
}

/// The reader's end of the table that is published.
pub type TableReader = Reader<Table, Home, Published>;

/// The writer's end of it.
pub type TableWriter = Writer<Table, Publish, Home, Published>;

/// The rule of what is published.
pub struct Published;

impl Protocol<Table, Home> for Published {
    ghost use Rattle.chorus_board.specs.Rule.{Kept, stranger};

    ghost holds = { Kept };

    ghost first = { stranger };
}

/// A read.
pub struct Sees;

impl Outcome<Table, Home> for Sees {
    ghost use Rattle.chorus_board.specs.Rule.{sees};

    ghost then = { sees };
}

/// A publish.
pub struct Shows;

impl Outcome<Table, Home> for Shows {
    ghost use Rattle.chorus_board.specs.Rule.{shows};

    ghost then = { shows };
}

/// What the writer knows is told.
pub struct Tells;

impl Split<Home> for Tells {
    ghost left = { λ v. v };

    ghost right = { λ v. v };
}

impl Join<Home> for Tells {
    ghost use Rattle.chorus_board.specs.Rule.{stranger};

    ghost both = { λ v w. w };

    ghost spent = { stranger };
}
