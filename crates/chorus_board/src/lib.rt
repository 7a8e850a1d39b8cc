//! The board of a place: where ports are now, read without a turn.
//!
//! A board has one writer, [`Board`], and 64 readers. The writer publishes one location after another. Each publish stands,
//! for contracts alone, for the list of the place's entries up to then. A [`BoardReader`] answers without waiting and without
//! a turn at the place.
//!
//! The layer above rests on this: a reader's answer is where the port is located after a list of entries, and that list begins
//! with the one of the reader's last answer. The reader tells the clock of the last of these entries (`BoardReader::clock`). What a
//! reader has seen is a beginning of what was begun (`Board::hear`): a history has one author, who knows all of it (`history`). What
//! was published can be told to a reader (`BoardReader::follow`). No clause says that a reader's list is one for which a publish
//! stands, or when a publish comes to a reader. Which board it is, a type of Rust can hold as a [`BoardName`].
//!
//! Begin with `specs/Located.antt` and `specs/Boards.antt`, the words of the contracts, then `board` and `reader`. The rule that
//! holds between any two steps is `specs/Rule.antt`, that of the history `specs/Law.antt`. Boards are this project's own.
#![tactic(auto)]

mod board;
mod history;
mod law;
mod name;
mod reader;
mod rule;
mod start;
mod table;

pub use board::Board;
pub use history::Stands;
pub use law::boards_tell_of_the_world;
pub use name::{BoardName, names_tell_boards};
pub use reader::{BoardReader, Located};
pub use start::READERS_PER_BOARD;
