//! What the words behind the program's name ask.
//!
//! [`read_words`] gives what they ask, exactly where they are in the list of the program's words: what has to be believed of
//! that list is `specs/Words.antt`, which spells each of its rows. `clap` cuts the words, as one command of at most three
//! positional words, and what it cuts is read here.
//!
//! Begin with [`Words`].

#![tactic(auto)]

mod cutting;
mod reading;
mod words;

pub use reading::read_words;
pub use words::{CHECK_MOST, EXPLORE_FIRST, EXPLORE_MOST, LOAD_LIMIT, Words};
