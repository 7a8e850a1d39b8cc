//! The words of a line, and what each says.

use chorus_entry::MsgId;
use chorus_ui::Ui;
use std::process::Abort;

/// The words of a line that are not read yet. A word that does not say what is wanted of it ends the test.
#[derive(Drop)]
pub(crate) struct Words<'a, R: Abort> {
    pub(crate) rt: &'a R,
    rest: &'a str,
}

impl<'a, R: Abort> Words<'a, R> {
    /// All words of a packet's line.
    pub(crate) fn of(rt: &'a R, line: &'a str) -> Words<'a, R> {
        Words { rt, rest: line }
    }

    /// Whether all words of a packet's line are read.
    pub(crate) fn is_empty(&self) -> bool {
        self.rest.is_empty()
    }

    /// The next word of a packet's line.
    pub(crate) fn next(&mut self) -> &'a str {
        let line = self.rest;
        let (word, rest) = line.split_once(' ').unwrap_or((line, ""));
        self.rest = rest;
        word
    }

    /// What the next word of a packet's line says.
    pub(crate) fn read<F: Field>(&mut self) -> F {
        let word = self.next();
        match F::of(word) {
            Some(field) => field,
            None => panic!(self.rt; "no such field: {word}"),
        }
    }
}

/// What one word says.
pub(crate) trait Field: Sized {
    /// What the word of a packet's line says. None where it says no such thing.
    fn of(word: &str) -> Option<Self>;
}

impl Field for u8 {
    fn of(word: &str) -> Option<u8> {
        word.parse().ok()
    }
}

impl Field for u16 {
    fn of(word: &str) -> Option<u16> {
        word.parse().ok()
    }
}

impl Field for u32 {
    fn of(word: &str) -> Option<u32> {
        word.parse().ok()
    }
}

impl Field for u64 {
    fn of(word: &str) -> Option<u64> {
        word.parse().ok()
    }
}

impl Field for Ui {
    fn of(word: &str) -> Option<Ui> {
        Ui::parse(word.as_bytes())
    }
}

/// None is written as `-`.
impl<F: Field + Drop> Field for Option<F> {
    fn of(word: &str) -> Option<Option<F>> {
        if word == "-" {
            return Some(None);
        }
        F::of(word).map(Some)
    }
}

impl Field for MsgId {
    fn of(word: &str) -> Option<MsgId> {
        let (seat, rest) = word.split_once(':')?;
        let (number, copy) = rest.split_once(':')?;
        Some(MsgId {
            seat: seat.parse().ok()?,
            number: number.parse().ok()?,
            copy: copy.parse().ok()?,
        })
    }
}
