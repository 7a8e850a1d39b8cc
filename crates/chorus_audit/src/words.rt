//! The words of a line.

ghost use Rattle.std.specs.Prelude.{◌≡◌, ℕ, List, OnOk, IfOk, MatchResult, Some, length, ◌==◌};
ghost use Rattle.std.specs.Option.{option_copied};
ghost use Rattle.std.specs.List.{All, join_with_byte};
ghost use Rattle.chorus_show.specs.Reading.{parts, first, second, third, fourth, rest, two, three, four, each};
ghost use Rattle.chorus_audit.specs.Calls.{Misses, Reads, parts_behind};

use crate::cut::cut;
use crate::fault::Unread;
use crate::field::Field;
use std::alloc::Global;
use std::marker::Model;

/// The words of a line that are left to read, with a space between two. Where none is left, an empty word is read.
#[derive(Drop)]
pub(crate) struct Words<'a> {
    rest: Option<&'a [u8]>,
}

impl<'a> Model for Words<'a> {
    ghost Value = { List (List ℕ) };

    ghost view = { λ words. parts_behind 32 (option_copied words.rest) };
}

impl<'a> Words<'a> {
    /// All the words of the printed line that is audited.
    pub(crate) fn new(line: &'a [u8]) -> Words<'a>
        ensures { result ≡ parts 32 line.now }
    {
        Words { rest: Some(line) }
    }

    /// Whether no word of the printed line is left.
    #[tactic(auto, using(crate::proofs::WordLists::some_word))]
    pub(crate) fn is_empty(&self) -> bool
        ensures { result ≡ (length self.now == 0) }
    {
        match self.rest {
            Some(_) => false,
            None => true,
        }
    }

    /// The next word of the printed line.
    pub(crate) fn next(&mut self) -> &'a [u8]
        ensures word { result.now ≡ first self.old }
        ensures left { self.new ≡ rest self.old }
    {
        match self.rest {
            Some(text) => {
                let (word, rest) = cut(b' ', text);
                self.rest = rest;
                word
            }
            None => &[],
        }
    }

    /// All that is left of the printed line, with its spaces.
    pub(crate) fn text(&self) -> &'a [u8]
        ensures { result.now ≡ join_with_byte 32 self.now }
    {
        match self.rest {
            Some(text) => text,
            None => &[],
        }
    }

    /// What the next word of the printed line says.
    pub(crate) fn one<A: Field>(&mut self) -> Result<A, Unread>
        ensures reads { Reads result (A.said (first self.old)) }
        ensures left { OnOk result (self.new ≡ rest self.old) }
        ensures allowed { IfOk result A.allowed }
    {
        match A::read(self.next()) {
            Some(value) => Ok(value),
            None => Err(Unread::NoEntry),
        }
    }

    /// What the next two words of the printed line say.
    pub(crate) fn two<A: Field, B: Field>(&mut self) -> Result<(A, B), Unread>
        ensures reads { Reads result (two (A.said (first self.old)) (B.said (second self.old))) }
        ensures left { OnOk result (self.new ≡ rest (rest self.old)) }
        ensures allowed { IfOk result (λ x. A.allowed x.0 × B.allowed x.1) }
    {
        Ok((self.one()?, self.one()?))
    }

    /// What the next three words of the printed line say.
    pub(crate) fn three<A: Field, B: Field, C: Field>(&mut self) -> Result<(A, B, C), Unread>
        ensures reads { Reads result
            (three (A.said (first self.old)) (B.said (second self.old)) (C.said (third self.old))) }
        ensures left { OnOk result (self.new ≡ rest (rest (rest self.old))) }
        ensures allowed { IfOk result (λ x. A.allowed x.0 × B.allowed x.1 × C.allowed x.2) }
    {
        Ok((self.one()?, self.one()?, self.one()?))
    }

    /// What the next four words of the printed line say.
    pub(crate) fn four<A: Field, B: Field, C: Field, D: Field>(
        &mut self,
    ) -> Result<(A, B, C, D), Unread>
        ensures reads { Reads result
            (four
            (A.said (first self.old))
            (B.said (second self.old))
            (C.said (third self.old))
            (D.said (fourth self.old))) }
        ensures left { OnOk result (self.new ≡ rest (rest (rest (rest self.old)))) }
        ensures allowed { IfOk result
            (λ x. A.allowed x.0 × B.allowed x.1 × C.allowed x.2 × D.allowed x.3) }
    {
        Ok((self.one()?, self.one()?, self.one()?, self.one()?))
    }

    /// What each word that is left of the printed line says.
    pub(crate) fn each<A: Field>(&mut self, alloc: Global) -> Result<Vec<A>, Unread>
        ensures reads { MatchResult result
            (λ values. each A.said self.old ≡ Some values.items)
            (λ fault. Misses fault (each A.said self.old)) }
        ensures allowed { IfOk result (λ values. All A.allowed values.items) }
    {
        let mut values = Vec::new(alloc);
        while !self.is_empty() {
            values.push(self.one()?)?;
        }
        Ok(values)
    }
}
