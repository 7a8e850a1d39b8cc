//! What letters stand for, and one word of a claim at one of a line.

ghost use Rattle.std.specs.Prelude.{◌≡◌, ◌≤◌, None, replicate, if◌then◌else◌};
ghost use Rattle.std.specs.Str.{bytes_eq};
ghost use Rattle.std.specs.Option.{option_copied};
ghost use Rattle.chorus_claims.specs.Shapes.{piece_of};
ghost use Rattle.chorus_claims.specs.Ways.{meanings_of, meaning, with_meaning, step_of, letter_step, IsLetter};
ghost use Rattle.chorus_claims.specs.declared.letters.Step.TheVariants as steps;

use crate::words::{is_any, is_rest, letter_in};

/// What each letter stands for, from A on.
#[derive(Clone, Copy)]
pub(crate) struct Letters<'a> {
    words: [Option<&'a [u8]>; 26],
}

/// What a word of a claim says of a word of a line.
#[derive(Clone, Copy)]
pub(crate) enum Step {
    /// It fits.
    Fits,
    /// It does not.
    Misses,
    /// This letter stands for it from now on.
    Stands(u8),
}

impl<'a> Letters<'a> {
    /// No letter stands for anything.
    pub(crate) fn new() -> Letters<'a>
        ensures { meanings_of result ≡ replicate 26 None }
    {
        Letters { words: [None; 26] }
    }

    /// What the letter stands for.
    pub(crate) fn get(&self, letter: u8) -> Option<&'a [u8]>
        requires { (65 ≤ letter) × (letter ≤ 90) }
        ensures { option_copied result ≡ meaning letter (meanings_of self.now) }
    {
        self.words[usize::from(letter) - 65]
    }

    /// The same, and this letter stands for the word.
    pub(crate) fn with(&self, letter: u8, word: &'a [u8]) -> Letters<'a>
        requires { (65 ≤ letter) × (letter ≤ 90) }
        ensures { meanings_of result ≡ with_meaning letter word.now (meanings_of self.now) }
    {
        let mut words = self.words;
        words[usize::from(letter) - 65] = Some(word);
        Letters { words }
    }
}

/// What the word of a claim says of the word of a line, by what the letters stand for. It is none of the marks, nor `..`.
pub(crate) fn step_of(piece: &[u8], word: &[u8], letters: &Letters) -> Step
    ensures step { result ≡ step_of (piece_of piece.now) word.now (meanings_of letters.now) }
    ensures letter { IsLetter result }
{
    if is_any(piece) {
        Step::Fits
    } else if is_rest(piece) {
        Step::Fits
    } else {
        match letter_in(piece) {
            Some(letter) => letter_step(letter, word, letters.get(letter)),
            None => word_step(piece, word),
        }
    }
}

/// What a letter says of a word, by what it stands for.
fn letter_step(letter: u8, word: &[u8], same: Option<&[u8]>) -> Step
    requires { (65 ≤ letter) × (letter ≤ 90) }
    ensures step { result ≡ letter_step letter word.now (option_copied same.entry) }
    ensures letter { IsLetter result }
{
    match same {
        Some(same) => word_step(word, same),
        None => Step::Stands(letter),
    }
}

/// What a word says of a word.
fn word_step(same: &[u8], word: &[u8]) -> Step
    ensures step { result ≡ if bytes_eq same.now word.now then steps.Fits else steps.Misses }
    ensures letter { IsLetter result }
{
    if same == word {
        Step::Fits
    } else {
        Step::Misses
    }
}
