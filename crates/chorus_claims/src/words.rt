//! The words of a claim and of the lines of facts.

ghost use Rattle.std.specs.Prelude.{◌≡◌, ℕ, ◌≤◌, ◌<◌, List, [], ◌∷◌, MatchOption, IfSome};
ghost use Rattle.std.specs.Option.{option_copied};
ghost use Rattle.chorus_claims.specs.Words.{text_left, not_empty, words_behind, behind_throughout, is_throughout, asked_text, long_form, long_call_form, is_and, is_or, is_arrow, is_before, is_middle, is_mark, is_any, is_rest, letter_in};

use chorus_lines::cut;
use std::marker::Model;

/// The words that are left to read of a line, with a space between two. In contracts it is the list of these words.
#[derive(Drop)]
pub(crate) struct Words<'a> {
    rest: Option<&'a [u8]>,
}

impl<'a> Model for Words<'a> {
    ghost Value = { List (List ℕ) };

    ghost view = { λ words. words_behind (option_copied words.rest) };
}

impl<'a> Words<'a> {
    /// The words of what is left of a line, where anything is.
    pub(crate) fn new(rest: Option<&'a [u8]>) -> Words<'a>
        ensures { result ≡ words_behind (option_copied rest.entry) }
    {
        Words { rest }
    }

    /// Takes the next word of the line. None exactly where none is left.
    #[tactic(auto, using(crate::proofs::Cuts::cut_parts))]
    pub(crate) fn next(&mut self) -> Option<&'a [u8]>
        ensures { MatchOption result (self.old ≡ []) (λ word. self.old ≡ word.now ∷ self.new) }
    {
        let (word, rest) = cut(b' ', self.rest?);
        self.rest = rest;
        Some(word)
    }
}

/// The next word of what is left of a line, and what is left behind it. None exactly where nothing is left.
pub(crate) fn next_word(left: Option<&[u8]>) -> Option<(&[u8], Option<&[u8]>)>
    ensures words { MatchOption result
        (words_behind (option_copied left.entry) ≡ [])
        (λ next. words_behind (option_copied left.entry)
        ≡ next.0.now ∷ words_behind (option_copied next.1)) }
    ensures shorter { IfSome result (λ next.
        text_left (option_copied next.1) < text_left (option_copied left.entry)) }
{
    let text = left?;
    let (word, behind) = cut(b' ', text);
    Some((word, behind))
}

/// Whether a word is left of a line.
#[tactic(auto, using(crate::proofs::Cuts::cut_parts))]
pub(crate) fn has_words(left: Option<&[u8]>) -> bool
    ensures { result ≡ not_empty (words_behind (option_copied left.entry)) }
{
    left.is_some()
}

/// The long form of a claim: what a short form stands for, or else the claim itself.
#[tactic(auto, unfolding(crate::specs::Words::long_form))]
pub(crate) fn long_form(text: &[u8]) -> &[u8]
    ensures { result.now ≡ long_form text.now }
{
    if text == b"nothing refused".as_slice() {
        b"verdict X A .. => verdict X accepted | verdict X chosen".as_slice()
    } else if text == b"nothing lost".as_slice() {
        b"verdict X accepted => answer * * take * X .. | port * * .. X ..".as_slice()
    } else if text == b"nothing left".as_slice() {
        b"port P A .. => port P A".as_slice()
    } else {
        long_call_form(text)
    }
}

/// The same, of the short forms that speak of calls.
#[tactic(auto, unfolding(crate::specs::Words::long_call_form))]
fn long_call_form(text: &[u8]) -> &[u8]
    ensures { result.now ≡ long_call_form text.now }
{
    if text == b"requests replied".as_slice() {
        b"answer S * take * X .. & answer C * post X * * request N .. => answer S * post * port * reply C N ..".as_slice()
    } else if text == b"nothing late".as_slice() {
        b"never answer * * take * * late *".as_slice()
    } else if text == b"calls settled".as_slice() {
        b"never outstanding * *".as_slice()
    } else {
        text
    }
}

/// What stands behind the word `throughout`, where that is the first of the text.
#[tactic(auto, unfolding(crate::specs::Words::behind_throughout))]
fn behind_throughout(text: &[u8]) -> Option<&[u8]>
    ensures { option_copied result ≡ behind_throughout text.now }
{
    let (word, behind) = cut(b' ', text);
    if word == b"throughout".as_slice() {
        behind
    } else {
        None
    }
}

/// Whether `throughout` stands in front of what the text claims, and that.
pub(crate) fn split_throughout(text: &[u8]) -> (bool, &[u8])
    ensures throughout { result.0 ≡ is_throughout text.now }
    ensures asked { result.1.now ≡ asked_text text.now }
{
    match behind_throughout(text) {
        Some(behind) => (true, behind),
        None => (false, text),
    }
}

/// Whether the word is the mark between facts that are so together.
pub(crate) fn is_and(word: &[u8]) -> bool
    ensures { result ≡ is_and word.now }
{
    word == b"&".as_slice()
}

/// Whether the word is the mark between facts of which one is so.
pub(crate) fn is_or(word: &[u8]) -> bool
    ensures { result ≡ is_or word.now }
{
    word == b"|".as_slice()
}

/// Whether the word is the mark behind the facts on the left, in front of those on the right.
pub(crate) fn is_arrow(word: &[u8]) -> bool
    ensures { result ≡ is_arrow word.now }
{
    word == b"=>".as_slice()
}

/// Whether the word is the mark behind the fact that is the first to be so.
pub(crate) fn is_before(word: &[u8]) -> bool
    ensures { result ≡ is_before word.now }
{
    word == b"before".as_slice()
}

/// Whether the word is a mark between both sides of a claim.
pub(crate) fn is_middle(word: &[u8]) -> bool
    ensures { result ≡ is_middle word.now }
{
    is_arrow(word) || is_before(word)
}

/// Whether the word is a mark between facts.
pub(crate) fn is_mark(word: &[u8]) -> bool
    ensures { result ≡ is_mark word.now }
{
    is_and(word) || is_or(word) || is_middle(word)
}

/// Whether the word of a claim stands for any one word.
pub(crate) fn is_any(word: &[u8]) -> bool
    ensures { result ≡ is_any word.now }
{
    word == b"*".as_slice()
}

/// Whether the word of a claim stands for any number of words.
pub(crate) fn is_rest(word: &[u8]) -> bool
    ensures { result ≡ is_rest word.now }
{
    word == b"..".as_slice()
}

/// The letter that the word of a claim is.
pub(crate) fn letter_in(word: &[u8]) -> Option<u8>
    ensures value { result ≡ letter_in word.now }
    ensures letter { IfSome result (λ letter. (65 ≤ letter) × (letter ≤ 90)) }
{
    match word {
        [letter] if letter.is_ascii_uppercase() => Some(*letter),
        _ => None,
    }
}
