//! Whether lines of facts meet a claim, looked for word by word. It takes no memory.

ghost use Rattle.std.specs.Prelude.{◌≡◌, ◌≢◌, ◌<◌, ◌≤◌, [], ◌∷◌, length, MatchOption, IfSome, None, replicate};
ghost use Rattle.std.specs.Option.{option_copied};
ghost use Rattle.chorus_lines.specs.Text.{lines};
ghost use Rattle.chorus_claims.specs.Words.{text_left, words_behind, words_in};
ghost use Rattle.chorus_claims.specs.Pieces.{meets};
ghost use Rattle.chorus_claims.specs.Shapes.{facts_in, behind_middle};
ghost use Rattle.chorus_claims.specs.Ways.{behind_rests, meanings_of, way_from, each_line, one_right, goes_on, later_facts, right_of, each_tail, all_left};

use crate::claim::Claim;
use crate::form::{Form, split_form};
use crate::letters::{Letters, Step, step_of};
use crate::words::{has_words, is_mark, is_middle, is_rest, next_word};
use chorus_lines::cut;

/// The facts on the right of a claim: none, or those that stand here.
#[derive(Clone, Copy)]
pub(crate) enum Right<'a> {
    Nothing,
    Facts(Option<&'a [u8]>),
}

/// What is asked: of lines of facts, whether one of the facts on the right is so.
#[derive(Clone, Copy)]
pub(crate) struct Asked<'a> {
    pub(crate) lines: &'a [u8],
    pub(crate) right: Right<'a>,
}

/// What comes of a way in which the words of a fact fit: the search goes on to the next fact, or has found what it looks for.
#[derive(Clone, Copy)]
pub(crate) enum Ending {
    Goes,
    Found,
}

/// For each way in which the words fit from here on, the rest is so.
#[cycle(ways)]
fn way_from<'a>(
    asked: &Asked<'a>,
    ending: Ending,
    pieces: Option<&'a [u8]>,
    line: Option<&'a [u8]>,
    letters: &Letters<'a>,
) -> bool
    ensures { result
        ≡ way_from asked.now ending (words_behind (option_copied pieces.entry))
        (words_behind (option_copied line.entry)) (meanings_of letters.now) }
{
    let mut pieces = pieces;
    let mut line = line;
    while let Some((piece, behind)) = next_word(pieces) {
        if is_rest(piece) {
            return each_tail(asked, ending, behind_rests(behind), line, letters);
        }
        if is_middle(piece) {
            return has_words(line) || ends(asked, ending, letters);
        }
        if is_mark(piece) {
            return has_words(line) || goes_on(asked, ending, behind, letters);
        }
        let Some((word, words_behind)) = next_word(line) else {
            return true;
        };
        match step_of(piece, word, letters) {
            Step::Fits => {}
            Step::Misses => return true,
            Step::Stands(letter) => {
                let letters = letters.with(letter, word);
                return way_from(asked, ending, behind, words_behind, &letters);
            }
        }
        pieces = behind;
        line = words_behind;
    }
    has_words(line) || ends(asked, ending, letters)
}

/// The same for each tail of the line, since `..` stands for any number of words.
#[cycle(ways)]
fn each_tail<'a>(
    asked: &Asked<'a>,
    ending: Ending,
    pieces: Option<&'a [u8]>,
    line: Option<&'a [u8]>,
    letters: &Letters<'a>,
) -> bool
    ensures { result
        ≡ each_tail asked.now ending (words_behind (option_copied pieces.entry))
        (words_behind (option_copied line.entry)) (meanings_of letters.now) }
{
    let mut tail = line;
    while let Some((_, behind)) = next_word(tail) {
        if !way_from(asked, ending, pieces, tail, letters) {
            return false;
        }
        tail = behind;
    }
    way_from(asked, ending, pieces, None, letters)
}

/// Behind a fact that is so, the rest is so: for each way in which the facts that begin here are so too, one on the right is.
#[cycle(ways)]
fn goes_on<'a>(
    asked: &Asked<'a>,
    ending: Ending,
    later: Option<&'a [u8]>,
    letters: &Letters<'a>,
) -> bool
    ensures { result
        ≡ goes_on ending (words_in asked.now.lines.now) (right_of asked.now.right)
        (facts_in (words_behind (option_copied later.entry))) (meanings_of letters.now) }
{
    match ending {
        Ending::Goes => each_line(asked, Ending::Goes, later, letters),
        Ending::Found => false,
    }
}

/// Behind the last fact that is so, the rest is so: one on the right is.
#[cycle(ways)]
fn ends<'a>(asked: &Asked<'a>, ending: Ending, letters: &Letters<'a>) -> bool
    ensures { result
        ≡ goes_on ending (words_in asked.now.lines.now) (right_of asked.now.right) []
        (meanings_of letters.now) }
{
    match ending {
        Ending::Goes => one_right(asked, letters),
        Ending::Found => false,
    }
}

/// For each way in which a line fits the fact that begins here, the rest is so.
#[cycle(ways)]
fn each_line<'a>(
    asked: &Asked<'a>,
    ending: Ending,
    fact: Option<&'a [u8]>,
    letters: &Letters<'a>,
) -> bool
    ensures { result
        ≡ each_line asked.now ending (words_behind (option_copied fact.entry))
        (meanings_of letters.now) }
{
    let mut left = asked.lines;
    while !left.is_empty() {
        let (line, behind) = cut_line(left);
        if !way_from(asked, ending, fact, Some(line), letters) {
            return false;
        }
        left = behind;
    }
    true
}

/// One of the facts on the right is so, by what the letters stand for.
#[cycle(ways)]
fn one_right<'a>(asked: &Asked<'a>, letters: &Letters<'a>) -> bool
    ensures { result
        ≡ one_right (words_in asked.now.lines.now) (meanings_of letters.now)
        (right_of asked.now.right) }
{
    match asked.right {
        Right::Nothing => false,
        Right::Facts(first) => one_fact(asked, first, letters),
    }
}

/// One of the facts that begin here is so, by what the letters stand for.
#[cycle(ways)]
fn one_fact<'a>(asked: &Asked<'a>, fact: Option<&'a [u8]>, letters: &Letters<'a>) -> bool
    ensures { result
        ≡ one_right (words_in asked.now.lines.now) (meanings_of letters.now)
        (facts_in (words_behind (option_copied fact.entry))) }
{
    if !each_line(asked, Ending::Found, fact, letters) {
        return true;
    }
    match behind_fact(fact) {
        Some(next) => one_fact(asked, next, letters),
        None => false,
    }
}

/// What stands behind the `..` that stand here: with one that stands in front of them they are one.
fn behind_rests(pieces: Option<&[u8]>) -> Option<&[u8]>
    ensures words { words_behind (option_copied result)
        ≡ behind_rests (words_behind (option_copied pieces.entry)) }
    ensures shorter { text_left (option_copied result) ≤ text_left (option_copied pieces.entry) }
{
    let mut left = pieces;
    while let Some((piece, behind)) = next_word(left) {
        if !is_rest(piece) {
            return left;
        }
        left = behind;
    }
    left
}

/// What stands behind the mark that ends the fact that begins here. None exactly where it is the last of its side.
fn behind_fact(fact: Option<&[u8]>) -> Option<Option<&[u8]>>
    ensures facts { MatchOption result
        (later_facts (facts_in (words_behind (option_copied fact.entry))) ≡ [])
        (λ next. later_facts (facts_in (words_behind (option_copied fact.entry)))
        ≡ facts_in (words_behind (option_copied next))) }
    ensures shorter { IfSome result (λ next.
        text_left (option_copied next) < text_left (option_copied fact.entry)) }
{
    let mut left = fact;
    while let Some((word, behind)) = next_word(left) {
        if is_middle(word) {
            return None;
        }
        if is_mark(word) {
            return Some(behind);
        }
        left = behind;
    }
    None
}

/// What stands behind the mark between both sides, where there is one.
fn behind_middle(facts: Option<&[u8]>) -> Option<&[u8]>
    ensures { words_behind (option_copied result)
        ≡ behind_middle (words_behind (option_copied facts.entry)) }
{
    let mut left = facts;
    while let Some((word, behind)) = next_word(left) {
        if is_middle(word) {
            return behind;
        }
        left = behind;
    }
    None
}

/// The first line of a text that is not empty, and what stands behind it.
fn cut_line(text: &[u8]) -> (&[u8], &[u8])
    requires { text.now ≢ [] }
    ensures lines { lines text.now ≡ result.0.now ∷ lines result.1.now }
    ensures shorter { length result.1.now < length text.now }
{
    let (line, behind) = cut(b'\n', text);
    match behind {
        Some(behind) => (line, behind),
        None => (line, &[]),
    }
}

/// Whether the lines meet the claim: for each way in which all facts on its left are so, one on its right is. The lines end with LF.
pub fn meets(claim: &Claim, lines: &[u8]) -> bool
    ensures { result ≡ meets claim.now lines.now }
{
    let (form, facts) = split_form(claim.text());
    match form {
        Form::Never | Form::Possible => all_left(lines, Right::Nothing, facts),
        Form::Always => one_right(
            &Asked {
                lines,
                right: Right::Facts(facts),
            },
            &Letters::new(),
        ),
        Form::Implies => all_left(lines, Right::Facts(behind_middle(facts)), facts),
        Form::Before => all_left(lines, Right::Facts(facts), behind_middle(facts)),
    }
}

/// For each way in which the facts on the left are so, one on the right is.
fn all_left<'a>(lines: &'a [u8], right: Right<'a>, left: Option<&'a [u8]>) -> bool
    ensures { result
        ≡ all_left (words_in lines.now) (right_of right.entry)
        (facts_in (words_behind (option_copied left.entry))) (replicate 26 None) }
{
    each_line(&Asked { lines, right }, Ending::Goes, left, &Letters::new())
}
