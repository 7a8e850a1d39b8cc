//! The form of a claim: what its first word says, and which marks stand between its facts.

ghost use Rattle.std.specs.Prelude.{◌≡◌};
ghost use Rattle.std.specs.Option.{option_copied};
ghost use Rattle.chorus_claims.specs.Words.{words, words_behind};
ghost use Rattle.chorus_claims.specs.Shapes.{form_of, form_by_mark, form_in, facts_of, may_be_throughout, side_of, mark_fits, side_behind, is_left, marks_fit, are_few};

use crate::words::{Words, is_and, is_arrow, is_before, is_mark, is_middle, is_or};
use chorus_lines::cut;

/// The form of a claim.
#[derive(Clone, Copy)]
pub enum Form {
    /// `never FACT & FACT ..`: these facts are never so together.
    Never,
    /// `possible FACT & FACT ..`: by some schedule these facts are so together.
    Possible,
    /// `always FACT | FACT ..`: one of these facts is always so.
    Always,
    /// `FACT & FACT .. => FACT | FACT ..`: where all on the left are so, one on the right is.
    Implies,
    /// `FIRST before SECOND`: at each moment at which the second is so, the first is.
    Before,
}

/// The side of a claim on which a word stands.
#[derive(Clone, Copy)]
pub enum Side {
    /// Facts with `&` between them, and no arrow behind them.
    Ands,
    /// Facts with `&` between them, in front of an arrow.
    Left,
    /// Facts with `|` between them.
    Ors,
    /// One fact, in front of `before`.
    First,
    /// One fact, behind `before`.
    Alone,
}

/// The form that the first word of a claim tells; where that is a fact's, the mark between both sides does.
#[tactic(auto, unfolding(crate::specs::Shapes::form_of))]
pub(crate) fn form_of(word: &[u8]) -> Form
    ensures { result ≡ form_of word.now }
{
    if word == b"never".as_slice() {
        Form::Never
    } else if word == b"possible".as_slice() {
        Form::Possible
    } else if word == b"always".as_slice() {
        Form::Always
    } else {
        Form::Implies
    }
}

/// The form of a claim that begins with a fact, by the first mark between its sides.
fn form_by_mark(text: &[u8]) -> Form
    ensures { result ≡ form_by_mark (words text.now) }
{
    let mut words = Words::new(Some(text));
    while let Some(word) = words.next() {
        if is_before(word) {
            return Form::Before;
        }
        if is_arrow(word) {
            return Form::Implies;
        }
    }
    Form::Implies
}

/// Whether `throughout` may stand in front of a claim of the form.
pub(crate) fn may_be_throughout(form: Form) -> bool
    ensures { result ≡ may_be_throughout form }
{
    !matches!(form, Form::Possible | Form::Before)
}

/// The side on which the facts of a claim begin.
pub(crate) fn side_of(form: Form) -> Side
    ensures { result ≡ side_of form }
{
    match form {
        Form::Never | Form::Possible => Side::Ands,
        Form::Always => Side::Ors,
        Form::Implies => Side::Left,
        Form::Before => Side::First,
    }
}

/// Whether the word is no mark, or one of its side.
fn mark_fits(side: Side, word: &[u8]) -> bool
    ensures { result ≡ mark_fits side word.now }
{
    match side {
        Side::Ands => !is_or(word) && !is_middle(word),
        Side::Left => !is_or(word) && !is_before(word),
        Side::Ors => !is_and(word) && !is_middle(word),
        Side::First => !is_and(word) && !is_or(word) && !is_arrow(word),
        Side::Alone => !is_mark(word),
    }
}

/// The side of what stands behind the word.
fn side_behind(side: Side, word: &[u8]) -> Side
    ensures { result ≡ side_behind side word.now }
{
    match side {
        Side::Ands => Side::Ands,
        Side::Left => {
            if is_arrow(word) {
                Side::Ors
            } else {
                Side::Left
            }
        }
        Side::Ors => Side::Ors,
        Side::First => {
            if is_before(word) {
                Side::Alone
            } else {
                Side::First
            }
        }
        Side::Alone => Side::Alone,
    }
}

/// Whether the mark between both sides has to come.
fn is_left(side: Side) -> bool
    ensures { result ≡ is_left side }
{
    matches!(side, Side::Left | Side::First)
}

/// Whether each mark is one of its side, and there is one between both sides where there should be.
pub(crate) fn marks_fit(side: Side, facts: Option<&[u8]>) -> bool
    ensures { result ≡ marks_fit side (words_behind (option_copied facts.entry)) }
{
    let mut words = Words::new(facts);
    let mut here = side;
    while let Some(word) = words.next() {
        if !mark_fits(here, word) {
            return false;
        }
        here = side_behind(here, word);
    }
    !is_left(here)
}

/// Whether no more facts stand on a side than may. So many may come on the first.
pub(crate) fn are_few(more: u8, facts: Option<&[u8]>) -> bool
    ensures { result ≡ are_few more (words_behind (option_copied facts.entry)) }
{
    let mut words = Words::new(facts);
    let mut left = more;
    while let Some(word) = words.next() {
        if is_middle(word) {
            left = 3;
        } else if is_mark(word) {
            if left == 0 {
                return false;
            }
            left -= 1;
        }
    }
    true
}

/// The form of a claim, and what stands behind the word that tells it.
#[tactic(auto, using(crate::proofs::Cuts::cut_parts))]
pub(crate) fn split_form(text: &[u8]) -> (Form, Option<&[u8]>)
    ensures form { result.0 ≡ form_in (words text.now) }
    ensures facts { words_behind (option_copied result.1) ≡ facts_of (words text.now) }
{
    let (word, rest) = cut(b' ', text);
    match form_of(word) {
        Form::Implies => (form_by_mark(text), Some(text)),
        form => (form, rest),
    }
}
