//! A claim that was read.

ghost use Rattle.std.specs.Prelude.{◌≡◌, Bool, IfOk, List, ◌∷◌};
ghost use Rattle.std.specs.Option.{option_copied};
ghost use Rattle.chorus_claims.specs.Words.{words, words_behind, is_throughout, asked_text, long_form};
ghost use Rattle.chorus_claims.specs.Shapes.{asked_by, claim_of, claim_of_words, form_in, facts_of};

use crate::form::{Form, split_form};
use crate::words::{long_form, split_throughout};
use std::alloc::{AllocError, Global};
use std::marker::Model;

/// What a user claims of a protocol: that where all facts on its left are so, one on its right is. In contracts it is that: the facts
/// of both sides, whether it is asked at each moment, and whether it is to be shown that it can happen.
#[derive(Drop)]
pub struct Claim {
    /// Whether `throughout` stands in front of it.
    throughout: bool,
    /// Its long form.
    text: Vec<u8>,
}

impl Model for Claim {
    ghost use Rattle.chorus_claims.specs.Words.{words};
    ghost use Rattle.chorus_claims.specs.Shapes.{asked_by, claim_of_words};
    ghost use Rattle.chorus_claims.specs.Pieces.{Claim};

    ghost Value = { Claim };

    ghost view = { λ claim. asked_by claim.throughout (claim_of_words (words claim.text.items)) };
}

impl Claim {
    /// Its long form.
    pub(crate) fn text(&self) -> &[u8]
        ensures { (b : Bool) × (asked_by b (claim_of_words (words result.now)) ≡ self.now) }
    {
        &self.text
    }

    /// Whether it is asked at each moment of a schedule, and not at its end alone.
    pub fn is_throughout(&self) -> bool
        ensures { result ≡ self.now.throughout }
    {
        let (form, _) = split_form(&self.text);
        self.throughout || matches!(form, Form::Before)
    }

    /// Whether it is `possible ..`: then it is kept as `never ..`, and what fails that shows what is to be shown.
    pub fn is_possible(&self) -> bool
        ensures { result ≡ self.now.possible }
    {
        let (form, _) = split_form(&self.text);
        matches!(form, Form::Possible)
    }
}

/// What the text that stands behind `claim` claims. Of a text that is none, which [`fault_of`](crate::fault_of) tells, this may be anything.
#[tactic(auto, unfolding(crate::specs::Shapes::claim_of))]
pub fn read_claim(alloc: Global, text: &[u8]) -> Result<Claim, AllocError>
    ensures { IfOk result (λ claim. claim ≡ claim_of text.now) }
{
    let (throughout, asked) = split_throughout(text);
    let mut copy = Vec::new(alloc);
    copy.extend_from_slice(long_form(asked))?;
    Ok(Claim {
        throughout,
        text: copy,
    })
}
