//! What was found of claims: of each the first history that does not meet it.

ghost use Rattle.std.specs.Prelude.{◌≡◌, ℕ, List, [], reverse, true, false, OnOk, IfOk, map, None};
ghost use Rattle.std.specs.List.{All};
ghost use Rattle.law_explore.specs.declared.moves.Move.{Move};
ghost use Rattle.explore_report.specs.declared.judgements.Judgement.{Judgement};
ghost use Rattle.explore_report.specs.Judgements.{AreJudged, Judges, JudgesAll, JudgesAt, KeepFirst, has_failed, unmet_at, unmet_in, unmet_with};

use chorus_claims::{Claim, meets};
use law_explore::Move;
use std::alloc::{AllocError, Global};

/// What was found of a claim, by the histories that it was asked of.
#[derive(Drop)]
pub enum Judgement {
    /// All of them meet it.
    Met,
    /// One does not: the first that came.
    Failed {
        /// Its moves, in order.
        moves: Vec<Move>,
        /// The lines that it comes to.
        text: Vec<u8>,
    },
}

impl Judgement {
    /// Whether a history does not meet the claim.
    pub fn has_failed(&self) -> bool
        ensures { result ≡ has_failed self.now }
    {
        match self {
            Judgement::Met => false,
            Judgement::Failed { .. } => true,
        }
    }

    /// Judges the claim by histories that come to these lines, one of them these moves in order; a claim that failed is not
    /// asked again. The only error is want of memory.
    fn judge(
        &mut self,
        alloc: Global,
        claim: &Claim,
        text: &[u8],
        moves: &[Move],
    ) -> Result<(), AllocError>
        ensures judges { OnOk result
            (Judges claim.now text.now (reverse moves.now) self.old self.new) }
        ensures keeps { OnOk result (unmet_in self.new
            ≡ unmet_with claim.now text.now (reverse moves.now) (unmet_in self.old)) }
    {
        if self.has_failed() {
            return Ok(());
        }
        if meets(claim, text) {
            return Ok(());
        }
        let moves = Vec::from_slice(alloc, moves)?;
        let text = Vec::from_slice(alloc, text)?;
        *self = Judgement::Failed { moves, text };
        Ok(())
    }

    /// The same at a moment, behind which nothing may come where it is an end: else a claim is judged only where it is asked at
    /// each moment.
    fn judge_at(
        &mut self,
        alloc: Global,
        claim: &Claim,
        is_end: bool,
        text: &[u8],
        moves: &[Move],
    ) -> Result<(), AllocError>
        ensures judges { OnOk result (JudgesAt is_end claim.now text.now (reverse moves.now)
            self.old self.new) }
        ensures keeps { OnOk result (unmet_in self.new
            ≡ unmet_at is_end claim.now text.now (reverse moves.now) (unmet_in self.old)) }
    {
        if !is_end && !claim.is_throughout() {
            return Ok(());
        }
        self.judge(alloc, claim, text, moves)
    }

    /// Whether the claim is still to be asked at moments that are no ends.
    fn wants_moments(&self, claim: &Claim) -> bool
        ensures judges { result ≡ false → (text : List ℕ) (h : List Move) →
            JudgesAt false claim.now text h self.now self.now }
        ensures keeps { result ≡ false → (text : List ℕ) (h : List Move) →
            unmet_in self.now ≡ unmet_at false claim.now text h (unmet_in self.now) }
    {
        claim.is_throughout() && !self.has_failed()
    }
}

/// What was found of the claims at first: no history was looked at.
pub fn not_yet_judged(alloc: Global, claims: &[Claim]) -> Result<Vec<Judgement>, AllocError>
    ensures judged { IfOk result (λ judged. (comes : List Move → List ℕ) →
        AreJudged comes [] [] claims.now judged.items) }
    ensures none { IfOk result (λ judged. All (λ (j : Judgement). unmet_in j ≡ None) judged.items) }
{
    let mut judged = Vec::new(alloc);
    for _claim in claims {
        judged.push(Judgement::Met)?;
    }
    Ok(judged)
}

/// Judges each of the claims by histories that come to these lines, one of them these moves in order, and behind which nothing may
/// come where they are ends; what was found of each stands at its place. The only error is want of memory.
pub fn judge_all(
    alloc: Global,
    claims: &[Claim],
    is_end: bool,
    text: &[u8],
    moves: &[Move],
    judged: &mut Vec<Judgement>,
) -> Result<(), AllocError>
    ensures judges { OnOk result (JudgesAll is_end claims.now text.now (reverse moves.now)
        judged.old.items judged.new.items) }
    ensures keeps { OnOk result (KeepFirst is_end claims.now text.now (reverse moves.now)
        judged.old.items judged.new.items) }
{
    for index in 0..claims.len().min(judged.len()) {
        judged[index].judge_at(alloc, &claims[index], is_end, text, moves)?;
    }
    Ok(())
}

/// Whether one of the claims is still to be asked at moments that are no ends. Where none is, such a moment need not be told.
pub fn want_moments(claims: &[Claim], judged: &[Judgement]) -> bool
    ensures judges { result ≡ false → (text : List ℕ) (h : List Move) →
        JudgesAll false claims.now text h judged.now judged.now }
    ensures keeps { result ≡ false → (text : List ℕ) (h : List Move) →
        KeepFirst false claims.now text h judged.now judged.now }
{
    for index in 0..claims.len().min(judged.len()) {
        if judged[index].wants_moments(&claims[index]) {
            return true;
        }
    }
    false
}

/// Whether there are claims, and each of them has failed.
pub fn have_all_failed(judged: &[Judgement]) -> bool
    ensures { result ≡ true → All (λ (j : Judgement). has_failed j ≡ true) judged.now }
{
    for judgement in judged {
        if !judgement.has_failed() {
            return false;
        }
    }
    !judged.is_empty()
}
