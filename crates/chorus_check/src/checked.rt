//! What a check came to.

ghost use Rattle.std.specs.Prelude.{◌≡◌, length};
ghost use Rattle.explore_report.specs.declared.explored.Explored.{Explored};
ghost use Rattle.chorus_explore.specs.Checked.{verdict_of, verdicts_of};
ghost use Rattle.chorus_check.specs.Words.{checked_by, checked_number, checked_of, claim_fails, first_failed, first_open, is_open};

use chorus_claims::Claim;
use explore_report::{Explored, Judgement};

/// What a check came to.
#[derive(Clone, Copy, Debug, PartialEq, Eq)]
pub enum Checked {
    /// All claims hold, or there are none.
    Holds,
    /// A claim fails: the number of the first that does, from 1.
    Fails { claim: u64 },
    /// None fails, and one is open: the number of the first that is, from 1.
    Open { claim: u64 },
}

impl Checked {
    /// The number by which a program ends whose check came to this: 0, 7 and 8.
    pub fn number(self) -> u8
        ensures { result ≡ checked_number self }
    {
        match self {
            Checked::Holds => 0,
            Checked::Fails { .. } => 7,
            Checked::Open { .. } => 8,
        }
    }
}

/// What a check of these claims comes to, of which this was found.
pub(crate) fn checked_of(claims: &[Claim], explored: &Explored) -> Checked
    requires { length explored.now.judged.items ≡ length claims.now }
    ensures { result ≡ checked_of claims.now (verdicts_of explored.now) }
{
    checked_by(first_failed(claims, explored), first_open(explored))
}

/// What a check comes to, of whose claims this is the first that fails, and this the first that is
/// open.
fn checked_by(failed: Option<u64>, undecided: Option<u64>) -> Checked
    ensures { result ≡ checked_by failed undecided }
{
    match failed {
        Some(claim) => Checked::Fails { claim },
        None => match undecided {
            Some(claim) => Checked::Open { claim },
            None => Checked::Holds,
        },
    }
}

/// The number of the first claim that fails, from 1.
fn first_failed(claims: &[Claim], explored: &Explored) -> Option<u64>
    requires { length explored.now.judged.items ≡ length claims.now }
    ensures { result ≡ first_failed 1 claims.now (verdicts_of explored.now) }
{
    for index in 0..claims.len() {
        if claim_fails(&claims[index], &explored.judged[index], explored.is_cut) {
            return Some(index as u64 + 1);
        }
    }
    None
}

/// Whether the claim fails of which this was found, by a search that was cut off or not.
fn claim_fails(claim: &Claim, judgement: &Judgement, is_cut: bool) -> bool
    ensures { (e : Explored) → e.is_cut ≡ is_cut →
        result ≡ claim_fails claim.now (verdict_of e judgement.now) }
{
    match judgement {
        Judgement::Met => claim.is_possible() && !is_cut,
        Judgement::Failed { .. } => !claim.is_possible(),
    }
}

/// The number of the first claim that is open, from 1.
fn first_open(explored: &Explored) -> Option<u64>
    ensures { result ≡ first_open 1 (verdicts_of explored.now) }
{
    for index in 0..explored.judged.len() {
        if is_open(&explored.judged[index], explored.is_cut) {
            return Some(index as u64 + 1);
        }
    }
    None
}

/// Whether a claim is open of which this was found, by a search that was cut off or not.
fn is_open(judgement: &Judgement, is_cut: bool) -> bool
    ensures { (e : Explored) → e.is_cut ≡ is_cut →
        result ≡ is_open (verdict_of e judgement.now) }
{
    match judgement {
        Judgement::Met => is_cut,
        Judgement::Failed { .. } => false,
    }
}
