//! The claims.

ghost use Rattle.std.specs.Prelude.{◌≡◌, true, OnOk, IfErr, MatchOption, Ok, Err};
ghost use Rattle.std.specs.Option.{option_copied};
ghost use Rattle.chorus_scene.specs.Grammar.{judge_line, after, is_claimed};
ghost use Rattle.chorus_scene.specs.Line.{ClaimLine};
ghost use Rattle.chorus_lines.specs.Words.{may_stand};
ghost use Rattle.chorus_scene.specs.Reader.{Gives, Stands, IsMemory, read_with, state_of, scene_of};

use crate::limits::CLAIMS_LIMIT;
use crate::reader::Reader;
use crate::scenario::ClaimText;
use chorus_claims::fault_of;
use chorus_lines::fields::all;
use chorus_lines::{Reason, Section, Stop, Word};
use std::alloc::Global;

impl Reader {
    /// Reads the line `claim CLAIM`, behind which no further script may begin.
    pub(crate) fn claim_line(&mut self, alloc: Global, rest: Option<&[u8]>) -> Result<(), Stop>
        requires stands { Stands self.old }
        requires may { may_stand self.old.section Word.Claim ≡ true }
        ensures gives { Gives (state_of self.new) result
            (read_with self.old Word.Claim (option_copied rest.entry)) }
        ensures stands { OnOk result (Stands self.new) }
    {
        let Some(text) = all(rest) else {
            return Err(Stop::Fault(Reason::Word));
        };
        if let Some(reason) = self.claim_fault(text) {
            return Err(Stop::Fault(reason));
        }
        self.push_claim(alloc, text)
    }

    /// Why a claim is refused that is spelled so, by the first test that it fails: it is none of the scenario, it is one too many, or
    /// an earlier line has the same.
    fn claim_fault(&self, text: &[u8]) -> Option<Reason>
        requires stands { Stands self.now }
        ensures { MatchOption result
            (judge_line (scene_of self.now) (ClaimLine text.now) ≡ Ok (ClaimLine text.now))
            (λ reason. judge_line (scene_of self.now) (ClaimLine text.now) ≡ Err reason) }
    {
        let fault = fault_of(self.sites as u8, self.counts.as_slice(), text);
        if let Some(Reason::Word | Reason::Number | Reason::Limit) = fault {
            return fault;
        }
        if self.claims.len() >= CLAIMS_LIMIT {
            return Some(Reason::Limit);
        }
        if fault.is_some() {
            return Some(Reason::Unknown);
        }
        if self.is_claimed(text) {
            return Some(Reason::Twice);
        }
        None
    }

    /// Whether an earlier line has the claim that is spelled so.
    fn is_claimed(&self, text: &[u8]) -> bool
        ensures { result ≡ is_claimed text.now (scene_of self.now).claims }
    {
        self.claims.iter().any(|claim| text == claim.text())
    }

    /// Puts the claim behind the others; the only error is want of memory.
    fn push_claim(&mut self, alloc: Global, text: &[u8]) -> Result<(), Stop>
        requires stands { Stands self.old }
        requires may { may_stand self.old.section Word.Claim ≡ true }
        ensures ok { OnOk result
            (state_of self.new ≡ after (state_of self.old) (ClaimLine text.now)) }
        ensures stands { OnOk result (Stands self.new) }
        ensures memory { IfErr result IsMemory }
    {
        let claim = ClaimText::new(alloc, text)?;
        self.claims.push(claim)?;
        self.section = Section::Claims;
        Ok(())
    }
}
