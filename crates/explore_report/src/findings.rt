//! The outcomes that were found, each once.

ghost use Rattle.std.specs.Prelude.{◌≡◌, ◌≢◌, ◌<◌, ◌+◌, ◌-◌, ◌^◌, min, [], length, slice_index_or, true, false, IfSome, OnOk, OnErr, IsNone, reverse};
ghost use Rattle.std.specs.List.{All};
ghost use Rattle.explore_report.specs.declared.findings.Finding.{Finding};
ghost use Rattle.explore_report.specs.Findings.{Counts, HaveSums, shorter, sum_from};

use law_explore::Move;
use std::alloc::{AllocError, Global};

/// An outcome, how many of the histories that were counted come to it, and one of these, than which none is shorter.
#[derive(Drop)]
pub struct Finding {
    /// The lines of its facts.
    pub text: Vec<u8>,
    /// The sum of the lines, by which they are looked for.
    sum: u64,
    /// How many of the histories that were counted come to it; 2^64 - 1 where they are more.
    pub histories: u64,
    /// The first history that came to it of those that have the fewest moves, its moves in order.
    pub moves: Vec<Move>,
}

impl Finding {
    /// Whether these are the lines of the found outcome, where this is their sum.
    fn has(&self, text: &[u8], sum: u64) -> bool
        requires own { self.now.sum ≡ sum_from 0 self.now.text.items }
        requires sum { sum ≡ sum_from 0 text.now }
        ensures yes { result ≡ true → self.now.text.items ≡ text.now }
        ensures no { result ≡ false → self.now.text.items ≢ text.now }
    {
        if self.sum != sum {
            return false;
        }
        self.text.as_slice() == text
    }

    /// Counts so many histories more that come to the outcome, one of them these moves in order. An error, want of memory, leaves
    /// the outcome as it was.
    fn count(&mut self, alloc: Global, moves: &[Move], number: u64) -> Result<(), AllocError>
        ensures text { (self.new.text ≡ self.old.text) × (self.new.sum ≡ self.old.sum) }
        ensures histories { OnOk result
            (self.new.histories ≡ min (self.old.histories + number) (2 ^ 64 - 1)) }
        ensures moves { OnOk result (reverse self.new.moves.items
            ≡ shorter (reverse moves.now) (reverse self.old.moves.items)) }
        ensures kept { OnErr result (self.new ≡ self.old) }
    {
        if moves.len() < self.moves.len() {
            self.moves = Vec::from_slice(alloc, moves)?;
        }
        self.histories = self.histories.saturating_add(number);
        Ok(())
    }
}

/// The outcomes in the order in which they were found.
#[derive(Drop)]
pub struct Findings {
    /// No two have the same lines.
    pub items: Vec<Finding>,
}

impl Findings {
    /// The findings at first: nothing was found yet.
    pub fn new(alloc: Global) -> Findings
        ensures { result.items.items ≡ [] }
    {
        Findings {
            items: Vec::new(alloc),
        }
    }

    /// Counts so many histories, one of them these moves in order, that come to the outcome of these lines; 2^64 - 1
    /// stands for more. The only error is want of memory.
    pub fn add(
        &mut self,
        alloc: Global,
        text: Vec<u8>,
        moves: &[Move],
        number: u64,
    ) -> Result<(), AllocError>
        requires { HaveSums self.old.items.items }
        ensures counts { OnOk result (Counts text.items (reverse moves.now) number
            self.old.items.items self.new.items.items) }
        ensures sums { OnOk result (HaveSums self.new.items.items) }
    {
        let sum = sum_of(&text);
        match self.position(&text, sum) {
            Some(index) => {
                self.items[index].count(alloc, moves, number)?;
            }
            None => {
                let moves = Vec::from_slice(alloc, moves)?;
                self.items.reserve(1)?;
                self.items.push_reserved(Finding {
                    text,
                    sum,
                    histories: number,
                    moves,
                });
            }
        }
        Ok(())
    }

    /// Where among the findings the outcome of these lines stands, of which this is the sum.
    fn position(&self, text: &[u8], sum: u64) -> Option<usize>
        requires sums { HaveSums self.now.items.items }
        requires sum { sum ≡ sum_from 0 text.now }
        ensures some { IfSome result (λ index. (index < length self.now.items.items)
            × ((d : Finding) →
            (slice_index_or self.now.items.items index d).text.items ≡ text.now)) }
        ensures none { IsNone result
            → All (λ (f : Finding). f.text.items ≢ text.now) self.now.items.items }
    {
        for index in 0..self.items.len() {
            if self.items[index].has(text, sum) {
                return Some(index);
            }
        }
        None
    }
}

/// A sum of an outcome's bytes in which their places count, by which its finding is looked for.
fn sum_of(text: &[u8]) -> u64
    ensures { result ≡ sum_from 0 text.now }
{
    let mut sum: u64 = 0;
    for byte in text {
        sum = sum.wrapping_mul(31).wrapping_add(u64::from(*byte));
    }
    sum
}
