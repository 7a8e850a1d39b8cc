//! A bell: one caller waits, and others ring.
ghost use Rattle.std.specs.Prelude.{◌≡◌, ◌+◌, ◌++◌, ◌∷◌, [], length, IfOk};
ghost use Rattle.chorus_nucleus.specs.Passes.{known};
ghost use Rattle.chorus_choose.specs.Bells.{notes_of, ringer_bell, waiter_bell, waits_of};

use crate::bell_ends::{Ringer, Waiter};
use crate::rule::{BellCounts, Made, Rings, Tokens, Waits};
use chorus_nucleus::Pass as Caller;
use crossbeam_utils::sync::parker::{Pass, RuledParker};
use std::alloc::{AllocError, Global};
use std::marker::Brand;
use std::sync::Wait;

/// A bell that nobody has rung. The only error is want of memory.
pub fn bell(alloc: Global) -> Result<(Ringer, Waiter), AllocError>
    ensures { IfOk result (λ b. (ringer_bell b.0 ≡ waiter_bell b.1) × (waits_of b.1 ≡ 0)) }
{
    let (parker, pass): (RuledParker<BellCounts, Tokens>, Pass<BellCounts>) = RuledParker::ruled(
        alloc,
    )?;
    let unparker = parker.unparker().clone()?;
    Ok((Ringer { unparker }, Waiter { parker, pass }))
}

impl Ringer {
    /// Puts a token into the bell, unless one is there, and wakes the caller that waits. So two rings may end one wait
    /// alone. Takes no memory. No clause says that it does so, since nothing of the caller's changes.
    pub fn ring(&self) {
        let mut pass = self.unparker.pass();
        self.unparker.unpark_as::<Rings>(&mut pass);
    }
}

impl Waiter {
    /// Takes the token that a ring put into the bell, and waits for one where none is there: each token is taken once.
    pub fn wait<R: Wait>(&mut self, rt: &R)
        ensures bell { waiter_bell self.new ≡ waiter_bell self.old }
        ensures taken { waits_of self.new ≡ waits_of self.old + 1 }
    {
        self.parker.park_as::<Waits<Brand>, R>(rt, &mut self.pass);
    }

    /// The same, and how much the pass has made before is noted.
    pub(crate) fn wait_behind<R: Wait>(&mut self, rt: &R, pass: &Caller)
        ensures bell { waiter_bell self.new ≡ waiter_bell self.old }
        ensures noted { notes_of self.new ≡ notes_of self.old ++ (length (known pass.now).mine ∷ []) }
    {
        self.wait_noting::<Brand, R>(rt, pass);
    }

    fn wait_noting<X: Made, R: Wait>(&mut self, rt: &R, _pass: &Caller)
        ensures bell { waiter_bell self.new ≡ waiter_bell self.old }
        ensures noted { notes_of self.new ≡ notes_of self.old ++ (X.made ∷ []) }
    {
        self.parker.park_as::<Waits<X>, R>(rt, &mut self.pass);
    }
}
