//! The faults of a source or a sink in memory.
ghost use Rattle.std.specs.Prelude.{◌≡◌, ◌↔◌, IsErr, is_ok};
ghost use Rattle.chorus_io.specs.Memory.{fresh, after_call, FailsNext};
ghost use Rattle.chorus_io.specs.Count.{raised};

use crate::Failed;
use crate::count::raise;
use std::marker::Model;

/// Which calls fail, by their numbers from 1, how many were made, and the count of faults.
#[derive(Drop)]
pub(crate) struct FaultPlan {
    failing: Vec<u64>,
    made: u64,
    faults: u64,
}

impl Model for FaultPlan {
    ghost use Rattle.chorus_io.specs.Memory.{Plan};

    ghost Value = { Plan };

    ghost view = { λ p. record { failing = p.failing.items; made = p.made; faults = p.faults } };
}

impl FaultPlan {
    /// No call was made yet, and the calls with these numbers, counted from 1, will fail.
    pub(crate) fn new(failing: Vec<u64>) -> Self
        ensures { result ≡ fresh failing.items }
    {
        FaultPlan {
            failing,
            made: 0,
            faults: 0,
        }
    }

    /// Counts one more call, and its fault where its number is listed. Calls past number 2^64 - 1 have that number too.
    pub(crate) fn call(&mut self) -> Result<(), Failed>
        ensures listed { IsErr result ↔ FailsNext self.old }
        ensures counted { self.new ≡ after_call self.old (is_ok result) }
    {
        self.made = raise(self.made);
        if self.failing.contains(&self.made) {
            return Err(self.fault());
        }
        Ok(())
    }

    /// Counts a fault.
    pub(crate) fn fault(&mut self) -> Failed
        ensures { self.new ≡ record self.old { faults = raised self.old.faults } }
    {
        self.faults = raise(self.faults);
        Failed
    }

    /// How many faults of this source or sink in memory were counted so far.
    pub(crate) fn faults(&self) -> u64
        ensures { result ≡ self.now.faults }
    {
        self.faults
    }
}
