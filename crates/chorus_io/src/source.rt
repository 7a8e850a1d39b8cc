//! Where bytes come from.
ghost use Rattle.std.specs.Prelude.{◌≡◌, ℕ, ◌≤◌, List, Option, None, OnErr};
ghost use Rattle.std.specs.Io.{ReadsAtMost};
ghost use Rattle.std.specs.Io.KnownBytes.{ReadConsumes};
ghost use Rattle.chorus_io.specs.Count.{Rose};

use crate::Failed;

/// Bytes to be read, and a count of faults.
pub trait Source {
    /// The bytes left, or `None` where the source doesn't tell them.
    ghost left: { Self → Option (List ℕ) } = { λ _. None };

    /// The count of faults, at most 2^64 - 1.
    ghost faults: { Self → ℕ };

    /// No read will fail, where the source tells that.
    ghost reliable: { Self → Type 0 } = { λ _. ⊥ };

    /// Gives the next bytes, at most as many as the buffer holds, at its front, and says how many. `Ok(0)` on a buffer
    /// that isn't empty is the end of the input. `Failed` gives nothing and comes only where the count rose.
    fn read(&mut self, buf: &mut [u8]) -> Result<usize, Failed>
        ensures at_most { ReadsAtMost result buf.new }
        ensures front { ReadConsumes (left self.old) (left self.new) result buf.new }

        ensures failed { OnErr result (Rose (faults self.old) (faults self.new)) }
        ensures never_falls { faults self.old ≤ faults self.new }
        ensures reliable { reliable self.old →
            reliable self.new × (faults self.new ≡ faults self.old) };

    /// How many faults there were. The count never falls, and stays at 2^64 - 1.
    fn faults(&self) -> u64
        ensures { result ≡ faults self.now };
}
