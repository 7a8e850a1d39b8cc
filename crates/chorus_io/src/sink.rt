//! Where bytes go.
ghost use Rattle.std.specs.Prelude.{◌≡◌, ℕ, ◌≤◌, ◌<◌, List, Option, None, length, IfOk, OnErr};
ghost use Rattle.std.specs.Io.KnownBytes.{WriteAppends};
ghost use Rattle.chorus_io.specs.Count.{Rose};

use crate::Failed;

/// Bytes that were written, and a count of faults.
pub trait Sink {
    /// The bytes held, or `None` where the sink doesn't tell them.
    ghost held: { Self → Option (List ℕ) } = { λ _. None };

    /// The count of faults, at most 2^64 - 1.
    ghost faults: { Self → ℕ };

    /// Appends a prefix of the bytes, at least one, and says how many. `Failed` appends nothing and comes only where the
    /// count rose.
    fn write(&mut self, bytes: &[u8]) -> Result<usize, Failed>
        requires { 0 < length bytes.now }
        ensures some { IfOk result (λ n. (1 ≤ n) × (n ≤ length bytes.now)) }
        ensures prefix { WriteAppends (held self.old) (held self.new) result bytes.now }

        ensures failed { OnErr result (Rose (faults self.old) (faults self.new)) }
        ensures never_falls { faults self.old ≤ faults self.new };

    /// How many faults there were. The count never falls, and stays at 2^64 - 1.
    fn faults(&self) -> u64
        ensures { result ≡ faults self.now };
}
