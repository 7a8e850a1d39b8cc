//! Counts that stop at the end of their type.
ghost use Rattle.std.specs.Prelude.{◌≡◌};
ghost use Rattle.chorus_io.specs.Count.{raised};

/// A count of calls or of faults with one more. At 2^64 - 1 the count stays.
pub(crate) fn raise(count: u64) -> u64
    ensures { result ≡ raised count }
{
    count.saturating_add(1)
}
