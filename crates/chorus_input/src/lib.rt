//! The whole input of a word of the program.
//!
//! [`read_input`] reads a source to its end, as [`read_all`] does, and lets nothing hide a fault: bytes, and want of memory, are told
//! only where the source's count of faults did not rise meanwhile.

#![tactic(auto)]

ghost use Rattle.std.specs.Prelude.{◌≡◌, ◌≢◌, ℕ, List, IfOk, IfErr, Err};
ghost use Rattle.chorus_io.specs.Bytes.{IsReadWhole, StopsBy};
ghost use Rattle.chorus_io.specs.Count.{Rose};

use chorus_io::{ReadAll, Source, read_all};
use std::alloc::Global;

/// Reads the source, which is the input of a word of the program, to its end. `TooLong` comes exactly where `limit + 1`
/// bytes were read, `Fault` only where the source's count of faults rose in this call, and bytes or `Memory` only where
/// it did not. At each answer the source has given the bytes that were read.
pub fn read_input<S: Source>(
    alloc: Global,
    source: &mut S,
    limit: usize,
) -> Result<Vec<u8>, ReadAll>
    ensures read { IfOk result (λ v.
        IsReadWhole limit v.items (S.left source.old) (S.left source.new)) }
    ensures stopped { IfErr result (λ cause. (bytes : List ℕ)
        × StopsBy cause limit bytes (S.left source.old) (S.left source.new)) }

    ensures fault { result ≡ Err ReadAll.Fault →
        Rose (S.faults source.old) (S.faults source.new) }
    ensures steady { result ≢ Err ReadAll.Fault → result ≢ Err ReadAll.TooLong →
        S.faults source.new ≡ S.faults source.old }
    ensures reliable { S.reliable source.old → S.faults source.new ≡ S.faults source.old }
{
    let before = source.faults();
    match read_all(alloc, source, limit) {
        Err(ReadAll::TooLong) => Err(ReadAll::TooLong),
        read if source.faults() == before => read,
        _ => Err(ReadAll::Fault),
    }
}
