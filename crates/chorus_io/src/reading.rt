//! The whole input.
ghost use Rattle.std.specs.Prelude.{◌≡◌, ◌≤◌, ℕ, List, IfSome, IfOk, IfErr, IsErrOf};
ghost use Rattle.chorus_io.specs.declared.reading.ReadAll.TheVariants.{Fault, Memory};
ghost use Rattle.chorus_io.specs.Count.{Rose};
ghost use Rattle.chorus_io.specs.Bytes.{IsReadWhole, StopsBy};

use crate::{Failed, Source};
use std::alloc::{AllocError, Global};
use thiserror::Error;

// The most bytes that one read asks for: what a pipe holds.
const CHUNK: usize = 65_536;

/// Why there is no whole input. The source has given the bytes that were read.
#[derive(Clone, Copy, Debug, PartialEq, Eq, Error)]
pub enum ReadAll {
    /// A read failed.
    #[error("a read failed")]
    Fault,
    /// The input has more bytes than the limit.
    #[error("the input is too long")]
    TooLong,
    /// There is no memory for the bytes.
    #[error(transparent)]
    Memory(AllocError),
}

impl From<Failed> for ReadAll {
    ghost from_gives = { λ _ e. e ≡ Fault };

    fn from(_: Failed) -> Self {
        ReadAll::Fault
    }
}

impl From<AllocError> for ReadAll {
    ghost from_gives = { λ x e. e ≡ Memory x };

    fn from(error: AllocError) -> Self {
        ReadAll::Memory(error)
    }
}

/// The whole input, read to its end. `TooLong` comes exactly where `limit + 1` bytes were read, `Fault` only where the
/// source's count of faults rose in this call. At each answer the source has given the bytes that were read.
pub fn read_all<S: Source>(alloc: Global, source: &mut S, limit: usize) -> Result<Vec<u8>, ReadAll>
    ensures whole { IfOk result (λ v. IfSome (S.left source.old) (λ input. v.items ≡ input)) }
    ensures read { IfOk result (λ v.
        IsReadWhole limit v.items (S.left source.old) (S.left source.new)) }
    ensures stopped { IfErr result (λ cause. (bytes : List ℕ)
        × StopsBy cause limit bytes (S.left source.old) (S.left source.new)) }

    ensures fault { IsErrOf result ReadAll.Fault →
        Rose (S.faults source.old) (S.faults source.new) }
    ensures never_falls { S.faults source.old ≤ S.faults source.new }
    ensures reliable { S.reliable source.old →
        S.reliable source.new × (S.faults source.new ≡ S.faults source.old) }
{
    let mut bytes = Vec::new(alloc);
    let mut chunk = [0u8; CHUNK];
    loop {
        let room = limit - bytes.len();
        let most = room.min(CHUNK - 1) + 1;
        let n = source.read(&mut chunk[..most])?;
        if n == 0 {
            return Ok(bytes);
        }
        if n > room {
            return Err(ReadAll::TooLong);
        }
        bytes.extend_from_slice(&chunk[..n])?;
    }
}
