//! What is carried: some bytes.
ghost use Rattle.std.specs.Prelude.{◌≡◌, ℕ, List, IfOk};

use std::alloc::{AllocError, Global};
use std::marker::Model;

/// Bytes that are carried as one.
#[derive(Drop)]
pub struct Chunk {
    bytes: Vec<u8>,
}

// Clauses see the bytes.
impl Model for Chunk {
    ghost Value = { List ℕ };

    ghost view = { λ c. c.bytes.items };
}

impl Chunk {
    /// A chunk with these bytes.
    pub fn new(alloc: Global, bytes: &[u8]) -> Result<Self, AllocError>
        ensures { IfOk result (λ chunk. chunk ≡ bytes.now) }
    {
        Ok(Chunk {
            bytes: Vec::from_slice(alloc, bytes)?,
        })
    }

    /// The bytes of the chunk.
    pub fn bytes(&self) -> &[u8]
        ensures { result.now ≡ self.now }
    {
        &self.bytes
    }
}
