//! The bytes of a message.

ghost use Rattle.std.specs.Prelude.{◌≡◌, ℕ, ◌≤◌, List, length, IsOk, IfOk};
ghost use Rattle.chorus_ui.specs.declared.limits.TheConstants.{BODY_LIMIT};
ghost use Rattle.chorus_entry.specs.declared.body.TheConstants.{SHORT_LIMIT};
ghost use Rattle.chorus_entry.specs.Body.{bytes_of, IsWithin};

use std::alloc::{AllocError, Global};
use std::fmt::{self, Debug, Formatter};
use std::marker::Model;

/// The most bytes that stand in a body itself. With their number and the tag they fill the room that a `Vec` would take.
pub const SHORT_LIMIT: usize = 22;

const _: () = prove!(size_of::<Body>() == 24);

/// The bytes of a message, a contiguous string of at most 4,096, which nothing changes once it is made. Up to 22 bytes stand in it
/// and take no memory.
#[derive(Drop)]
pub struct Body {
    bytes: Bytes,
}

/// Where the bytes of a body stand.
#[derive(Drop)]
enum Bytes {
    /// Few of them are the first `len` of a room in the body itself, and take no memory.
    Short { len: u8, room: [u8; SHORT_LIMIT] },
    /// More have memory of their own, behind a box, so that a body is no larger than a `Vec`.
    Long { bytes: Box<Vec<u8>> },
}

impl Model for Body {
    ghost Value = { List ℕ };

    ghost view = { λ body. bytes_of body.bytes };

    ghost invariant = { λ body. IsWithin body.bytes };
}

impl Body {
    /// The body with these bytes, copied. Up to 22 of them take no memory.
    pub fn new(alloc: Global, bytes: &[u8]) -> Result<Body, AllocError>
        requires { length bytes.now ≤ BODY_LIMIT }
        ensures value { IfOk result (λ body. body ≡ bytes.now) }
        ensures short { length bytes.now ≤ SHORT_LIMIT → IsOk result }
    {
        let bytes = if bytes.len() <= SHORT_LIMIT {
            Bytes::short(bytes)
        } else {
            let bytes = Vec::from_slice(alloc, bytes)?;
            Bytes::Long {
                bytes: Box::new(alloc, bytes)?,
            }
        };
        Ok(Body { bytes })
    }

    /// The bytes.
    pub fn bytes(&self) -> &[u8]
        ensures bytes { result.now ≡ self.now }
        ensures within { length self.now ≤ BODY_LIMIT }
    {
        match &self.bytes {
            Bytes::Short { len, room } => &room[..usize::from(*len)],
            Bytes::Long { bytes } => bytes.as_slice(),
        }
    }

    /// The same bytes again. Up to 22 of them take no memory.
    pub fn copied(&self) -> Result<Body, AllocError>
        ensures value { IfOk result (λ body. body ≡ self.now) }
        ensures short { length self.now ≤ SHORT_LIMIT → IsOk result }
    {
        let bytes = match &self.bytes {
            Bytes::Short { len, room } => Bytes::Short {
                len: *len,
                room: *room,
            },
            Bytes::Long { bytes } => Bytes::Long {
                bytes: bytes.clone()?,
            },
        };
        Ok(Body { bytes })
    }
}

impl Bytes {
    /// These few bytes, in a room in the body itself.
    fn short(bytes: &[u8]) -> Bytes
        requires { length bytes.now ≤ SHORT_LIMIT }
        ensures bytes { bytes_of result ≡ bytes.now }
        ensures within { IsWithin result }
    {
        let mut room = [0; SHORT_LIMIT];
        room[..bytes.len()].copy_from_slice(bytes);
        Bytes::Short {
            len: bytes.len() as u8,
            room,
        }
    }
}

impl Debug for Body {
    fn fmt<W: fmt::Write>(&self, f: &mut Formatter<W>) -> fmt::Result {
        f.debug_struct("Body")
            .field("bytes", &self.bytes())
            .finish()
    }
}

impl PartialEq for Body {
    ghost use Rattle.std.proofs.Common.{rules};
    ghost use Rattle.std.specs.Cmp.Rules.{comparing};
    ghost use Rattle.chorus_entry.specs.Body.{same_body};

    ghost eq = { same_body };

    ghost laws = { Prim.search (comparing, rules) };

    fn eq(&self, other: &Body) -> bool {
        self.bytes() == other.bytes()
    }
}

impl Eq for Body {
    ghost use Rattle.std.proofs.Common.{rules};
    ghost use Rattle.std.specs.Cmp.Rules.{comparing};

    ghost laws = { Prim.search (comparing, rules) };
}
