//! The end that chunks are put into.
ghost use Rattle.std.specs.Prelude.{◌≡◌, ◌-◌, ◌^◌, ◌<◌, ◌≤◌, ◌↔◌, length, IsSome, IfOk, IfErr, OnOk, MatchResult, SomeIff, IsTrue};
ghost use Rattle.chorus_transport.specs.Window.{IsWindow};
ghost use Rattle.chorus_transport.specs.Sending.{new_sending, next_number, has_room, Refuses, after_put, emitted, answer_to, after_ack};

use crate::chunk::Chunk;
use crate::window_limit::is_window;
use std::alloc::{AllocError, AllocFailed, Global};
use std::collections::VecDeque;
use std::marker::Model;
use thiserror::Error;

/// Why a chunk was not put. It comes back with the refusal, and the sender is unchanged.
#[derive(Clone, Copy, Debug, PartialEq, Eq, Error)]
pub enum PutFault {
    /// As many chunks are kept as the window is wide: those from `base` to `next - 1`.
    #[error("the window is full, with {base} acknowledged and {next} put")]
    WindowFull { base: u64, next: u64 },
    /// There is no memory to keep it.
    #[error("out of memory")]
    Memory(AllocError),
}

/// What an acknowledgement did.
#[derive(Clone, Copy, Debug, PartialEq, Eq)]
pub enum Acked {
    /// It acknowledged this many chunks more, at least one.
    Moved { by: u64 },
    /// All that it acknowledges was acknowledged before.
    Old,
    /// It acknowledges what was never put.
    Beyond,
}

/// The end that chunks are put into. It keeps each until it is acknowledged, and at most as many as its window is wide.
#[derive(Drop)]
pub struct Sender {
    window: u16,
    base: u64,
    kept: VecDeque<Chunk>,
}

impl Model for Sender {
    ghost use Rattle.chorus_transport.specs.Sending.{Sending, IsInOrder};

    ghost Value = { Sending };

    ghost view = { λ s. record { window = s.window; base = s.base; kept = s.kept.items } };

    ghost invariant = { λ s. IsInOrder s.window s.base s.kept.items };
}

impl Sender {
    /// A sender that keeps at most `window` chunks; `None` exactly outside 1 to 64. Takes no memory.
    pub fn new(alloc: Global, window: u16) -> Option<Self>
        ensures { SomeIff result (IsWindow window) (new_sending window) }
    {
        if !is_window(window) {
            return None;
        }
        Some(Sender {
            window,
            base: 0,
            kept: VecDeque::new(alloc),
        })
    }

    /// How many chunks of the sender were acknowledged: the number of the first that is kept.
    pub fn base(&self) -> u64
        ensures { result ≡ self.now.base }
    {
        self.base
    }

    /// How many chunks were put into the sender: the number of the next.
    pub fn next(&self) -> u64
        ensures value { result ≡ next_number self.now }
        // It keeps at most a window of chunks.
        ensures kept { length self.now.kept ≤ self.now.window }
    {
        self.base + self.kept.len() as u64
    }

    /// Keeps a chunk under the number [`next`](Self::next), which is to be below 2^64 - 1.
    ///
    /// A refusal hands the chunk back and changes nothing.
    pub fn put(&mut self, chunk: Chunk) -> Result<(), (Chunk, PutFault)>
        requires { next_number self.old < 2 ^ 64 - 1 }
        ensures ok { OnOk result (self.new ≡ after_put self.old chunk) }
        ensures cause { MatchResult result (λ _. IsTrue (has_room self.old))
            (λ refusal. Refuses self.old refusal.1) }
        ensures err { IfErr result (λ refusal. (refusal.0 ≡ chunk) × (self.new ≡ self.old)) }
    {
        if self.kept.len() == self.window as usize {
            let full = PutFault::WindowFull {
                base: self.base,
                next: self.next(),
            };
            return Err((chunk, full));
        }
        match self.kept.push_back(chunk) {
            Ok(()) => Ok(()),
            Err(AllocFailed { value }) => Err((value, PutFault::Memory(AllocError))),
        }
    }

    /// A copy of the sender's chunk of that number; `None` exactly outside `base` to `next - 1`.
    pub fn emit(&self, alloc: Global, number: u64) -> Result<Option<Chunk>, AllocError>
        ensures copy { IfOk result (λ chunk. chunk ≡ emitted self.now number) }
        ensures range { IfOk result
            (λ chunk. IsSome chunk ↔ ((self.now.base ≤ number) × (number < next_number self.now))) }
    {
        if number < self.base {
            return Ok(None);
        }
        match self.kept.get((number - self.base) as usize) {
            Some(chunk) => Ok(Some(Chunk::new(alloc, chunk.bytes())?)),
            None => Ok(None),
        }
    }

    /// Takes the acknowledgement of all chunks below `upto`, and lets them go. Only `Moved` changes something.
    pub fn acked(&mut self, upto: u64) -> Acked
        ensures answer { result ≡ answer_to self.old upto }
        ensures after { self.new ≡ after_ack self.old upto }
    {
        if upto <= self.base {
            return Acked::Old;
        }
        let by = upto - self.base;
        if by > self.kept.len() as u64 {
            return Acked::Beyond;
        }
        self.kept.drain(..by as usize);
        self.base = upto;
        Acked::Moved { by }
    }
}
