//! The end that chunks are delivered from.
ghost use Rattle.std.specs.Prelude.{◌≡◌, ℕ, ◌-◌, ◌^◌, ◌<◌, false, IfOk, IfErr, OnOk, OnErr, SomeIff, IsTrue};
ghost use Rattle.chorus_transport.specs.Window.{IsWindow};
ghost use Rattle.chorus_transport.specs.Receiving.{new_receiving, is_known, answer_to, after_arrival, next_chunk, after_next, ack_of};

use crate::chunk::Chunk;
use crate::window_limit::is_window;
use crate::window_slots::{filled, is_filled, widen};
use std::alloc::{AllocError, Global};
use std::collections::VecDeque;
use std::marker::Model;

/// What was done with a chunk that arrived.
#[derive(Clone, Copy, Debug, PartialEq, Eq)]
pub enum Got {
    /// It is kept until it is delivered.
    Kept,
    /// Its number was delivered or is kept.
    Old,
    /// Its number is past the window.
    Far,
}

/// The end that chunks are delivered from, in the order of their numbers. It keeps at most as many as its window is wide.
#[derive(Drop)]
pub struct Receiver {
    window: u16,
    delivered: u64,
    /// How many of the places from the front on are filled.
    ready: usize,
    /// The window's places from the next number on, as far as a chunk came.
    places: VecDeque<Option<Chunk>>,
}

impl Model for Receiver {
    ghost use Rattle.chorus_transport.specs.Receiving.{Receiving, padded, IsInOrder};

    ghost Value = { Receiving };

    ghost view = { λ r.
        record { delivered = r.delivered; ahead = padded r.window r.places.items } };

    ghost invariant = { λ r. IsInOrder r.window r.delivered r.ready r.places.items };
}

impl Receiver {
    /// A receiver that keeps at most `window` chunks; `None` exactly outside 1 to 64. Takes no memory.
    pub fn new(alloc: Global, window: u16) -> Option<Self>
        ensures { SomeIff result (IsWindow window) (new_receiving window) }
    {
        if !is_window(window) {
            return None;
        }
        Some(Receiver {
            window,
            delivered: 0,
            ready: 0,
            places: VecDeque::new(alloc),
        })
    }

    /// Takes a chunk with its number, which is to be below 2^64 - 1.
    ///
    /// Only `Kept` changes something. For want of memory, which comes only where it would be kept, the chunk comes back.
    pub fn arrived(&mut self, number: u64, chunk: Chunk) -> Result<Got, (Chunk, AllocError)>
        requires { number < 2 ^ 64 - 1 }
        ensures answer { IfOk result (λ got. got ≡ answer_to self.old number) }
        ensures after { OnOk result (self.new ≡ after_arrival self.old number chunk) }
        ensures memory { OnErr result (answer_to self.old number ≡ Got.Kept) }
        ensures err { IfErr result (λ refusal. (refusal.0 ≡ chunk) × (self.new ≡ self.old)) }
    {
        if number < self.delivered {
            return Ok(Got::Old);
        }
        let ahead = number - self.delivered;
        if ahead >= u64::from(self.window) {
            return Ok(Got::Far);
        }
        let at = ahead as usize;
        if is_filled(&self.places, at) {
            return Ok(Got::Old);
        }
        if let Err(fault) = widen(&mut self.places, at + 1) {
            return Err((chunk, fault));
        }
        self.places[at] = Some(chunk);
        self.ready = filled(&self.places, self.ready);
        Ok(Got::Kept)
    }

    /// Delivers the next chunk in order; `None` exactly where it is not kept. Takes no memory.
    pub fn next(&mut self) -> Option<Chunk>
        ensures value { result ≡ next_chunk self.old }
        ensures after { self.new ≡ after_next self.old }
    {
        if self.ready == 0 {
            return None;
        }
        self.ready -= 1;
        self.delivered += 1;
        self.places.pop_front()?
    }

    /// What the receiver acknowledges: the least number neither delivered nor kept. Takes no memory.
    pub fn ack(&self) -> u64
        ensures value { result ≡ ack_of self.now }
        ensures known_below { (number : ℕ) → number < result → IsTrue (is_known self.now number) }
        ensures not_known { is_known self.now result ≡ false }
    {
        self.delivered + self.ready as u64
    }
}
