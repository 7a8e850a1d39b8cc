//! A sink in memory.
ghost use Rattle.std.specs.Prelude.{◌≡◌, ◌≤◌, ◌<◌, ◌++◌, [], min, length, take, IsErr, is_ok, IfOk, OnErr, Some};
ghost use Rattle.chorus_io.specs.Memory.{fresh, after_call, FailsNext};

use crate::fault_plan::FaultPlan;
use crate::{Failed, Sink};
use std::alloc::Global;
use std::marker::Model;

/// The bytes that were written, and which writes fail.
#[derive(Drop)]
pub struct MemSink {
    bytes: Vec<u8>,
    most: usize,
    plan: FaultPlan,
}

impl Model for MemSink {
    ghost use Rattle.std.specs.Prelude.{◌≤◌};
    ghost use Rattle.chorus_io.specs.Memory.{SinkState};

    ghost Value = { SinkState };

    ghost view = { λ s. record { held = s.bytes.items; most = s.most; plan = s.plan } };

    ghost invariant = { λ s. 1 ≤ s.most };
}

impl MemSink {
    /// An empty sink of which one write takes at most `most` bytes. `failing` lists the writes that fail, numbered from 1.
    pub fn new(alloc: Global, most: usize, failing: Vec<u64>) -> Self
        requires { 1 ≤ most }
        ensures { result ≡ record { held = []; most = most; plan = fresh failing.items } }
    {
        MemSink {
            bytes: Vec::new(alloc),
            most,
            plan: FaultPlan::new(failing),
        }
    }

    /// The bytes held.
    pub fn bytes(&self) -> &[u8]
        ensures { result.now ≡ self.now.held }
    {
        &self.bytes
    }
}

impl Sink for MemSink {
    ghost held = { λ s. Some s.held };

    ghost faults = { λ s. s.plan.faults };

    /// Fails where this write is listed, and where there is no memory. Else it takes all, or the most that it takes.
    fn write(&mut self, bytes: &[u8]) -> Result<usize, Failed>
        requires { 0 < length bytes.now }
        ensures listed { FailsNext self.old.plan → IsErr result }
        ensures counted { self.new.plan ≡ after_call self.old.plan (is_ok result) }
        ensures most { self.new.most ≡ self.old.most }
        ensures some { IfOk result (λ n. (1 ≤ n) × (n ≤ length bytes.now)) }
        ensures ok { IfOk result (λ n. n ≡ min self.old.most (length bytes.now)) }
        ensures grown { IfOk result (λ n. self.new.held ≡ self.old.held ++ take n bytes.now) }
        ensures err { OnErr result (self.new.held ≡ self.old.held) }
    {
        self.plan.call()?;
        let n = self.most.min(bytes.len());
        match self.bytes.extend_from_slice(&bytes[..n]) {
            Ok(()) => Ok(n),
            Err(_) => Err(self.plan.fault()),
        }
    }

    fn faults(&self) -> u64 {
        self.plan.faults()
    }
}
