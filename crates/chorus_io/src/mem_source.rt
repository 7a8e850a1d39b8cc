//! A source in memory.
ghost use Rattle.std.specs.Prelude.{◌≡◌, ◌≤◌, ◌↔◌, min, length, take, drop, IsErr, is_ok, IfOk, OnErr, Some, []};
ghost use Rattle.chorus_io.specs.Memory.{fresh, after_call, FailsNext};

use crate::fault_plan::FaultPlan;
use crate::{Failed, Source};
use std::marker::Model;

/// Bytes in memory, and which reads fail.
#[derive(Drop)]
pub struct MemSource {
    bytes: Vec<u8>,
    at: usize,
    plan: FaultPlan,
}

impl Model for MemSource {
    ghost use Rattle.std.specs.Prelude.{◌≤◌, drop, vec_len};
    ghost use Rattle.chorus_io.specs.Memory.{SourceState};

    ghost Value = { SourceState };

    ghost view = { λ s. record { left = drop s.at s.bytes.items; plan = s.plan } };

    ghost invariant = { λ s. s.at ≤ vec_len s.bytes };
}

impl MemSource {
    /// A source of these bytes. `failing` lists the reads that fail, numbered from 1.
    pub fn new(bytes: Vec<u8>, failing: Vec<u64>) -> Self
        ensures { result ≡ record { left = bytes.items; plan = fresh failing.items } }
    {
        MemSource {
            bytes,
            at: 0,
            plan: FaultPlan::new(failing),
        }
    }
}

impl Source for MemSource {
    ghost left = { λ s. Some s.left };

    ghost faults = { λ s. s.plan.faults };

    ghost reliable = { λ s. s.plan.failing ≡ [] };

    /// Fails exactly where this read is listed. Else it gives as much as there is, or as the buffer holds.
    fn read(&mut self, buf: &mut [u8]) -> Result<usize, Failed>
        ensures listed { IsErr result ↔ FailsNext self.old.plan }
        ensures counted { self.new.plan ≡ after_call self.old.plan (is_ok result) }
        ensures ok { IfOk result (λ n. n ≡ min (length buf.new) (length self.old.left)) }
        ensures given { IfOk result (λ n. take n buf.new ≡ take n self.old.left) }
        ensures left { IfOk result (λ n. self.new.left ≡ drop n self.old.left) }
        ensures err { OnErr result (self.new.left ≡ self.old.left) }
    {
        self.plan.call()?;
        let rest = &self.bytes[self.at..];
        let n = rest.len().min(buf.len());
        buf[..n].copy_from_slice(&rest[..n]);
        self.at += n;
        Ok(n)
    }

    fn faults(&self) -> u64 {
        self.plan.faults()
    }
}
