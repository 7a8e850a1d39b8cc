//! The enabled ports.
ghost use Rattle.std.specs.Prelude.{◌≡◌, ◌≤◌, ◌↔◌, [], ◌∷◌, ◌++◌, true, length, take, drop, IfOk, IsOk};
ghost use Rattle.chorus_ui.specs.NameKind.{is_port};
ghost use Rattle.chorus_choose.specs.declared.chooser.Enabled.{Enabled};
ghost use Rattle.chorus_choose.specs.Looking.{placed, without, is_enabled, index_of, refuses, after_enable, turned, IsChooser};

use crate::fault::{EnableFault, NotEnabled};
use chorus_ui::Ui;
use std::alloc::{AllocError, Global};
use std::marker::Model;

/// The most ports that are enabled.
pub const ENABLED_LIMIT: usize = 32;

/// An enabled port, with its priority: a greater one is looked at earlier.
#[derive(Clone, Copy)]
pub struct Enabled {
    pub port: Ui,
    pub priority: u8,
}

/// The enabled ports, at most 32, in the order in which they are looked at: greater priority first, and equal
/// priorities in the order of enabling, but that a port which gives in turn goes behind the others. The order is this project's own.
#[derive(Drop)]
pub struct Chooser {
    pub(crate) enabled: Vec<Enabled>,
}

impl Model for Chooser {
    ghost use Rattle.std.specs.Prelude.{◌≡◌, List, vec_capacity};
    ghost use Rattle.chorus_choose.specs.declared.chooser.Enabled.{Enabled};
    ghost use Rattle.chorus_choose.specs.Looking.{enabled_limit, IsChooser};

    ghost Value = { List Enabled };

    ghost view = { λ c. c.enabled.items };

    ghost invariant = { λ c. (vec_capacity c.enabled ≡ enabled_limit) × IsChooser c.enabled.items };
}

/// Where a port of this priority comes to stand among the enabled ones: behind all of at least this priority.
fn place_of(enabled: &[Enabled], priority: u8) -> usize
    ensures within { result ≤ length enabled.now }
    ensures stands { (e : Enabled) → e.priority ≡ priority →
        placed e enabled.now ≡ take result enabled.now ++ (e ∷ drop result enabled.now) }
{
    for (i, one) in enabled.iter().enumerate() {
        if one.priority < priority {
            return i;
        }
    }
    enabled.len()
}

/// Where the port stands among the enabled ones; where it is not enabled, how many these are.
fn index_of(enabled: &[Enabled], port: Ui) -> usize
    ensures value { result ≡ index_of port enabled.now }
    ensures within { result ≤ length enabled.now }
{
    for (i, one) in enabled.iter().enumerate() {
        if one.port == port {
            return i;
        }
    }
    enabled.len()
}

impl Chooser {
    /// A chooser with no port enabled, and with room for 32. The only error is want of memory.
    pub fn start(alloc: Global) -> Result<Chooser, AllocError>
        ensures { IfOk result (λ c. c ≡ []) }
    {
        Ok(Chooser {
            enabled: Vec::with_capacity(alloc, ENABLED_LIMIT)?,
        })
    }

    /// Enables a port, which the name must be, with a priority. `There` comes exactly where it is enabled, and else
    /// `EnabledFull` exactly where 32 ports are. Takes no memory.
    #[tactic(auto, using(crate::proofs::Order::enabled_at))]
    pub fn enable(&mut self, port: Ui, priority: u8) -> Result<(), EnableFault>
        requires { is_port port ≡ true }
        ensures answer { result ≡ refuses port self.old }
        ensures after { self.new ≡ after_enable port priority self.old }
    {
        let at = index_of(self.enabled.as_slice(), port);
        if at < self.enabled.len() {
            return Err(EnableFault::There);
        }
        if self.enabled.len() >= ENABLED_LIMIT {
            return Err(EnableFault::EnabledFull);
        }
        let to = place_of(self.enabled.as_slice(), priority);
        match self.enabled.insert(to, Enabled { port, priority }) {
            Ok(()) => Ok(()),
            Err(_) => unreachable!(),
        }
    }

    /// Disables a port. The error comes exactly where it is not enabled. Takes no memory.
    #[tactic(auto, using(crate::proofs::Order::enabled_at))]
    pub fn disable(&mut self, port: Ui) -> Result<(), NotEnabled>
        ensures answer { IsOk result ↔ (is_enabled port self.old ≡ true) }
        ensures after { self.new ≡ without port self.old }
    {
        let at = index_of(self.enabled.as_slice(), port);
        if at >= self.enabled.len() {
            return Err(NotEnabled);
        }
        let _disabled = self.enabled.remove(at);
        Ok(())
    }

    /// The enabled ports in the order in which they are looked at: at most 32, none twice, by falling priority. Takes no memory.
    pub fn enabled(&self) -> &[Enabled]
        ensures value { result.now ≡ self.now }
        ensures order { IsChooser self.now }
    {
        self.enabled.as_slice()
    }

    /// The port goes behind all others of its priority. Takes no memory.
    #[tactic(auto, using(crate::proofs::Order::enabled_at))]
    pub(crate) fn turn(&mut self, port: Ui)
        ensures { self.new ≡ turned port self.old }
    {
        let at = index_of(self.enabled.as_slice(), port);
        if at >= self.enabled.len() {
            return;
        }
        let given = self.enabled.remove(at);
        let behind = place_of(&self.enabled.as_slice()[at..], given.priority);
        match self.enabled.insert(at + behind, given) {
            Ok(()) => {}
            Err(_) => unreachable!(),
        }
    }
}
