//! What became of a port.

ghost use Rattle.std.specs.Prelude.{◌≡◌, ◌≤◌, IfOk, OnOk, OnErr, length};
ghost use Rattle.chorus_ui.specs.declared.limits.TheConstants.{PENDING_LIMIT};
ghost use Rattle.checker_ledger.specs.Ports.{TakeFits};
ghost use Rattle.chorus_world.specs.Ports.{new_port, arrived, changed, last_of};

use chorus_entry::{Act, MsgId};
use chorus_ui::Ui;
use chorus_world::Spot;
use std::alloc::{AllocError, Global};
use std::marker::Model;

/// What became of a made port: how many messages may wait in it, the ids that it accepted, how many of these were
/// received, where it has been, and where it is. Ports, and that they migrate with what waits in them, are from the
/// Chorus article of 1988; hops and positions are this project's own.
#[derive(Drop)]
pub struct PortState {
    capacity: u8,
    accepted: Vec<MsgId>,
    taken: u64,
    path: Vec<u16>,
    spot: Spot,
}

impl Model for PortState {
    ghost use Rattle.chorus_world.specs.Ports.{PortState};
    ghost use Rattle.checker_ledger.specs.Ports.{port_state, PortFits};

    ghost Value = { PortState };

    ghost view = { λ f. port_state f.capacity f.accepted.items f.taken f.path.items f.spot };

    ghost invariant = { λ f. PortFits f.capacity f.accepted.items f.taken };
}

impl PortState {
    /// A port that was just made at the place.
    pub(crate) fn new(
        alloc: Global,
        place: u16,
        actor: Ui,
        capacity: u8,
    ) -> Result<PortState, AllocError>
        requires { (1 ≤ capacity) × (capacity ≤ PENDING_LIMIT) }
        ensures { IfOk result (λ f. f ≡ new_port place actor capacity) }
    {
        let mut path = Vec::new(alloc);
        path.push(place)?;
        Ok(PortState {
            capacity,
            accepted: Vec::new(alloc),
            taken: 0,
            path,
            spot: Spot::Held(actor),
        })
    }

    /// How many messages may wait in it, from 1 to 64.
    pub fn capacity(&self) -> u8
        ensures value { result ≡ self.now.capacity }
        ensures within { (1 ≤ result) × (result ≤ PENDING_LIMIT) }
    {
        self.capacity
    }

    /// The ids of the messages that it accepted, in order: the message at position i is the one with index i.
    pub fn accepted(&self) -> &[MsgId]
        ensures { result.now ≡ self.now.accepted }
    {
        self.accepted.as_slice()
    }

    /// How many of the accepted messages were received: the first ones.
    pub fn taken(&self) -> u64
        ensures value { result ≡ self.now.taken }
        ensures within { result ≤ length self.now.accepted }
    {
        self.taken
    }

    /// The places of its hops 0, 1, ..: where it was made, and each place that it departed to.
    pub fn path(&self) -> &[u16]
        ensures { result.now ≡ self.now.path }
    {
        self.path.as_slice()
    }

    /// Whether it is held, by which actor, or moving, to which actor, or deleted.
    pub fn spot(&self) -> Spot
        ensures { result ≡ self.now.spot }
    {
        self.spot
    }

    /// The last place of its path: where it is, where it is on its way to, or where it was deleted.
    pub fn last_place(&self) -> u16
        ensures { result ≡ last_of 0 self.now.path }
    {
        match self.path.last() {
            Some(place) => *place,
            None => 0,
        }
    }

    /// Its fate after an act on its line, which does not make it. An error leaves it as it was.
    pub(crate) fn change(&mut self, act: &Act) -> Result<(), AllocError>
        requires { TakeFits act.now self.old }
        ensures ok { OnOk result (self.new ≡ changed act.now self.old) }
        ensures err { OnErr result (self.new ≡ self.old) }
    {
        match act {
            Act::Accept { id, .. } => self.accepted.push(*id)?,
            Act::Take { .. } => self.taken += 1,
            Act::Rehome { actor, .. } => self.spot = Spot::Held(*actor),
            Act::Depart { to, actor, .. } => {
                self.path.push(*to)?;
                self.spot = Spot::Moving(*actor);
            }
            Act::Arrive { .. } => self.spot = arrived(self.spot),
            Act::Delete { .. } => self.spot = Spot::Ended,
            _ => {}
        }
        Ok(())
    }
}

/// Where a port is, by its state, once it arrived.
fn arrived(spot: Spot) -> Spot
    ensures { result ≡ arrived spot }
{
    match spot {
        Spot::Moving(actor) => Spot::Held(actor),
        other => other,
    }
}
