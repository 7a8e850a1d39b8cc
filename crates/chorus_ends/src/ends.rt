//! What a place sends and receives packets by.

ghost use Rattle.std.specs.Prelude.{◌≡◌, ◌≢◌, ℕ, true, IsTrue, IfOk, IfErr, OnOk, OnErr, IfSome, IfNone};
ghost use Rattle.chorus_entry.specs.declared.packet.Packet.{Packet};
ghost use Rattle.chorus_entry.specs.Ranges.{has_ranges};
ghost use Rattle.chorus_io.specs.Count.{Rose};
ghost use Rattle.chorus_ends.specs.Links.{Links, Counts, Sends, Receives, MovesNothing};
ghost use Rattle.chorus_ends.specs.declared.ends.PushFault.TheVariants as PushFault;

use chorus_entry::Packet;
use chorus_link::LinkName;
use std::alloc::AllocError;
use std::collections::LinkedList;
use thiserror::Error;

/// Why a packet was not sent. It is handed back, and nothing was sent.
#[derive(Clone, Copy, Debug, PartialEq, Eq, Error)]
pub enum PushFault {
    /// The link was full.
    #[error("the link is full")]
    Full,
    /// There is no memory for the packet on its way.
    #[error("out of memory")]
    Memory(AllocError),
}

/// Which links the ends are of, each by the number of the place that it leads to or comes from; for contracts alone. No value is
/// ever made.
pub struct EndsName {
    pub out: LinkedList<Option<LinkName>>,
    pub into: LinkedList<Option<LinkName>>,
}

/// The ends of the links between one place and others.
///
/// A contract sees which ends they are, which no call changes, and of each place whether the ends reach it, what was sent to it and
/// received from it so far, and two counts (`links`).
pub trait Ends: Drop {
    /// A packet on its way.
    type Parcel: Drop;

    // The packet that a parcel stands for.
    ghost packet: { Self.Parcel → Packet };

    ghost links: { Self → Links };

    /// Opens a parcel. Want of memory, the one error, hands it back.
    fn unpack(parcel: Self::Parcel) -> Result<Packet, (Self::Parcel, AllocError)>
        ensures ok { IfOk result (λ opened. opened ≡ packet parcel) }
        ensures back { IfErr result (λ refused. refused.0 ≡ parcel) };

    /// How often a link to the place was found full, up to 2^64 - 1. The count never falls.
    fn fulls(&self, to: u16) -> u64
        ensures { result ≡ (links self.now).fulls to };

    /// How often a link from the place was found empty, up to 2^64 - 1. The count never falls.
    fn empties(&self, from: u16) -> u64
        ensures { result ≡ (links self.now).empties from };

    /// Looks whether a link from a place that is reached is empty, and receives nothing. The answer is yes only where the count of
    /// `empties` of that place rose; from the answer no nothing follows. It is for a caller who asks many places: over ruled links it
    /// is quicker than a [`Moves::pop`] that gives none.
    fn finds_empty(&mut self, from: u16) -> bool
        requires { (links self.old).reaches from ≡ true }
        ensures counts { Counts (links self.old) (links self.new) }
        ensures unmoved { MovesNothing (links self.old) (links self.new) }
        ensures empty { IsTrue result →
            Rose ((links self.old).empties from) ((links self.new).empties from) };
}

/// Ends that send and receive, on a ground of this type: what they need to do so, as a runtime that may wait.
pub trait Moves<G>: Ends {
    /// Sends a packet to a place that is reached.
    ///
    /// A refusal hands it back and sends nothing. `Full` comes only where the count of `fulls` of that place rose, `Memory` only where it
    /// did not.
    fn push(&mut self, ground: &G, to: u16, packet: Packet) -> Result<(), (Packet, PushFault)>
        requires reaches { (Self.links self.old).reaches to ≡ true }
        requires ranges { has_ranges packet ≡ true }
        ensures counts { Counts (Self.links self.old) (Self.links self.new) }
        ensures sent { OnOk result (Sends to packet (Self.links self.old) (Self.links self.new)) }
        ensures back { IfErr result (λ refused. refused.0 ≡ packet) }
        ensures unmoved { OnErr result (MovesNothing (Self.links self.old) (Self.links self.new)) }
        ensures full { IfErr result (λ refused. refused.1 ≡ PushFault.Full →
            Rose ((Self.links self.old).fulls to) ((Self.links self.new).fulls to)) }
        ensures memory { IfErr result (λ refused. refused.1 ≢ PushFault.Full →
            (Self.links self.new).fulls to ≡ (Self.links self.old).fulls to) };

    /// Receives the next packet from a place that is reached, as a parcel.
    ///
    /// None comes only where the count of `empties` of that place rose, and nothing was received then.
    fn pop(&mut self, ground: &G, from: u16) -> Option<Self::Parcel>
        requires { (Self.links self.old).reaches from ≡ true }
        ensures counts { Counts (Self.links self.old) (Self.links self.new) }
        ensures received { IfSome result (λ parcel.
            Receives from (Self.packet parcel) (Self.links self.old) (Self.links self.new)) }
        ensures unmoved { IfNone result (MovesNothing (Self.links self.old) (Self.links self.new)) }
        ensures empty { IfNone result
            (Rose ((Self.links self.old).empties from) ((Self.links self.new).empties from)) };
}
