//! A place at the ends of its links.

ghost use Rattle.std.specs.Prelude.{◌≡◌, ℕ, ◌<◌, ◌≤◌, ◌↔◌, true, None, is_some, length, reverse, IfOk, OnOk, OnErr, IsErrOf, IsOk};
ghost use Rattle.chorus_ui.specs.declared.limits.TheConstants.{CLOCK_LIMIT};
ghost use Rattle.chorus_ui.specs.Layout.{has_place, places};
ghost use Rattle.chorus_entry.specs.Command.{is_post};
ghost use Rattle.place_outbox.specs.Waiting.{count};
ghost use Rattle.law_machine.specs.PlaceState.{greatest_clock};
ghost use Rattle.law_machine.specs.PlaceMachine.{begun};
ghost use Rattle.law_bounds.specs.Bounds.{AreWaitingWithin};
ghost use Rattle.chorus_place.specs.Calls.{state, is_call, IsWornAt, MayCall, Stays, TakesNone};
ghost use Rattle.chorus_place.specs.declared.fault.PlaceFault.TheVariants as PlaceFault;
ghost use Rattle.chorus_serve.specs.Desks.{IsNewDesk, SameHands, seen, from_in, opened_in, sealed_in, packet_of, parcel_of, with_hand};
ghost use Rattle.chorus_serve.specs.Flows.{IsOther};
ghost use Rattle.chorus_serve.specs.Working.{Performs};

use crate::hand::{Content, Held};
use chorus_calls::Caller;
use chorus_ends::Ends;
use chorus_entry::{Command, Entry, Packet};
use chorus_place::{Place, PlaceFault};
use chorus_ports::Ports;
use chorus_ui::Layout;
use law_machine::Reply;
use place_outbox::Outbox;
use std::alloc::{AllocError, Global};
use std::marker::Model;

/// A place at the ends of its links, and the packet that it has in hand.
#[derive(Drop)]
pub struct Desk<E: Ends> {
    pub(crate) place: Place,
    pub(crate) ends: E,
    pub(crate) hand: Option<Held<E::Parcel>>,
    /// The place from which the last packet was taken, or 0.
    pub(crate) last: u16,
    /// How many packets were worked off, up to 2^64 - 1.
    pub(crate) worked: u64,
}

impl<E: Ends> Model for Desk<E> {
    ghost use Rattle.chorus_serve.specs.Desks as desks;

    ghost Value = { desks.DeskOf E E.Parcel };

    ghost view = { λ d. record {
      place = d.place;
      ends = d.ends;
      hand = d.hand;
      last = d.last;
      worked = d.worked;
    } };

    ghost invariant = { λ d. desks.IsDesk d.place (E.links d.ends) };
}

/// What is left of a desk at its end.
#[derive(Drop)]
pub struct Parts<E: Ends> {
    /// The journal, in order.
    pub journal: Vec<Entry>,
    /// The packets that wait to go to other places.
    pub out: Outbox,
    /// The number of the place from which the packet in hand came, if there is one.
    pub from: Option<u16>,
    /// The packet in hand, where it was opened.
    pub hand: Option<Packet>,
    /// What was in hand, where it was not opened.
    pub parcel: Option<E::Parcel>,
    /// The ports that the place holds.
    pub ports: Ports,
    /// The ends of the place's links.
    pub ends: E,
}

/// The packet of a content that is opened, or else its parcel, for a desk that is taken apart.
fn split<P>(content: Content<P>) -> (Option<Packet>, Option<P>)
    ensures packet { result.0 ≡ packet_of content }
    ensures parcel { result.1 ≡ parcel_of content }
{
    match content {
        Content::Sealed(parcel) => (None, Some(parcel)),
        Content::Opened(packet) => (Some(packet), None),
    }
}

/// The packet in hand at a desk that is taken apart, where it is opened, or else its parcel; neither where nothing is in hand.
fn split_hand<P>(hand: Option<Held<P>>) -> (Option<Packet>, Option<P>)
    ensures packet { result.0 ≡ opened_in hand }
    ensures parcel { result.1 ≡ sealed_in hand }
{
    match hand {
        Some(Held { from: _, content }) => split(content),
        None => (None, None),
    }
}

/// The place from which what is in hand came, if anything, at a desk that is taken apart.
fn came_from<P>(hand: &Option<Held<P>>) -> Option<u16>
    ensures { result ≡ from_in hand.now }
{
    match hand {
        Some(held) => Some(held.from),
        None => None,
    }
}

impl<E: Ends> Desk<E> {
    /// The desk of the place of this number, one of the layout, on which nothing happened yet, at these ends, which reach each other
    /// place.
    /// The first packet is asked for from place 1 on. The only error is want of memory.
    pub fn start(alloc: Global, layout: Layout, number: u16, ends: E) -> Result<Desk<E>, AllocError>
        requires place { has_place layout number ≡ true }
        requires reaches { (p : ℕ) → IsOther layout number p → (E.links ends).reaches p ≡ true }
        ensures { IfOk result (λ desk. IsNewDesk layout number ends desk) }
    {
        let place = Place::start(alloc, layout, number)?;
        Ok(Desk {
            place,
            ends,
            hand: None,
            last: 0,
            worked: 0,
        })
    }

    /// The place of the desk.
    pub fn place(&self) -> &Place
        ensures { result.now ≡ self.now.place }
    {
        &self.place
    }

    /// The ends of the place's links.
    pub fn ends(&self) -> &E
        ensures { result.now ≡ self.now.ends }
    {
        &self.ends
    }

    /// Whether a packet is in hand.
    pub fn is_holding(&self) -> bool
        ensures { result ≡ is_some self.now.hand }
    {
        self.hand.is_some()
    }

    /// How many packets were worked off so far, up to 2^64 - 1.
    pub fn worked(&self) -> u64
        ensures { result ≡ self.now.worked }
    {
        self.worked
    }

    /// How many packets wait to go or are in hand, up to 2^64 - 1.
    pub fn waiting(&self) -> u64
        ensures { result ≡ with_hand self.now.hand (count self.now.place.out.lists) }
    {
        let waiting = self.place.waiting();
        match &self.hand {
            Some(_) => waiting.saturating_add(1),
            None => waiting,
        }
    }

    /// How many ports the place holds.
    pub fn held(&self) -> u16
        ensures { result ≡ length self.now.place.ports }
    {
        self.place.held()
    }

    /// Makes room for at least so many entries and packets. Nothing else changes, whatever the answer.
    pub fn reserve(&mut self, more: u32) -> Result<(), AllocError>
        ensures place { Stays self.old.place self.new.place }
        ensures ok { OnOk result (more ≤ self.new.place.spare) }
        ensures hands { SameHands self.old self.new }
    {
        self.place.reserve(more)
    }

    /// Performs a caller's command as [`Place::act`] does, which drops a command that it refuses. What it puts waits behind what waited;
    /// it touches no link.
    pub fn act(&mut self, caller: &mut Caller, command: Command) -> Result<Reply, PlaceFault>
        requires may { MayCall (state self.old.place) caller.old command }
        requires posts { is_post command ≡ true → caller.old.posts < u32.MAX }
        requires given { is_call command ≡ true → caller.old.client.given < u32.MAX }
        ensures performed { IfOk result (λ r. Performs command r (seen E.links E.packet self.old)
            (seen E.links E.packet self.new) caller.old caller.new) }
        ensures worn { (clock : ℕ) → IsErrOf result (PlaceFault.Worn clock) ↔
            IsWornAt clock (begun (state self.old.place) caller.old) }
        ensures refused { OnErr result
            (Stays self.old.place self.new.place × (caller.new ≡ caller.old)) }
        ensures takes_no_memory { TakesNone command (state self.old.place) caller.old →
            2 ≤ self.old.place.spare →
            greatest_clock (begun (state self.old.place) caller.old) < CLOCK_LIMIT → IsOk result }
        ensures hands { SameHands self.old self.new }
    {
        self.place.act(caller, command)
    }

    /// Takes the desk apart. Each packet that waits to go is within its ranges.
    pub fn finish(self) -> Parts<E>
        ensures journal { reverse result.journal.items ≡ self.place.journal }
        ensures out { result.out.lists ≡ self.place.out.lists }
        ensures ranges { AreWaitingWithin result.out.lists }
        ensures ports { result.ports.records ≡ self.place.ports }
        ensures from { result.from ≡ from_in self.hand }
        ensures hand { result.hand ≡ opened_in self.hand }
        ensures parcel { result.parcel ≡ sealed_in self.hand }
        ensures ends { result.ends ≡ self.ends }
    {
        let Desk {
            place,
            ends,
            hand,
            last: _,
            worked: _,
        } = self;
        let (journal, out, ports) = place.finish();
        let from = came_from(&hand);
        let (hand, parcel) = split_hand(hand);
        Parts {
            journal,
            out,
            from,
            hand,
            parcel,
            ports,
            ends,
        }
    }
}
