//! Two places, of two sites, at the ends of their links, or one of them over ends in memory. What is not as it is to be ends the test.
//!
//! All is generic in the ends, but for what makes them. The contracts of a desk's calls are long, so each is called in one function,
//! which has no clauses.

ghost use Rattle.std.specs.Prelude.{◌≡◌, ◌-◌, true};

use crate::link_ends::two_places;
use crate::net::assert_may;
use chorus_calls::Caller;
use chorus_ends::{Ends, MemEnds, Moves};
use chorus_entry::{BODY_LIMIT, Body, Command, Dest, Packet};
use chorus_ruled_ends::RuledEnds;
use chorus_serve::{Desk, Pump, serve};
use chorus_ui::{Layout, Ui};
use std::alloc::Global;
use std::process::Abort;

/// The two places.
#[derive(Drop)]
pub(crate) struct Pair<D: Drop> {
    pub(crate) here: D,
    pub(crate) there: D,
}

/// Ends that say which places they reach.
trait Reaches: Ends {
    /// Asserts that these ends have a link with the place of this number.
    fn assert_reaches(&self, rt: &impl Abort, place: u16)
        ensures { (Self.links self.now).reaches place ≡ true };
}

impl Reaches for RuledEnds {
    fn assert_reaches(&self, rt: &impl Abort, place: u16) {
        assert!(rt; self.reaches(place));
    }
}

/// They reach each place.
impl Reaches for MemEnds {
    fn assert_reaches(&self, _rt: &impl Abort, _place: u16) {}
}

/// The place of this number of the pair, at ends that reach the other one.
#[tactic(auto, using(crate::proofs::Others::reaches_others))]
fn desk_at<E: Ends>(rt: &impl Abort, alloc: Global, layout: Layout, number: u16, ends: E) -> Desk<E>
    requires { (E.links ends).reaches (3 - number) ≡ true }
{
    assert!(rt; layout.places() == 2);
    assert!(rt; layout.has_place(number));
    Desk::start(alloc, layout, number, ends).expect(rt, "memory")
}

/// The place of this number of the pair, at ends that are to reach the other one.
fn linked_desk<E: Reaches>(rt: &impl Abort, alloc: Global, number: u16, ends: E) -> Desk<E> {
    let layout = Layout::new(2, 1).expect(rt, "a layout");
    ends.assert_reaches(rt, 3u16.saturating_sub(number));
    desk_at(rt, alloc, layout, number, ends)
}

/// The pair of places at these ends, the first ones at the place here.
fn linked<E: Reaches>(rt: &impl Abort, alloc: Global, first: E, second: E) -> Pair<Desk<E>> {
    let here = linked_desk(rt, alloc, 1, first);
    let there = linked_desk(rt, alloc, 2, second);
    Pair { here, there }
}

/// The pair of places over ruled ends, on which nothing happened yet.
pub(crate) fn start(rt: &impl Abort, alloc: Global) -> Pair<Desk<RuledEnds>> {
    let (first, second) = two_places(rt, alloc);
    linked(rt, alloc, first, second)
}

/// The second place of the pair, on which nothing happened yet, over ends in memory that hold these packets.
pub(crate) fn second_holding(
    rt: &impl Abort,
    alloc: Global,
    packets: Vec<Packet>,
) -> Desk<MemEnds> {
    let ends = MemEnds::holding(alloc, packets).expect(rt, "memory");
    linked_desk(rt, alloc, 2, ends)
}

/// Performs the caller's command at a place of the pair, where it is to be carried out.
pub(crate) fn act<E: Ends>(
    rt: &impl Abort,
    desk: &mut Desk<E>,
    caller: &mut Caller,
    command: Command,
) {
    assert_may(rt, desk.place(), caller, &command);
    desk.act(caller, command).ok().expect(rt, "memory");
}

/// The command by which one of the two places sends the text to the port.
pub(crate) fn send_command(rt: &impl Abort, alloc: Global, port: Ui, text: &str) -> Command {
    let text = text.as_bytes();
    assert!(rt; text.len() <= BODY_LIMIT);
    let body = Body::new(alloc, text).expect(rt, "memory");
    let dest = Dest::Port(port);
    Command::Send { dest, body }
}

/// Serves the links of a place of the pair once, on this ground.
pub(crate) fn pump<G, E: Moves<G>>(
    rt: &impl Abort,
    ground: &G,
    desk: &mut Desk<E>,
    caller: &mut Caller,
) -> Pump {
    serve(desk, ground, caller).ok().expect(rt, "memory")
}
