//! The places of a layout and their callers, and packets that are handed over one by one. What is not as it is to be
//! ends the test.

ghost use Rattle.std.specs.Prelude.{◌≡◌, ◌<◌};
ghost use Rattle.chorus_place.specs.Calls.{state, MayCall};

use chorus_calls::Caller;
use chorus_entry::{Command, Entry, Packet};
use chorus_merge::merge;
use chorus_place::{Place, PlaceFault, Reply};
use chorus_show::entry_line;
use chorus_ui::{Layout, Ui};
use std::alloc::Global;
use std::process::Abort;

/// The name that the text is of, for tests of places.
pub(crate) fn named(rt: &impl Abort, text: &str) -> Ui {
    Ui::parse(text.as_bytes()).expect(rt, "a name")
}

/// Where the place of this number stands among those of a net.
fn index(rt: &impl Abort, number: u16) -> usize {
    usize::from(number.checked_sub(1).expect(rt, "a place"))
}

/// The number of the place where the command of a caller in the actor is carried out.
fn number_for(rt: &impl Abort, layout: Layout, actor: Ui, command: &Command) -> u16 {
    assert!(rt; layout.has_site(actor.site()));
    assert!(rt; command.meets_conditions());
    command.place_for(layout, actor)
}

/// For the places of a net, and for served ones: the caller may give the place the command, or else the test ends.
pub(crate) fn assert_may(rt: &impl Abort, place: &Place, caller: &Caller, command: &Command)
    ensures may { MayCall (state place.now) caller.now command.now }
    ensures posts { caller.now.posts < u32.MAX }
    ensures given { caller.now.client.given < u32.MAX }
{
    let layout = place.layout();
    assert!(rt; layout.has_site(caller.actor().site()));
    assert!(rt; command.meets_conditions());
    assert!(rt; command.place_for(layout, caller.actor()) == place.number());
    assert!(rt; caller.posts() < u32::MAX);
    assert!(rt; caller.client().given() < u32::MAX);
}

/// A place as tests play it: its calls without what they promise, so that what plays it knows of a place no more than
/// it asks. Where a call may not be made the test ends.
pub(crate) trait Plays: Drop {
    /// The place of this number, to be played, on which nothing happened yet.
    fn begun(rt: &impl Abort, alloc: Global, layout: Layout, number: u16) -> Self;

    /// All entries of the played place, in order.
    fn entries(&self) -> &[Entry];

    /// Gives the played place a command of the caller.
    fn told(
        &mut self,
        rt: &impl Abort,
        caller: &mut Caller,
        command: Command,
    ) -> Result<Reply, PlaceFault>;

    /// Hands the played place a packet that is lawful there.
    fn handed(&mut self, rt: &impl Abort, caller: &mut Caller, packet: Packet) -> bool;

    /// How many packets wait to go from the played place.
    fn waiting(&self) -> u64;

    /// Takes out of the played place the first packet that waits to go to the other.
    fn taken_out(&mut self, to: u16) -> Option<Packet>;
}

impl Plays for Place {
    fn begun(rt: &impl Abort, alloc: Global, layout: Layout, number: u16) -> Place {
        assert!(rt; layout.has_place(number));
        Place::start(alloc, layout, number).expect(rt, "memory")
    }

    fn entries(&self) -> &[Entry] {
        self.journal()
    }

    fn told(
        &mut self,
        rt: &impl Abort,
        caller: &mut Caller,
        command: Command,
    ) -> Result<Reply, PlaceFault> {
        assert_may(rt, self, caller, &command);
        self.act(caller, command)
    }

    fn handed(&mut self, rt: &impl Abort, caller: &mut Caller, packet: Packet) -> bool {
        assert!(rt; self.lawful(packet.from, &packet));
        self.work(caller, packet).is_ok()
    }

    fn waiting(&self) -> u64 {
        Place::waiting(self)
    }

    fn taken_out(&mut self, to: u16) -> Option<Packet> {
        self.out(to)
    }
}

/// The places of a layout and their callers.
#[derive(Drop)]
pub(crate) struct Net<P: Plays> {
    layout: Layout,
    places: Vec<P>,
    callers: Vec<Caller>,
}

impl<P: Plays> Net<P> {
    /// The places of so many sites, and seat 0 in the first actor.
    pub(crate) fn start(rt: &impl Abort, alloc: Global, sites: u16, turns: u16) -> Net<P> {
        let layout = Layout::new(sites, turns).expect(rt, "a layout");
        let mut places = Vec::new(alloc);
        for number in 1..=layout.places() {
            let place = P::begun(rt, alloc, layout, number);
            places.push(place).ok().expect(rt, "memory");
        }
        let mut net = Net {
            layout,
            places,
            callers: Vec::new(alloc),
        };
        net.enter(rt, named(rt, "1.a.1"));
        net
    }

    /// Gives the next seat of the net, to a caller in the actor, whose last clock is that of seat 0.
    pub(crate) fn enter(&mut self, rt: &impl Abort, actor: Ui) {
        let seat = u32::try_from(self.callers.len()).ok().expect(rt, "a seat");
        let last = match self.callers.get(0) {
            Some(first) => first.last(),
            None => 0,
        };
        let caller = Caller::new(seat, actor, last);
        self.callers.push(caller).ok().expect(rt, "memory");
    }

    /// The place of this number among those of the net.
    pub(crate) fn place(&mut self, rt: &impl Abort, number: u16) -> &mut P {
        let at = index(rt, number);
        self.places.get_mut(at).expect(rt, "a place")
    }

    /// Performs a command of the seat at its place of the net.
    pub(crate) fn act(&mut self, rt: &impl Abort, seat: u32, command: Command) {
        let caller = self.callers.get_mut(seat as usize).expect(rt, "a caller");
        let number = number_for(rt, self.layout, caller.actor(), &command);
        let place = self.places.get_mut(index(rt, number)).expect(rt, "a place");
        place.told(rt, caller, command).ok().expect(rt, "a reply");
    }

    /// Hands the first packet from one place to another, by seat 0; false where none waits. A packet that a place puts
    /// is lawful where it goes.
    pub(crate) fn deliver(&mut self, rt: &impl Abort, from: u16, to: u16) -> bool {
        match self.place(rt, from).taken_out(to) {
            Some(packet) => {
                self.hand(rt, to, packet);
                true
            }
            None => false,
        }
    }

    /// Hands a packet to a place of the net, by seat 0.
    pub(crate) fn hand(&mut self, rt: &impl Abort, to: u16, packet: Packet) {
        let caller = self.callers.get_mut(0).expect(rt, "a caller");
        let place = self.places.get_mut(index(rt, to)).expect(rt, "a place");
        assert!(rt; place.handed(rt, caller, packet));
    }

    /// Delivers in rounds over all pairs of places, until a round serves nothing.
    pub(crate) fn drain(&mut self, rt: &impl Abort) {
        for _ in 0..1_000 {
            if !self.round(rt) {
                return;
            }
        }
        panic!(rt; "places that do not come to rest")
    }

    /// Delivers one packet between each two places, if one waits there, and tells whether any did.
    fn round(&mut self, rt: &impl Abort) -> bool {
        let places = self.layout.places();
        let mut served = false;
        for from in 1..=places {
            for to in 1..=places {
                if from != to && self.deliver(rt, from, to) {
                    served = true;
                }
            }
        }
        served
    }

    /// How many packets wait to go from all places of the net.
    pub(crate) fn waiting(&self) -> u64 {
        let mut sum: u64 = 0;
        for place in &self.places {
            sum = sum.saturating_add(place.waiting());
        }
        sum
    }

    /// The lines of the journals of all places of the net.
    pub(crate) fn lines(&self, rt: &impl Abort, alloc: Global) -> Vec<u8> {
        let mut journals = Vec::new(alloc);
        for place in &self.places {
            let journal = copied(rt, alloc, place.entries());
            journals.push(journal).ok().expect(rt, "memory");
        }
        lines_of(rt, alloc, &journals)
    }
}

/// The lines of these journals, by clock and then by place.
pub(crate) fn lines_of(rt: &impl Abort, alloc: Global, journals: &[Vec<Entry>]) -> Vec<u8> {
    let mut out = Vec::new(alloc);
    for entry in &merge(alloc, journals).expect(rt, "memory") {
        entry_line(entry, &mut out).expect(rt, "memory");
    }
    out
}

/// Copies a place's journal, so that it can be merged while the place goes on.
fn copied(rt: &impl Abort, alloc: Global, journal: &[Entry]) -> Vec<Entry> {
    let mut entries = Vec::new(alloc);
    for entry in journal {
        let entry = entry.copied().expect(rt, "memory");
        entries.push(entry).ok().expect(rt, "memory");
    }
    entries
}
