//! The places that a thread pumps.

ghost use Rattle.std.specs.Prelude.{◌≡◌, ◌≤◌};
ghost use Rattle.chorus_ui.specs.Layout.{places};

use chorus_ui::{Layout, Ui};

/// How many threads go on to pump when their commands are done, at most: those that are done last, since till then the
/// processors have commands to perform. The places of the scenario's sites are shared out among them. More would find
/// less each, since a place waits for the verdict on a message before it tries the next one to the same port.
const PUMPERS: u32 = 4;

/// The places that a thread pumps: while it performs commands its home place, and when they are done a range of places.
/// The ranges of the threads that are done last have each place of the scenario's sites once; those of the other threads
/// are empty. At other sites nothing happens, since the scenario names none of them.
#[derive(Clone, Copy)]
pub(crate) struct Share {
    places: u16,
    home: u16,
    /// How many places the scenario's sites have.
    named: u16,
    /// How many threads go on to pump.
    pumpers: u32,
    ghost home_is: { (1 ≤ home) × (home ≤ places) },
    ghost named_is: { named ≤ places },
    ghost pumpers_is: { pumpers ≤ 4 },
}

/// Places that follow one another.
#[derive(Clone, Copy)]
pub(crate) struct Stretch {
    /// The place before the first one.
    pub(crate) before: u16,
    /// The last place.
    pub(crate) last: u16,
}

impl Share {
    /// The places that one of so many threads pumps, for a caller in this actor of a scenario with so many sites.
    pub(crate) fn new(layout: Layout, sites: u16, actor: Ui, threads: u32) -> Share
        ensures { result.places ≡ places layout }
    {
        let places = layout.places();
        Share {
            places,
            home: home_place(layout, actor),
            named: sites.saturating_mul(layout.turns()).min(places),
            pumpers: threads.min(PUMPERS),
        }
    }

    /// The home place of the thread, which it pumps while it performs commands.
    pub(crate) fn home(&self) -> u16
        ensures { (1 ≤ result) × (result ≤ self.now.places) }
    {
        self.home
    }

    /// All places of the scenario's sites.
    pub(crate) fn all(&self) -> Stretch
        ensures { result.last ≤ self.now.places }
    {
        Stretch {
            before: 0,
            last: self.named,
        }
    }

    /// The range of places of a thread whose commands were done when so many others had commands left.
    pub(crate) fn range(&self, left: u32) -> Stretch
        ensures { result.last ≤ self.now.places }
    {
        if left < self.pumpers {
            Stretch {
                before: self.up_to(left),
                last: self.up_to(left + 1),
            }
        } else {
            Stretch { before: 0, last: 0 }
        }
    }

    /// The part with this number, from 0, of so many of the places.
    pub(crate) fn part(&self, number: u32, count: u32) -> Stretch
        ensures { result.last ≤ self.now.places }
    {
        Stretch {
            before: self.part_up_to(number, count),
            last: self.part_up_to(number.saturating_add(1), count),
        }
    }

    /// How many places the first `number` of so many parts have.
    fn part_up_to(&self, number: u32, count: u32) -> u16
        ensures { result ≤ self.now.places }
    {
        if count == 0 {
            return 0;
        }
        let all = self.named as u32;
        (all.saturating_mul(number) / count).min(all) as u16
    }

    /// How many places the first `number` of the ranges have.
    fn up_to(&self, number: u32) -> u16
        requires { number ≤ 4 }
        ensures { result ≤ self.now.places }
    {
        if self.pumpers == 0 {
            return 0;
        }
        let all = self.named as u32;
        (all * number / self.pumpers).min(all) as u16
    }
}

/// The home place of a thread whose caller is in this actor of the layout.
fn home_place(layout: Layout, actor: Ui) -> u16
    ensures { (1 ≤ result) × (result ≤ places layout) }
{
    if layout.has_site(actor.site()) {
        layout.place_at(actor.site(), actor)
    } else {
        1
    }
}
