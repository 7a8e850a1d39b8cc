//! The messages of a port and route go, one after the other.

ghost use Rattle.std.specs.Prelude.{◌≡◌, ◌+◌, ◌-◌, ◌≤◌, true, false, None, length};
ghost use Rattle.chorus_world.specs.Posts.{is_on_site};
ghost use Rattle.place_unsettled.specs.Queues.{queue};
ghost use Rattle.law_machine.specs.Trying.{goes_on, go};
ghost use Rattle.chorus_place.specs.PlaceTables.Room.{KeepsRoom};
ghost use Rattle.chorus_place.specs.PlaceTables.Tables.{state, turn};
ghost use Rattle.chorus_place.specs.PlaceTables.Going.{GoesOn, Stops, leaving, reports_for, waits_for};
ghost use Rattle.chorus_place.specs.PlaceTables.Allowed.{MaySettleEach, MayGo};

use crate::tables::Tables;
use crate::tables::leaving::is_on_site;
use chorus_calls::Caller;
use chorus_entry::Answer;
use place_unsettled::{Key, Wait};

impl Tables {
    /// Lets the first message of a port and route go: settles it by one entry, where it is not to be tried at another place.
    /// Answers whether it did.
    fn settle_one(&mut self, key: &Key, caller: &mut Caller) -> bool
        requires may { MaySettleEach key.now self.old caller.old }
        ensures on { result ≡ true →
            GoesOn key.now (turn self.old caller.old) (turn self.new caller.new) }
        ensures stops { result ≡ false → Stops key.now (turn self.old caller.old) }
        ensures same { result ≡ false → (self.new ≡ self.old) × (caller.new ≡ caller.old) }
        ensures spare { result ≡ true → self.new.journal.spare ≡ self.old.journal.spare - 1 }
        ensures room { self.old.room + reports_for key.now self.new ≤
            self.new.room + reports_for key.now self.old }
        ensures out { self.new.out ≡ self.old.out }
        ensures kept { KeepsRoom self.old self.new }
    {
        let Some(first) = self.waits.first(key) else {
            return false;
        };
        let only = first.only;
        if !self.layout.has_site(key.port.site()) {
            self.settle_first(key, Some(Answer::NoPort), 0, caller);
            return true;
        }
        let (to, hop) = self.hints.newest(key.port);
        if !is_on_site(self.layout, only, to) {
            self.settle_first(key, Some(Answer::Elsewhere { to, hop }), hop, caller);
            return true;
        }
        if to != self.number {
            return false;
        }
        self.settle_first(key, None, hop, caller);
        true
    }

    /// Lets one message after the other go, until one is tried at another place: `again` is a copy of that one.
    fn go_on(&mut self, key: &Key, again: Option<Wait>, caller: &mut Caller)
        requires may { MayGo key.now self.old caller.old }
        requires again { again ≡ leaving key.now (state self.old) }
        ensures turn { turn self.new caller.new ≡
            goes_on key.now (waits_for key.now self.old) (turn self.old caller.old) }
        ensures spare { self.old.journal.spare ≤
            self.new.journal.spare + length (waits_for key.now self.old) }
        ensures room { self.old.room ≤ self.new.room + reports_for key.now self.old + 1 }
        ensures out { self.new.out ≡ self.old.out }
        ensures kept { KeepsRoom self.old self.new }
    {
        while self.settle_one(key, caller) {}
        if let Some(wait) = again {
            let newest = self.hints.newest(key.port);
            self.try_first(key, wait, newest, caller);
        }
    }

    /// Lets the messages of a port and route go, where none is under way.
    pub(crate) fn go(&mut self, key: &Key, again: Option<Wait>, caller: &mut Caller)
        requires may { MayGo key.now self.old caller.old }
        requires again { (queue self.old.waits key.now).tried ≡ None →
            again ≡ leaving key.now (state self.old) }
        ensures turn { turn self.new caller.new ≡ go key.now (turn self.old caller.old) }
        ensures spare { self.old.journal.spare ≤
            self.new.journal.spare + length (waits_for key.now self.old) }
        ensures room { self.old.room ≤ self.new.room + reports_for key.now self.old + 1 }
        ensures out { self.new.out ≡ self.old.out }
        ensures kept { KeepsRoom self.old self.new }
    {
        if self.waits.tried(key).is_none() {
            self.go_on(key, again, caller);
        }
    }
}
