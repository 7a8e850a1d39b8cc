//! What a place knows.

ghost use Rattle.std.specs.Prelude.{◌≡◌, ◌<◌, ◌^◌};
ghost use Rattle.chorus_world.specs.Groups.{groups_made};
ghost use Rattle.chorus_world.specs.Places.{last_clock, ports_made, just_taken, located};
ghost use Rattle.chorus_world.specs.Views.{at};

use crate::ledger::Ledger;
use checker_rows::keys::NameAt;
use checker_rows::locations::location_in;
use checker_rows::places::place_in;
use chorus_entry::Tag;
use chorus_ui::Ui;
use chorus_world::{Location, TakenReply};

impl Ledger {
    /// The clock of the place's last entry, or 0.
    pub fn last_clock(&self, place: u16) -> u64
        ensures { result ≡ last_clock (at place self.now.past) }
    {
        place_in(&self.tables.places, place).clock
    }

    /// How many ports were made at the place.
    pub fn ports_made(&self, place: u16) -> u64
        ensures value { result ≡ ports_made (at place self.now.past) }
        ensures few { result < 2 ^ 63 }
    {
        // That the ports are few is told by the number of entries.
        let _few = self.entries.len();
        place_in(&self.tables.places, place).ports
    }

    /// How many groups were made at the place.
    pub fn groups_made(&self, place: u16) -> u64
        ensures { result ≡ groups_made (at place self.now.past) }
    {
        place_in(&self.tables.places, place).groups
    }

    /// The reply that the last entry of the place took.
    pub fn just_taken(&self, place: u16) -> Option<TakenReply>
        ensures { result ≡ just_taken self.now.past (at place self.now.past) }
    {
        match place_in(&self.tables.places, place).taken {
            Some(taking) => match self.tag_of(taking.id) {
                Tag::Reply { client, number } => Some(TakenReply {
                    taker: taking.taker,
                    client,
                    number,
                }),
                _ => None,
            },
            None => None,
        }
    }

    /// Where the place locates the port.
    pub fn located(&self, place: u16, port: Ui) -> Location
        ensures { result ≡ located self.now.layout port (at place self.now.past) }
    {
        let key = NameAt { place, name: port };
        location_in(&self.tables.locations, self.layout, &key)
    }
}
