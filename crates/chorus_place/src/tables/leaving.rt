//! The messages that will be tried at other places, and how many packets a turn may put: both are looked for before it changes
//! anything.

ghost use Rattle.std.specs.Prelude.{◌≡◌, ◌^◌, ◌<◌, ◌≤◌, ◌++◌, true, length, drop, IfOk, option_to_list};
ghost use Rattle.std.specs.Option.{option_copied};
ghost use Rattle.chorus_ui.specs.declared.kind.Kind.TheVariants as Kind;
ghost use Rattle.chorus_ui.specs.Layout.{has_site, has_place};
ghost use Rattle.chorus_world.specs.Places.{taught};
ghost use Rattle.chorus_world.specs.Posts.{is_on_site};
ghost use Rattle.chorus_hints.specs.Known.{kept, newest_of};
ghost use Rattle.place_unsettled.specs.Queues.{queue};
ghost use Rattle.law_machine.specs.Working.{taught_of};
ghost use Rattle.chorus_place.specs.PlaceTables.Going.{waits_for, reports_for, leaving_after, first_to};
ghost use Rattle.chorus_place.specs.PlaceTables.Steps.{MayTeach};

use crate::tables::Tables;
use chorus_entry::Answer;
use chorus_ui::{Layout, Ui};
use place_unsettled::{Key, Wait, Waits};
use std::alloc::AllocError;

impl Tables {
    /// How many packets the turn may put at most as reports of the messages of a port and route: none where the messages are
    /// direct.
    pub(crate) fn most_reports(&self, key: &Key) -> usize
        ensures enough { reports_for key.now self.now ≤ result }
        ensures small { result < 2 ^ 63 }
    {
        match key.route {
            None => 0,
            Some(_) => self.waits.len(key),
        }
    }

    /// Where the port will be located, for messages that leave, once the answer is learned.
    fn newest_after(&self, port: Ui, answer: Answer) -> (u16, u64)
        requires kind { port.kind ≡ Kind.Port }
        requires site { has_site self.now.layout port.site ≡ true }
        requires teaches { MayTeach self.now.layout port (taught answer) }
        ensures value { result ≡ newest_of self.now.layout port
            (taught_of port (taught answer) (kept self.now.known) port) }
        ensures in_layout { has_place self.now.layout result.0 ≡ true }
    {
        let known = self.hints.newest(port);
        match answer {
            Answer::Stale { to, hop } | Answer::Elsewhere { to, hop } if known.1 < hop => (to, hop),
            _ => known,
        }
    }

    /// A copy of the message that will be tried at another place: of those of a port and route, from the one at `start` on, and
    /// then of `last`, once the answer is learned.
    pub(crate) fn copy_leaving(
        &self,
        key: &Key,
        start: usize,
        last: Option<&Wait>,
        answer: Answer,
    ) -> Result<Option<Wait>, AllocError>
        requires kind { key.now.port.kind ≡ Kind.Port }
        requires start { start ≤ length (waits_for key.now self.now) }
        requires teaches { MayTeach self.now.layout key.now.port (taught answer) }
        ensures { IfOk result (λ again. again ≡
            leaving_after key.now answer start (option_copied last.entry) self.now) }
    {
        let port = key.port;
        if !self.layout.has_site(port.site()) {
            return Ok(None);
        }
        let (to, _) = self.newest_after(port, answer);
        if to == self.number {
            return Ok(None);
        }
        first_to(self.layout, &self.waits, key, start, last, to)
    }
}

/// Whether a message may be tried at the place: it is on the site, where the message demands one.
pub(crate) fn is_on_site(layout: Layout, only: Option<u16>, place: u16) -> bool
    requires { has_place layout place ≡ true }
    ensures { result ≡ is_on_site layout only place }
{
    match only {
        Some(site) => layout.site_of(place) == site,
        None => true,
    }
}

/// A copy of the first message that may be tried at the place `to`: of those of a port and route, from the one at `start` on,
/// and then of `last`. The only error is want of memory.
fn first_to(
    layout: Layout,
    waits: &Waits,
    key: &Key,
    start: usize,
    last: Option<&Wait>,
    to: u16,
) -> Result<Option<Wait>, AllocError>
    requires start { start ≤ length (queue waits.now key.now).waits }
    requires place { has_place layout to ≡ true }
    ensures { IfOk result (λ again. again ≡ first_to layout to
        (drop start (queue waits.now key.now).waits ++ option_to_list (option_copied last.entry))) }
{
    let len = waits.len(key);
    for at in start..len {
        let Some(wait) = waits.get(key, at) else {
            unreachable!()
        };
        if is_on_site(layout, wait.only, to) {
            let again = wait.copied()?;
            return Ok(Some(again));
        }
    }
    let Some(wait) = last else {
        return Ok(None);
    };
    if is_on_site(layout, wait.only, to) {
        let again = wait.copied()?;
        return Ok(Some(again));
    }
    Ok(None)
}
