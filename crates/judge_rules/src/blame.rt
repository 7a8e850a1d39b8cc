//! What is said of an entry that may not come next.

ghost use Rattle.std.specs.Prelude.{◌≡◌};
ghost use Rattle.chorus_checker.specs.Rules.{act_number, rule_of};
ghost use Rattle.chorus_world.specs.Places.{just_taken};
ghost use Rattle.chorus_world.specs.Steps.{is_timely, may_stand_behind};
ghost use Rattle.chorus_world.specs.Views.{at, views};
ghost use Rattle.judge_rules.specs.Blames.{act_blamed, blame, blamed, line_behind, reply_blamed, timely};
ghost use Rattle.judge_rules.specs.Conditions.{first_failing};

use crate::about::{About, about_line};
use crate::acts::act_failed;
use crate::failing::{Failed, fails_at};
use checker_ledger::Ledger;
use chorus_entry::{Act, Entry};

/// The rule by which the take of a reply is blamed, behind which neither a done nor a late stands.
pub const REPLY_RULE: u8 = 41;

/// Why an entry of a journal may not come next.
#[derive(Clone, Copy, Debug, PartialEq, Eq)]
pub struct Blame {
    /// The line that is wrong, from 1: that of the entry, or by [`REPLY_RULE`] that of the take before it.
    pub line: u64,
    /// The rule: 0 for its place or its clock, else the number of its act, or [`REPLY_RULE`].
    pub rule: u8,
    /// Which condition of the rule is the first that fails, from 1.
    pub condition: u8,
    /// The line of the earlier entry that the condition is about, or 0. By [`REPLY_RULE`] it is the line of the entry.
    pub about: u64,
}

/// Why the entry may not come next, behind those of the ledger, where it may not. An audit refuses it by this rule.
pub fn blame_for(ledger: &Ledger, entry: &Entry, rule: u8) -> Blame
    requires { rule ≡ rule_of ledger.now.layout ledger.now.past entry.now }
    ensures { result ≡ blame ledger.now.layout ledger.now.past entry.now }
{
    if !is_timely(ledger, entry) {
        return blamed(ledger, 0, timely_failed(ledger, entry));
    }
    act_blamed(ledger, entry, rule)
}

/// Whether the entry's place is one of the layout, and its clock above the last one there, by which it is judged.
fn is_timely(ledger: &Ledger, entry: &Entry) -> bool
    ensures { result ≡ is_timely ledger.now.layout
        (views ledger.now.past entry.now.place entry.now.seat entry.now.act) entry.now }
{
    ledger.layout().has_place(entry.place) && ledger.last_clock(entry.place) < entry.clock
}

/// Which condition fails of an entry that is not timely.
fn timely_failed(ledger: &Ledger, entry: &Entry) -> Failed
    ensures { result ≡ first_failing 1 (timely ledger.now.layout ledger.now.past entry.now) }
{
    if ledger.layout().has_place(entry.place) {
        fails_at(2, About::At { place: entry.place })
    } else {
        fails_at(1, About::Nothing)
    }
}

/// Whether the act may stand behind what was taken last at its place, by which it is judged.
fn may_stand_behind(ledger: &Ledger, place: u16, act: &Act) -> bool
    ensures { result ≡ may_stand_behind
        (just_taken ledger.now.past (at place ledger.now.past)) act.now }
{
    match ledger.just_taken(place) {
        Some(_) => matches!(act, Act::Done { .. } | Act::Late { .. }),
        None => true,
    }
}

/// Why the entry may not come next by its act, which has this number.
fn act_blamed(ledger: &Ledger, entry: &Entry, rule: u8) -> Blame
    requires { rule ≡ act_number entry.now.act }
    ensures { result ≡ act_blamed ledger.now.layout ledger.now.past entry.now }
{
    if !entry.act.has_kinds() {
        return blamed(ledger, rule, fails_at(1, About::Nothing));
    }
    if !may_stand_behind(ledger, entry.place, &entry.act) {
        return reply_blamed(ledger, entry.place);
    }
    let failed = act_failed(ledger, entry.place, entry.seat, &entry.act);
    blamed(ledger, rule, failed)
}

/// The line of an entry behind those of the ledger, of a journal that is judged.
fn line_behind(ledger: &Ledger) -> u64
    ensures { result ≡ line_behind ledger.now.past }
{
    ledger.entries().len() as u64 + 2
}

/// The blame on the next entry, by this rule, of which this condition fails.
fn blamed(ledger: &Ledger, rule: u8, failed: Failed) -> Blame
    ensures { result ≡ blamed ledger.now.past rule failed }
{
    Blame {
        line: line_behind(ledger),
        rule,
        condition: failed.number,
        about: about_line(ledger.entries(), &failed.about),
    }
}

/// The blame on the last entry of the place, the take of a reply.
fn reply_blamed(ledger: &Ledger, place: u16) -> Blame
    ensures { result ≡ reply_blamed ledger.now.past place }
{
    Blame {
        line: about_line(ledger.entries(), &About::At { place }),
        rule: REPLY_RULE,
        condition: 1,
        about: line_behind(ledger),
    }
}
