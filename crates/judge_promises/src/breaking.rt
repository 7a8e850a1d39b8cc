//! Which promise an entry breaks, found.

ghost use Rattle.std.specs.Prelude.{◌≡◌, ◌≤◌, ◌^◌, ◌<◌, length};
ghost use Rattle.chorus_checker.specs.Rules.{act_number};
ghost use Rattle.judge_promises.specs.Breaches.{breach, breach_by, failing};
ghost use Rattle.judge_promises.specs.Conditions.{conditions, timely};
ghost use Rattle.judge_promises.specs.Terms.{is_read, read};

use crate::acts::act_failing;
use crate::breach::Breach;
use crate::log::Log;
use chorus_entry::{Act, Entry};

/// Whether the act is one that is read.
pub(crate) fn is_read(act: &Act) -> bool
    ensures { result ≡ is_read act.now }
{
    match act {
        Act::Make { .. }
        | Act::Post { .. }
        | Act::Choose { .. }
        | Act::Take { .. }
        | Act::Depart { .. }
        | Act::Arrive { .. }
        | Act::Delete { .. } => true,
        _ => act.is_verdict(),
    }
}

/// The first of the conditions, numbered from 1, that does not hold, by this rule.
pub(crate) fn first_failing(rule: u8, conditions: &[bool]) -> Option<Breach>
    requires { length conditions.now < 2 ^ 8 }
    ensures { result ≡ failing rule 1 conditions.now }
{
    for (i, holds) in conditions.iter().enumerate() {
        if !*holds {
            return Some(Breach {
                rule,
                condition: i as u8 + 1,
            });
        }
    }
    None
}

/// What an entry breaks by its place, its clock and its names.
fn timely_failing(log: &Log, entry: &Entry) -> Option<Breach>
    ensures { result ≡ failing 0 1 (timely log.now.layout (read log.now.past) entry.now) }
{
    first_failing(
        0,
        &[
            log.layout().has_place(entry.place),
            log.last_clock(entry.place) < entry.clock,
            entry.act.has_kinds(),
        ],
    )
}

/// What the entry breaks, behind those of the log.
pub(crate) fn breach_by(log: &Log, entry: &Entry) -> Option<Breach>
    ensures { result ≡ breach_by log.now.layout log.now.past entry.now }
{
    if !is_read(&entry.act) {
        return None;
    }
    match timely_failing(log, entry) {
        Some(breach) => Some(breach),
        None => act_failing(log, entry.place, entry.seat, &entry.act),
    }
}
