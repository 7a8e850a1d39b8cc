//! Worked journals, applied entry by entry, and for each act an entry that its rule refuses.
//!
//! A journal is written as its lines are printed (docs/FORMATS.md, "Journal text"), and [`parse_entry`] reads them. A line
//! `! RULE: ENTRY` has an entry that the world refuses there by that rule, and so is no line of the journal.

mod calls;
mod groups;
mod moves;
mod sending;

use chorus_audit::parse_entry;
use chorus_checker::{PortState, World, WorldFault};
use chorus_entry::Entry;
use chorus_ui::{Layout, Ui};
use std::alloc::Global;
use std::process::Abort;

/// The name with this text in a worked journal.
fn named(rt: &impl Abort, text: &str) -> Ui {
    Ui::parse(text.as_bytes()).expect(rt, "a name")
}

/// What became of the port with this name, which is made, in the checker's world.
fn fate_of<'a>(rt: &impl Abort, world: &'a World, name: &str) -> &'a PortState {
    world.port(named(rt, name)).expect(rt, "the port is made")
}

/// The checker follows the worked journal of each row, for its sites and the places of each.
#[test]
fn worked_journals_are_followed(rt: HostRuntime) {
    for journals in [
        sending::JOURNALS,
        moves::JOURNALS,
        groups::JOURNALS,
        calls::JOURNALS,
    ] {
        assert_each_is_followed(&rt, rt.alloc(), journals);
    }
}

/// Asserts that the checker follows the worked journal of each row.
fn assert_each_is_followed(rt: &impl Abort, alloc: Global, journals: &[(&str, u16, u16, &str)]) {
    for (name, sites, turns, journal) in journals {
        replay(rt, alloc, name, *sites, *turns, journal);
    }
}

/// The checker's world of so many sites, each with so many places, after the worked journal of this name.
fn replay(
    rt: &impl Abort,
    alloc: Global,
    name: &str,
    sites: u16,
    turns: u16,
    journal: &str,
) -> World {
    let layout = Layout::new(sites, turns).expect(rt, "a layout");
    let mut world = World::opening(alloc, layout).expect(rt, "memory");
    follow(rt, alloc, &mut world, name, journal);
    world
}

/// The checker's world takes or refuses the entry of each line of a worked journal, as the line says.
fn follow(rt: &impl Abort, alloc: Global, world: &mut World, name: &str, journal: &str) {
    for line in journal.lines() {
        let line = line.trim();
        if !line.is_empty() {
            follow_line(rt, alloc, world, name, line);
        }
    }
}

/// The checker's world takes or refuses the entry of the worked journal's line, as the line says.
fn follow_line(rt: &impl Abort, alloc: Global, world: &mut World, name: &str, line: &str) {
    let (rule, line) = rule_in(rt, line);
    let Some(entry) = parse_entry(alloc, line.as_bytes()).expect(rt, "memory") else {
        panic!(rt; "{name}: no entry: {line}")
    };
    assert_eq!(rt; refusal(rt, world, entry), rule, "{name}: {line}");
}

/// The rule that refuses the entry of a worked journal's line, None where the entry is taken, and what says the entry.
fn rule_in<'a>(rt: &impl Abort, line: &'a str) -> (Option<u8>, &'a str) {
    match line.strip_prefix('!') {
        Some(refused) => {
            let (rule, line) = refused.split_once(':').expect(rt, "a rule");
            let rule = rule.trim().parse().ok().expect(rt, "a number");
            (Some(rule), line.trim())
        }
        None => (None, line),
    }
}

/// The rule by which the checker's world refuses the entry. None where it takes it.
fn refusal(rt: &impl Abort, world: &mut World, entry: Entry) -> Option<u8> {
    match world.apply(entry) {
        Ok(()) => None,
        Err(WorldFault::NotLegal { rule }) => Some(rule),
        Err(WorldFault::Memory(_)) => panic!(rt; "memory"),
    }
}
