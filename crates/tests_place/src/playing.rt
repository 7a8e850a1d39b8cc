//! Scenarios, played over places, and tables of them.
//!
//! A row of a table is a text: its name with the numbers of sites and of turns, and the lines of a scenario between the
//! first and `end` (they may name sixteen sites). Behind these stands `journal` with the last lines of the journals, by
//! clock and then by place; a test may have other rows, with what it likes in its place. A line `end` ends the row.

use crate::net::{Net, Plays};
use chorus_entry::Command;
use chorus_place::Place;
use chorus_scene::{Scenario, Script, SetupLine, Step, read};
use chorus_ui::Layout;
use std::alloc::Global;
use std::process::Abort;
use tests_rows::WorkedRow;

/// A row of a table: its name, how many sites and turns there are, and its other lines.
#[derive(Clone, Copy)]
pub(crate) struct Row<'a> {
    pub(crate) name: &'a str,
    pub(crate) sites: u16,
    pub(crate) turns: u16,
    pub(crate) lines: &'a str,
}

/// The rows of a table of scenarios that are played over places.
pub(crate) fn rows_of<'a>(rt: &impl Abort, alloc: Global, table: &'a str) -> Vec<Row<'a>> {
    let mut rows = Vec::new(alloc);
    let mut rest = table;
    for _ in 0..table.len() {
        let Some((row, others)) = rest.split_once("end\n") else {
            break;
        };
        rows.push(row_of(rt, row)).ok().expect(rt, "memory");
        rest = others;
    }
    assert!(rt; rest.is_empty(), "{rest}");
    rows
}

/// What stands before and behind the mark in the text of a row, where what is wanted ends there.
fn parted<'a>(rt: &impl Abort, text: &'a str, mark: &str, wanted: &str) -> (&'a str, &'a str) {
    text.split_once(mark).expect(rt, wanted)
}

/// The number of sites or of turns in the head of a row; another word ends the test.
fn number_of(rt: &impl Abort, text: &str) -> u16 {
    text.parse::<u16>().ok().expect(rt, "a number")
}

/// Splits a row of a table of scenarios that are played over places, such as `name: 3 1` and lines, into its name, sites, turns and
/// lines.
fn row_of<'a>(rt: &impl Abort, row: &'a str) -> Row<'a> {
    let (name, rest) = parted(rt, row, ": ", "a name");
    let (sites, rest) = parted(rt, rest, " ", "sites");
    let (turns, lines) = parted(rt, rest, "\n", "turns");
    Row {
        name,
        sites: number_of(rt, sites),
        turns: number_of(rt, turns),
        lines,
    }
}

/// Plays each row of the table.
pub(crate) fn assert_rows(rt: &impl Abort, alloc: Global, table: &str) {
    for row in &rows_of(rt, alloc, table) {
        assert_row(rt, alloc, row);
    }
}

/// Plays the row of a table. The journals end as it says, and no packet is left.
fn assert_row(rt: &impl Abort, alloc: Global, row: &Row<'_>) {
    let (lines, journal) = parted(rt, row.lines, "journal\n", "a journal");
    let scenario = scenario_of(rt, alloc, lines, row.turns);
    let net: Net<Place> = play(rt, alloc, row.sites, row.turns, &scenario);
    assert_ends(rt, alloc, row.name, &net, journal);
}

/// Whether the text of journals ends with these lines, the first of which begins where a line of the text does.
fn ends_with_lines(text: &[u8], lines: &[u8]) -> bool {
    let front = text.len().saturating_sub(lines.len());
    text.ends_with(lines) && (front == 0 || text[front - 1] == b'\n')
}

/// The journals end with these lines, and no packet is left.
pub(crate) fn assert_ends<P: Plays>(
    rt: &impl Abort,
    alloc: Global,
    name: &str,
    net: &Net<P>,
    journal: &str,
) {
    let entries = net.lines(rt, alloc);
    assert!(rt;
        ends_with_lines(&entries, journal.as_bytes()),
        "the journal of {name}"
    );
    assert!(rt; net.waiting() == 0, "the packets of {name}");
}

/// The lines of the journals that a worked row prints.
pub(crate) fn journal_of<'a>(rt: &impl Abort, row: &WorkedRow<'a>) -> &'a str {
    let (_, printed) = parted(rt, row.printed, "\n", "a journal");
    let (journal, _) = parted(rt, printed, "summary\n", "a summary");
    journal
}

/// Plays the worked row. The journals are those that it prints, and no packet is left.
pub(crate) fn assert_worked(rt: &impl Abort, alloc: Global, row: &WorkedRow<'_>) {
    let scenario = scenario_in(rt, alloc, row.text, row.turns);
    let net: Net<Place> = play(rt, alloc, row.sites, row.turns, &scenario);
    let journal = journal_of(rt, row);
    assert_ends(rt, alloc, row.name, &net, journal);
    let entries = net.lines(rt, alloc);
    assert!(rt; entries.len() == journal.len(), "the whole journal");
}

/// The scenario of a row's lines.
fn scenario_of(rt: &impl Abort, alloc: Global, lines: &str, turns: u16) -> Scenario {
    let text = format!(in alloc; "chorus 2\nsites 16\n{lines}end\n");
    scenario_in(rt, alloc, text.expect(rt, "memory").as_str(), turns)
}

/// The scenario of the text, where each site has so many places.
fn scenario_in(rt: &impl Abort, alloc: Global, text: &str, turns: u16) -> Scenario {
    let layout = Layout::new(16, turns).expect(rt, "a layout");
    let scenario = read(alloc, text.as_bytes(), layout);
    scenario.ok().expect(rt, "a scenario")
}

/// The command by which seat 0 does what a setup line of a scenario declares.
fn command_of(line: SetupLine) -> Command {
    match line {
        SetupLine::Port { actor, capacity } => Command::Make { actor, capacity },
        SetupLine::Group { site } => Command::GroupMake { site },
        SetupLine::Member { group, port } => Command::Join { group, port },
    }
}

/// Performs the next command of the script of this number, where one is left.
fn step<P: Plays>(
    rt: &impl Abort,
    net: &mut Net<P>,
    scripts: &[Script],
    done: &mut [usize],
    number: u32,
) {
    let at = (number as usize).checked_sub(1).expect(rt, "a script");
    let script = scripts.get(at).expect(rt, "a script");
    let done = done.get_mut(at).expect(rt, "a script");
    if let Some(command) = script.commands().get(*done) {
        *done = done.saturating_add(1);
        perform(rt, net, number, command);
    }
}

/// Gives a copy of a script's command to the places, as one of this seat.
fn perform<P: Plays>(rt: &impl Abort, net: &mut Net<P>, seat: u32, command: &Command) {
    net.act(rt, seat, command.copied().expect(rt, "memory"));
}

/// Performs the commands of a script that are left, of which `done` were performed, each followed by a drain.
fn perform_all<P: Plays>(
    rt: &impl Abort,
    net: &mut Net<P>,
    seat: u32,
    script: &Script,
    done: usize,
) {
    for command in script.commands().iter().skip(done) {
        perform(rt, net, seat, command);
        net.drain(rt);
    }
}

/// Performs a scenario's setup by seat 0 and then its schedule. Gives how many commands of each script were performed.
fn follow<P: Plays>(
    rt: &impl Abort,
    alloc: Global,
    net: &mut Net<P>,
    scenario: &Scenario,
) -> Vec<usize> {
    for line in scenario.setup() {
        net.act(rt, 0, command_of(*line));
    }
    let mut done: Vec<usize> = Vec::new(alloc);
    for script in scenario.scripts() {
        net.enter(rt, script.actor());
        done.push(0).ok().expect(rt, "memory");
    }
    for item in scenario.schedule() {
        match item {
            Step::Step(number) => step(rt, net, scenario.scripts(), &mut done, *number),
            Step::Deliver(from, to) => {
                net.deliver(rt, *from, *to);
            }
            Step::Drain => net.drain(rt),
        }
    }
    done
}

/// The places of so many sites, on which nothing happened, and seat 0 in the first actor.
pub(crate) fn start(rt: &impl Abort, alloc: Global, sites: u16, turns: u16) -> Net<Place> {
    Net::start(rt, alloc, sites, turns)
}

/// The places after the scenario of these lines: the setup by seat 0, and the schedule. What it leaves is not
/// performed.
pub(crate) fn begin(
    rt: &impl Abort,
    alloc: Global,
    sites: u16,
    turns: u16,
    lines: &str,
) -> Net<Place> {
    let scenario = scenario_of(rt, alloc, lines, turns);
    let mut net = Net::start(rt, alloc, sites, turns);
    follow(rt, alloc, &mut net, &scenario);
    net
}

/// The places after the scenario: the setup by seat 0, the schedule, the commands that it leaves, and a drain.
fn play<P: Plays>(
    rt: &impl Abort,
    alloc: Global,
    sites: u16,
    turns: u16,
    scenario: &Scenario,
) -> Net<P> {
    let mut net = Net::start(rt, alloc, sites, turns);
    let done = follow(rt, alloc, &mut net, scenario);
    let mut seat: u32 = 0;
    for (script, done) in scenario.scripts().iter().zip(done.iter()) {
        seat = seat.saturating_add(1);
        perform_all(rt, &mut net, seat, script, *done);
    }
    net.drain(rt);
    net
}
