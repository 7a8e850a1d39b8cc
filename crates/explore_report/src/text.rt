//! The text of what may come of a race.

ghost use Rattle.std.specs.Prelude.{◌≡◌, ◌≤◌, ◌++◌, length, map, IfOk, OnOk};
ghost use Rattle.std.specs.List.{flat_map};
ghost use Rattle.chorus_show.specs.Journal.{count_line};
ghost use Rattle.explore_report.specs.Lines.{line_of, lines_of_all, texts_lines};
ghost use Rattle.explore_report.specs.Reports.{always_text, behind_word, facts_of, facts_text, few_outcomes, front_words, is_named, is_shown, is_told, limit_line, outcomes_from, place_in, report_text, rest_text, schedule_text, schedules_from, step_line, subject_of, tell_line, tell_lines, told_line, told_of};

use crate::explored::Explored;
use crate::findings::Finding;
use crate::lines::{Line, Lines, always_of, has_line, is_same, lines_of_all, outcomes_with};
use chorus_ui::push_decimal;
use law_explore::Move;
use std::alloc::{AllocError, Global};

/// The most outcomes that are told whole.
pub(crate) const OUTCOMES_TOLD: usize = 64;

/// A fact, and the number of the first outcome that has it.
#[derive(Drop)]
pub(crate) struct Told<'a> {
    pub(crate) outcome: u64,
    pub(crate) line: &'a [u8],
}

/// The text of what was found: how many histories and events, whether a limit was met, the single facts, the lines that are
/// in each outcome, the outcomes without these where they are at most 64, and a schedule for each that is told. The only error
/// is want of memory.
pub fn report(alloc: Global, explored: &Explored) -> Result<Vec<u8>, AllocError>
    ensures { IfOk result (λ text. text.items ≡ report_text explored.now) }
{
    let items = &explored.findings.items;
    let all = lines_of_all(alloc, items)?;
    let facts = facts_of(alloc, &all)?;
    let always = always_of(alloc, &all)?;
    let is_few = items.len() <= OUTCOMES_TOLD;
    let mut text = Vec::new(alloc);
    push_count("histories", explored.histories, &mut text)?;
    push_count("events", explored.events, &mut text)?;
    push_limit(explored.is_cut, explored.bound as u64, &mut text)?;
    push_facts(&facts, &all, &mut text)?;
    push_always(items.len(), &always, &mut text)?;
    push_outcomes(items, is_few, &all, &always, &mut text)?;
    push_schedules(items, is_few, &facts, &mut text)?;
    text.extend_from_slice(b"end\n")?;
    Ok(text)
}

/// The single facts, each once, with the number of the first outcome that has it; those of one subject stand together.
fn facts_of<'a>(alloc: Global, all: &[Lines<'a>]) -> Result<Vec<Told<'a>>, AllocError>
    ensures { IfOk result (λ facts. map told_of facts.items ≡ facts_of (lines_of_all all.now)) }
{
    let mut facts = Vec::new(alloc);
    for index in 0..all.len() {
        tell(index as u64 + 1, &all[index].lines, &mut facts)?;
    }
    Ok(facts)
}

/// Adds to the single facts the lines of an outcome that were not told yet.
fn tell<'a>(outcome: u64, lines: &[Line<'a>], facts: &mut Vec<Told<'a>>) -> Result<(), AllocError>
    ensures { OnOk result (map told_of facts.new.items
        ≡ tell_lines outcome (map line_of lines.now) (map told_of facts.old.items)) }
{
    for line in lines {
        tell_line(outcome, line.bytes, facts)?;
    }
    Ok(())
}

/// Adds the line to the single facts, where it was not told yet.
fn tell_line<'a>(outcome: u64, line: &'a [u8], facts: &mut Vec<Told<'a>>) -> Result<(), AllocError>
    ensures { OnOk result (map told_of facts.new.items
        ≡ tell_line outcome line.now (map told_of facts.old.items)) }
{
    if is_told(line, facts) {
        return Ok(());
    }
    let place = place_in(facts, line);
    facts.insert(place, Told { outcome, line })?;
    Ok(())
}

/// Whether the line was told as one of the single facts.
fn is_told(line: &[u8], facts: &[Told<'_>]) -> bool
    ensures { result ≡ is_told line.now (map told_of facts.now) }
{
    for fact in facts {
        if is_same(fact.line, line) {
            return true;
        }
    }
    false
}

/// Where the line is put among the single facts: behind the last fact of the same subject, or behind all.
fn place_in(facts: &[Told<'_>], line: &[u8]) -> usize
    ensures within { result ≤ length facts.now }
    ensures value { result ≡ place_in line.now (map told_of facts.now) }
{
    let subject = subject_of(line);
    let mut place = facts.len();
    for index in 0..facts.len() {
        if is_same(subject_of(facts[index].line), subject) {
            place = index + 1;
        }
    }
    place
}

/// The words that a fact's line is about: two of an answer, one of anything else, each behind the line's first word.
fn subject_of(line: &[u8]) -> &[u8]
    ensures { result.now ≡ subject_of line.now }
{
    let words = if line.first() == Some(&b'a') { 2 } else { 1 };
    front_words(words, behind_word(line))
}

/// What stands behind the first word of a fact's line and its space.
fn behind_word(line: &[u8]) -> &[u8]
    ensures { result.now ≡ behind_word line.now }
{
    for index in 0..line.len() {
        if line[index] == b' ' {
            return &line[index + 1..];
        }
    }
    &line[line.len()..]
}

/// The first words of a fact's line, so many.
fn front_words(words: u32, line: &[u8]) -> &[u8]
    ensures { result.now ≡ front_words words line.now }
{
    let mut left = words;
    for index in 0..line.len() {
        if line[index] == b' ' || line[index] == b'\n' {
            if left <= 1 {
                return &line[..index];
            }
            left -= 1;
        }
    }
    line
}

/// Appends how many single facts there are, and each with the number of the first outcome that has it and in how many of all
/// outcomes it is.
fn push_facts(facts: &[Told<'_>], all: &[Lines<'_>], text: &mut Vec<u8>) -> Result<(), AllocError>
    ensures { OnOk result (text.new.items
        ≡ text.old.items ++ facts_text (lines_of_all all.now) (map told_of facts.now)) }
{
    push_count("facts", facts.len() as u64, text)?;
    for fact in facts {
        push_fact(fact, all, text)?;
    }
    Ok(())
}

/// Appends a single fact.
fn push_fact(fact: &Told<'_>, all: &[Lines<'_>], text: &mut Vec<u8>) -> Result<(), AllocError>
    ensures { OnOk result (text.new.items
        ≡ text.old.items ++ told_line (lines_of_all all.now) (told_of fact.now)) }
{
    push_decimal(fact.outcome, text)?;
    text.push(b' ')?;
    push_decimal(outcomes_with(fact.line, all), text)?;
    text.push(b'/')?;
    push_decimal(all.len() as u64, text)?;
    text.push(b' ')?;
    text.extend_from_slice(fact.line)
}

/// Appends the number of the outcomes, and the lines that are in each.
fn push_always(outcomes: usize, always: &[Line<'_>], text: &mut Vec<u8>) -> Result<(), AllocError>
    ensures { OnOk result (text.new.items
        ≡ text.old.items ++ always_text outcomes (map line_of always.now)) }
{
    push_count("outcomes", outcomes as u64, text)?;
    push_count("always", always.len() as u64, text)?;
    for line in always {
        text.extend_from_slice(line.bytes)?;
    }
    Ok(())
}

/// Appends each outcome, without the lines that are in each, where they are few.
fn push_outcomes(
    items: &[Finding],
    is_few: bool,
    all: &[Lines<'_>],
    always: &[Line<'_>],
    text: &mut Vec<u8>,
) -> Result<(), AllocError>
    requires { lines_of_all all.now ≡ texts_lines items.now }
    ensures { OnOk result (text.new.items ≡ text.old.items
        ++ few_outcomes is_few (map line_of always.now) items.now) }
{
    if is_few {
        push_each(items, all, always, text)?;
    }
    Ok(())
}

/// Appends each outcome, without the lines that are in each.
fn push_each(
    items: &[Finding],
    all: &[Lines<'_>],
    always: &[Line<'_>],
    text: &mut Vec<u8>,
) -> Result<(), AllocError>
    requires { lines_of_all all.now ≡ texts_lines items.now }
    ensures { OnOk result (text.new.items
        ≡ text.old.items ++ outcomes_from 1 (map line_of always.now) items.now) }
{
    for index in 0..items.len() {
        text.push(b'\n')?;
        push_count("outcome", index as u64 + 1, text)?;
        push_count("histories", items[index].histories, text)?;
        push_rest(&all[index].lines, always, text)?;
    }
    Ok(())
}

/// Appends the lines of an outcome that are not in each.
fn push_rest(lines: &[Line<'_>], always: &[Line<'_>], text: &mut Vec<u8>) -> Result<(), AllocError>
    ensures { OnOk result (text.new.items
        ≡ text.old.items ++ rest_text (map line_of always.now) (map line_of lines.now)) }
{
    for line in lines {
        if !has_line(line.bytes, always) {
            text.extend_from_slice(line.bytes)?;
        }
    }
    Ok(())
}

/// Appends the schedules of the outcomes that were told whole, or that a fact names.
fn push_schedules(
    items: &[Finding],
    is_few: bool,
    facts: &[Told<'_>],
    text: &mut Vec<u8>,
) -> Result<(), AllocError>
    ensures { OnOk result (text.new.items
        ≡ text.old.items ++ schedules_from 1 is_few (map told_of facts.now) items.now) }
{
    for index in 0..items.len() {
        let number = index as u64 + 1;
        push_schedule(
            number,
            is_shown(number, is_few, facts),
            &items[index].moves,
            text,
        )?;
    }
    Ok(())
}

/// Appends the schedule of the outcome of this number, where it is shown.
fn push_schedule(
    number: u64,
    is_shown: bool,
    moves: &[Move],
    text: &mut Vec<u8>,
) -> Result<(), AllocError>
    ensures { OnOk result (text.new.items
        ≡ text.old.items ++ schedule_text number is_shown moves.now) }
{
    if !is_shown {
        return Ok(());
    }
    text.push(b'\n')?;
    push_count("schedule", number, text)?;
    push_steps(moves, text)
}

/// Whether the schedule of the outcome of this number is shown.
fn is_shown(number: u64, is_few: bool, facts: &[Told<'_>]) -> bool
    ensures { result ≡ is_shown number is_few (map told_of facts.now) }
{
    is_few || is_named(number, facts)
}

/// Whether one of the single facts is told with the number of this outcome.
fn is_named(outcome: u64, facts: &[Told<'_>]) -> bool
    ensures { result ≡ is_named outcome (map told_of facts.now) }
{
    for fact in facts {
        if fact.outcome == outcome {
            return true;
        }
    }
    false
}

/// Appends the moves as the steps of a schedule. After an error a part of it may stand there.
pub fn push_steps(moves: &[Move], text: &mut Vec<u8>) -> Result<(), AllocError>
    ensures { OnOk result (text.new.items ≡ text.old.items ++ flat_map step_line moves.now) }
{
    for mv in moves {
        push_step(*mv, text)?;
    }
    Ok(())
}

/// Appends the move as a step of a schedule.
fn push_step(mv: Move, text: &mut Vec<u8>) -> Result<(), AllocError>
    ensures { OnOk result (text.new.items ≡ text.old.items ++ step_line mv) }
{
    match mv {
        Move::Go { script } => push_count("step", u64::from(script) + 1, text),
        Move::Carry { from, to } => {
            text.extend_from_slice(b"deliver ")?;
            push_decimal(u64::from(from), text)?;
            text.push(b' ')?;
            push_decimal(u64::from(to), text)?;
            text.push(b'\n')?;
            Ok(())
        }
    }
}

/// Appends the report's line that tells whether a limit was met, and if one was, of how many moves no history is missing.
fn push_limit(is_cut: bool, bound: u64, text: &mut Vec<u8>) -> Result<(), AllocError>
    ensures { OnOk result (text.new.items ≡ text.old.items ++ limit_line is_cut bound) }
{
    if is_cut {
        push_count("some", bound, text)
    } else {
        text.extend_from_slice(b"all\n")
    }
}

/// Appends the line that has the word and the number. After an error a part of it may stand there.
pub fn push_count(word: &str, number: u64, text: &mut Vec<u8>) -> Result<(), AllocError>
    ensures { OnOk result (text.new.items
        ≡ text.old.items ++ count_line word.now number) }
{
    text.extend_from_slice(word.as_bytes())?;
    text.push(b' ')?;
    push_decimal(number, text)?;
    text.push(b'\n')?;
    Ok(())
}
