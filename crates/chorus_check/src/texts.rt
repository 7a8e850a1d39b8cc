//! The text of a check.

ghost use Rattle.std.specs.Prelude.{◌≡◌, ◌++◌, ◌∷◌, [], if◌then◌else◌, decimal, length, map, IfOk, OnOk};
ghost use Rattle.chorus_show.specs.Phrases.{phrase};
ghost use Rattle.explore_report.specs.declared.explored.Explored.{Explored};
ghost use Rattle.explore_report.specs.Lines.{lines_in};
ghost use Rattle.chorus_explore.specs.Checked as Verdict;
ghost use Rattle.chorus_explore.specs.Checked.{facts_in, verdict_of, verdicts_of};
ghost use Rattle.chorus_check.specs.Texts.{check_text, drawn_line, schedule_text, schedule_texts, met_word, unmet_word, verdict_line, verdict_lines, verdict_text};

use crate::schedules::Schedules;
use chorus_claims::Claim;
use chorus_scene::ClaimText;
use chorus_ui::push_decimal;
use explore_report::{Explored, Judgement, push_count, push_steps};
use std::alloc::{AllocError, Global};

/// The text of what was found by these schedules of the claims, which are spelled so: where they are
/// drawn, by what, how many events it took, what is said of each claim, and of each that a schedule
/// does not meet that schedule and the facts where it leads. The only error is want of memory.
pub(crate) fn check_text(
    alloc: Global,
    schedules: Schedules,
    texts: &[ClaimText],
    claims: &[Claim],
    explored: &Explored,
) -> Result<Vec<u8>, AllocError>
    requires claims { length claims.now ≡ length texts.now }
    requires judged { length explored.now.judged.items ≡ length claims.now }
    ensures { IfOk result (λ text. text.items ≡ check_text schedules explored.now.events
        texts.now claims.now (verdicts_of explored.now) (map facts_in explored.now.judged.items)) }
{
    let mut text = Vec::new(alloc);
    push_drawn(schedules, &mut text)?;
    push_count("events", explored.events, &mut text)?;
    push_count("claims", texts.len() as u64, &mut text)?;
    push_verdicts(texts, claims, explored, &mut text)?;
    push_schedules(explored, &mut text)?;
    text.extend_from_slice(b"end\n")?;
    Ok(text)
}

/// Appends by what the schedules are drawn, where they are.
fn push_drawn(schedules: Schedules, text: &mut Vec<u8>) -> Result<(), AllocError>
    ensures { OnOk result (text.new.items ≡ text.old.items ++ drawn_line schedules) }
{
    match schedules {
        Schedules::All { .. } => Ok(()),
        Schedules::Drawn { count, first } => push_draws(count, first, text),
    }
}

/// Appends the line of so many schedules that are drawn from the first state on.
fn push_draws(count: u32, first: u64, text: &mut Vec<u8>) -> Result<(), AllocError>
    ensures { OnOk result (text.new.items
        ≡ text.old.items ++ drawn_line (Schedules.Drawn count first)) }
{
    push_counted("drawn", u64::from(count), text)?;
    text.push(b' ')?;
    push_decimal(first, text)?;
    text.push(b'\n')?;
    Ok(())
}

/// Appends a line for each claim.
fn push_verdicts(
    texts: &[ClaimText],
    claims: &[Claim],
    explored: &Explored,
    text: &mut Vec<u8>,
) -> Result<(), AllocError>
    requires claims { length claims.now ≡ length texts.now }
    requires judged { length explored.now.judged.items ≡ length claims.now }
    ensures { OnOk result (text.new.items ≡ text.old.items
        ++ verdict_lines 1 texts.now claims.now (verdicts_of explored.now)) }
{
    for index in 0..texts.len() {
        let number = index as u64 + 1;
        let judgement = &explored.judged[index];
        push_line(
            number,
            &texts[index],
            &claims[index],
            judgement,
            explored,
            text,
        )?;
    }
    Ok(())
}

/// Appends the line of the claim of this number, of which this was found by a search that came to
/// this.
fn push_line(
    number: u64,
    spelled: &ClaimText,
    claim: &Claim,
    judgement: &Judgement,
    explored: &Explored,
    text: &mut Vec<u8>,
) -> Result<(), AllocError>
    ensures { OnOk result (text.new.items ≡ text.old.items
        ++ verdict_line number spelled.now claim.now (verdict_of explored.now judgement.now)) }
{
    push_decimal(number, text)?;
    text.push(b' ')?;
    push_verdict(claim.is_possible(), judgement, explored, text)?;
    text.push(b' ')?;
    text.extend_from_slice(spelled.text())?;
    text.push(b'\n')?;
    Ok(())
}

/// Appends what is said of a claim of which this was found by a search that came to this.
fn push_verdict(
    is_possible: bool,
    judgement: &Judgement,
    explored: &Explored,
    text: &mut Vec<u8>,
) -> Result<(), AllocError>
    ensures { OnOk result (text.new.items ≡ text.old.items
        ++ verdict_text is_possible (verdict_of explored.now judgement.now)) }
{
    match judgement {
        Judgement::Failed { moves, .. } => {
            push_counted(unmet_word(is_possible), moves.len() as u64, text)
        }
        Judgement::Met => push_met(is_possible, explored.is_cut, explored.bound as u64, text),
    }
}

/// Appends what is said of a claim that all histories met that were found.
fn push_met(
    is_possible: bool,
    is_cut: bool,
    bound: u64,
    text: &mut Vec<u8>,
) -> Result<(), AllocError>
    ensures { OnOk result (text.new.items ≡ text.old.items
        ++ verdict_text is_possible (if is_cut then Verdict.Open bound else Verdict.Holds)) }
{
    if is_cut {
        push_counted("open", bound, text)
    } else {
        text.extend_from_slice(met_word(is_possible).as_bytes())
    }
}

/// Appends the word and the number behind it.
fn push_counted(word: &str, number: u64, text: &mut Vec<u8>) -> Result<(), AllocError>
    ensures { OnOk result (text.new.items ≡ text.old.items
        ++ phrase word.now (decimal number ∷ [])) }
{
    text.extend_from_slice(word.as_bytes())?;
    text.push(b' ')?;
    push_decimal(number, text)
}

/// The word for a claim that all schedules meet.
fn met_word(is_possible: bool) -> &'static str
    ensures { result.now ≡ met_word is_possible }
{
    if is_possible { "fails" } else { "holds" }
}

/// The word for a claim that a schedule does not meet.
fn unmet_word(is_possible: bool) -> &'static str
    ensures { result.now ≡ unmet_word is_possible }
{
    if is_possible { "holds" } else { "fails" }
}

/// Appends of each claim that a schedule does not meet that schedule, and the facts where it leads.
fn push_schedules(explored: &Explored, text: &mut Vec<u8>) -> Result<(), AllocError>
    ensures { OnOk result (text.new.items ≡ text.old.items
        ++ schedule_texts 1 (verdicts_of explored.now) (map facts_in explored.now.judged.items)) }
{
    for index in 0..explored.judged.len() {
        push_schedule(index as u64 + 1, &explored.judged[index], text)?;
    }
    Ok(())
}

/// Appends the schedule of the claim of this number, of which this was found, and the facts where
/// it leads.
fn push_schedule(number: u64, judgement: &Judgement, text: &mut Vec<u8>) -> Result<(), AllocError>
    ensures { OnOk result ((e : Explored) → text.new.items ≡ text.old.items
        ++ schedule_text number (verdict_of e judgement.now) (facts_in judgement.now)) }
{
    match judgement {
        Judgement::Met => Ok(()),
        Judgement::Failed { moves, text: facts } => {
            push_count("schedule", number, text)?;
            push_steps(moves, text)?;
            push_count("facts", line_count(facts), text)?;
            text.extend_from_slice(facts)
        }
    }
}

/// How many lines of facts a text has.
fn line_count(facts: &[u8]) -> u64
    ensures { result ≡ length (lines_in facts.now) }
{
    let mut count = 0;
    for byte in facts {
        if *byte == b'\n' {
            count += 1;
        }
    }
    count
}
