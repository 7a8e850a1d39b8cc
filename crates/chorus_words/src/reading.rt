//! The list of the program's words, read.

ghost use Rattle.std.specs.Prelude.{◌≡◌, ◌^◌, ◌<◌, ◌≤◌, ℕ, map, option_map, decimal, IfOk, IfSome, IsNone, Some};
ghost use Rattle.std.specs.List.{list_all};
ghost use Rattle.chorus_ui.specs.Layout.{IsLayout, Shape};
ghost use Rattle.chorus_words.specs.declared.words.TheConstants.{LOAD_LIMIT};
ghost use Rattle.chorus_words.specs.Words.{Ask, IsTurns};
ghost use Rattle.chorus_words.specs.Cutting.{is_value, AskByThree};

use crate::cutting::{FIRST, SECOND, WHAT, cut};
use crate::words::{LOAD_LIMIT, Words};
use chorus_ui::{Layout, parse_decimal};
use std::alloc::{AllocError, Global};

/// What the program's words ask. None exactly where they are not in the list; want of memory is the one error.
pub fn read_words<'a>(alloc: Global, words: &'a [&'a str]) -> Result<Option<Words>, AllocError>
    ensures some { IfOk result (λ read. IfSome read (Ask (map (λ word. word.now) words.now))) }
    ensures listed { (asked : Words) → Ask (map (λ word. word.now) words.now) asked →
        IfOk result (λ read. read ≡ Some asked) }
{
    if !are_values(words) {
        return Ok(None);
    }
    let Some(matches) = cut(alloc, words)? else {
        return Ok(None);
    };
    Ok(asked_by(
        matches.get_str(WHAT),
        matches.get_str(FIRST),
        matches.get_str(SECOND),
    ))
}

/// Whether each word of the command line may be a value: none is empty or begins with `-`.
fn are_values(words: &[&str]) -> bool
    ensures { result ≡ list_all (λ word. is_value word.now) words.now }
{
    words.iter().all(|word| is_value(word))
}

/// Whether the word is one that the list of the program's words may have: not empty, and not begun with `-`.
fn is_value(word: &str) -> bool
    ensures { result ≡ is_value word.now }
{
    !word.is_empty() && !word.starts_with('-')
}

/// What the program's words ask, by the first, the second and the third.
fn asked_by(what: Option<&str>, first: Option<&str>, second: Option<&str>) -> Option<Words>
    ensures some { IfSome result (AskByThree (option_map (λ w. w.now) what.entry)
        (option_map (λ w. w.now) first.entry) (option_map (λ w. w.now) second.entry)) }
    ensures none { IsNone result → (asked : Words) →
        ¬ (AskByThree (option_map (λ w. w.now) what.entry)
        (option_map (λ w. w.now) first.entry) (option_map (λ w. w.now) second.entry) asked) }
{
    match (what?, first, second) {
        ("replay", None, None) => Some(Words::Replay),
        ("run", None, None) => Some(Words::Run),
        ("run", Some(turns), None) => Some(Words::RunOn {
            turns: turns_of(turns)?,
        }),
        ("load", Some(first), Some(commands)) => Some(Words::Load {
            first: parse_decimal(first.as_bytes())?,
            commands: commands_of(commands)?,
        }),
        ("audit", Some(sites), Some(turns)) => {
            let layout = layout_of(sites, turns)?;
            Some(Words::Audit {
                sites: layout.sites(),
                turns: layout.turns(),
            })
        }
        ("judge", None, None) => Some(Words::Judge),
        ("judge", Some(sites), Some(turns)) => {
            let layout = layout_of(sites, turns)?;
            Some(Words::JudgeFor {
                sites: layout.sites(),
                turns: layout.turns(),
            })
        }
        ("promises", None, None) => Some(Words::Promises),
        ("promises", Some(sites), Some(turns)) => {
            let layout = layout_of(sites, turns)?;
            Some(Words::PromisesFor {
                sites: layout.sites(),
                turns: layout.turns(),
            })
        }
        ("picture", Some(sites), Some(turns)) => {
            let layout = layout_of(sites, turns)?;
            Some(Words::Picture {
                sites: layout.sites(),
                turns: layout.turns(),
            })
        }
        ("lossy", Some(first), None) => Some(Words::Lossy {
            first: parse_decimal(first.as_bytes())?,
        }),
        ("crew", Some(first), Some(commands)) => Some(Words::Crew {
            first: parse_decimal(first.as_bytes())?,
            commands: commands_of(commands)?,
        }),
        ("explore", None, None) => Some(Words::Explore),
        ("explore", Some(most), None) => Some(Words::ExploreMost {
            most: most_of(most)?,
        }),
        ("explore", Some(most), Some(first)) => Some(Words::ExploreFrom {
            most: most_of(most)?,
            first: parse_decimal(first.as_bytes())?,
        }),
        ("check", None, None) => Some(Words::Check),
        ("check", Some(most), None) => Some(Words::CheckMost {
            most: most_of(most)?,
        }),
        ("drawn", Some(count), Some(first)) => Some(Words::CheckDrawn {
            count: most_of(count)?,
            first: parse_decimal(first.as_bytes())?,
        }),
        _ => None,
    }
}

/// The number of places of a site whose decimal the program's word is. None exactly where a site may not have so many.
fn turns_of(word: &str) -> Option<u16>
    ensures some { IfSome result (λ n. (word.now ≡ decimal n) × IsTurns n) }
    ensures none { IsNone result → (n : ℕ) → IsTurns n → ¬ (word.now ≡ decimal n) }
{
    let layout = Layout::new(1, small_decimal(word)?)?;
    Some(layout.turns())
}

/// The layout whose sites and places per site these decimals among the program's words are. None exactly where there is none.
fn layout_of(sites: &str, turns: &str) -> Option<Layout>
    ensures some { IfSome result (λ l. (sites.now ≡ decimal l.sites) × (turns.now ≡ decimal l.turns)
        × IsLayout l) }
    ensures none { IsNone result → (l : Shape) → IsLayout l →
        sites.now ≡ decimal l.sites → ¬ (turns.now ≡ decimal l.turns) }
{
    Layout::new(small_decimal(sites)?, small_decimal(turns)?)
}

/// The number whose decimal the program's word is. None exactly where it is that of no number of 16 bits.
fn small_decimal(word: &str) -> Option<u16>
    ensures some { IfSome result (λ n. word.now ≡ decimal n) }
    ensures none { IsNone result → (n : ℕ) → n < 2 ^ 16 → ¬ (word.now ≡ decimal n) }
{
    match parse_decimal(word.as_bytes()) {
        Some(number) if number <= u64::from(u16::MAX) => Some(number as u16),
        _ => None,
    }
}

/// The number of commands whose decimal the program's word is. None exactly where there is none within the limit.
fn commands_of(word: &str) -> Option<u32>
    ensures some { IfSome result (λ n. (word.now ≡ decimal n) × (n ≤ LOAD_LIMIT)) }
    ensures none { IsNone result → (n : ℕ) → n ≤ LOAD_LIMIT → ¬ (word.now ≡ decimal n) }
{
    match parse_decimal(word.as_bytes()) {
        Some(number) if number <= u64::from(LOAD_LIMIT) => Some(number as u32),
        _ => None,
    }
}

/// The most events of an exploration or a check, or how many schedules are drawn: a number of 32 bits whose decimal the program's word is.
/// None exactly where there is none.
fn most_of(word: &str) -> Option<u32>
    ensures some { IfSome result (λ n. word.now ≡ decimal n) }
    ensures none { IsNone result → (n : ℕ) → n < 2 ^ 32 → ¬ (word.now ≡ decimal n) }
{
    match parse_decimal(word.as_bytes()) {
        Some(number) if number <= u64::from(u32::MAX) => Some(number as u32),
        _ => None,
    }
}
