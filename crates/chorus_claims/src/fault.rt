//! Why a text is no claim.

ghost use Rattle.std.specs.Prelude.{◌≡◌};
ghost use Rattle.std.specs.Option.{option_copied};
ghost use Rattle.chorus_claims.specs.Words.{words_behind};
ghost use Rattle.chorus_claims.specs.declared.place.Place.TheVariants.{Start};
ghost use Rattle.chorus_claims.specs.Shapes.{fault_of, are_facts, are_within, first_fault, each_word, last_place};
ghost use Rattle.chorus_claims.specs.Tests.{passes};
ghost use Rattle.chorus_claims.specs.declared.place.Place.TheVariants.{Start};

use crate::form::{Form, are_few, marks_fit, may_be_throughout, side_of, split_form};
use crate::known::is_known;
use crate::place::{Place, may_end, place_behind};
use crate::spelling::{is_spelled, is_within, is_word};
use crate::words::{Words, long_form, split_throughout};
use chorus_lines::Reason;

/// The reason for which a text that stands behind `claim` is refused, in a scenario of so many sites whose scripts have so many
/// commands. None exactly where it is a claim. The reason is that of the first test that fails: Word where it is none of the forms,
/// Number where something is not spelled as said, Limit where a number or the number of facts is beyond its limit, and Unknown where
/// there is no such script, command, message, site or actor.
#[tactic(auto, unfolding(crate::specs::Shapes::fault_of))]
pub fn fault_of(sites: u8, commands: &[u32], text: &[u8]) -> Option<Reason>
    ensures { result ≡ fault_of sites commands.now text.now }
{
    let (throughout, asked) = split_throughout(text);
    let (form, facts) = split_form(long_form(asked));
    first_fault(
        are_facts(throughout, form, facts),
        each_word(Test::Spelled, facts),
        are_within(facts),
        each_word(Test::Known(sites, commands), facts),
    )
}

/// The reason of the first test that fails.
fn first_fault(fits: bool, spelled: bool, within: bool, known: bool) -> Option<Reason>
    ensures { result ≡ first_fault fits spelled within known }
{
    if !fits {
        Some(Reason::Word)
    } else if !spelled {
        Some(Reason::Number)
    } else if !within {
        Some(Reason::Limit)
    } else if !known {
        Some(Reason::Unknown)
    } else {
        None
    }
}

/// A test of a word at its place.
#[derive(Clone, Copy)]
pub(crate) enum Test<'a> {
    /// It may stand there.
    Fits,
    /// It is spelled as said.
    Spelled,
    /// Its decimals have 64 bits.
    Within,
    /// There is what it names, where there are so many sites, and so many commands of each script.
    Known(u8, &'a [u32]),
}

/// Whether the word passes the test at its place.
fn passes(test: Test, place: Place, word: &[u8]) -> bool
    ensures { result ≡ passes test.entry place word.now }
{
    match test {
        Test::Fits => is_word(place, word),
        Test::Spelled => is_spelled(place, word),
        Test::Within => is_within(place, word),
        Test::Known(sites, commands) => is_known(sites, commands, place, word),
    }
}

/// Whether each word of the facts passes the test at its place.
fn each_word(test: Test, facts: Option<&[u8]>) -> bool
    ensures { result
        ≡ each_word (passes test.entry) Start (words_behind (option_copied facts.entry)) }
{
    let mut words = Words::new(facts);
    let mut place = Place::Start;
    while let Some(word) = words.next() {
        if !passes(test, place, word) {
            return false;
        }
        place = place_behind(place, word);
    }
    true
}

/// The place behind the last word of the facts.
fn last_place(facts: Option<&[u8]>) -> Place
    ensures { result ≡ last_place Start (words_behind (option_copied facts.entry)) }
{
    let mut words = Words::new(facts);
    let mut place = Place::Start;
    while let Some(word) = words.next() {
        place = place_behind(place, word);
    }
    place
}

/// Whether these are words of facts with the marks of the form between them, and `throughout` may stand in front of it, where it does.
fn are_facts(throughout: bool, form: Form, facts: Option<&[u8]>) -> bool
    ensures { result ≡ are_facts throughout form (words_behind (option_copied facts.entry)) }
{
    (!throughout || may_be_throughout(form))
        && marks_fit(side_of(form), facts)
        && each_word(Test::Fits, facts)
        && may_end(last_place(facts))
}

/// Whether no number, and no number of facts, is beyond its limit.
fn are_within(facts: Option<&[u8]>) -> bool
    ensures { result ≡ are_within (words_behind (option_copied facts.entry)) }
{
    are_few(3, facts) && each_word(Test::Within, facts)
}
