//! The words, cut by `clap`.

ghost use Rattle.std.specs.Prelude.{◌≡◌, ◌<◌, ℕ, length, map, IfOk, IfSome, IsNone, true};
ghost use Rattle.std.specs.List.{list_all};
ghost use Rattle.clap.specs.Words.{app_of};
ghost use Rattle.chorus_words.specs.Cutting.{is_value, the_command, IsCut};

use clap::error::ErrorKind;
use clap::{Arg, ArgMatches, Command};
use std::alloc::{AllocError, Global};

/// What the words ask for, the first of them, by its name in the command.
pub(crate) const WHAT: &str = "what";

/// The first value that goes with it: the second word.
pub(crate) const FIRST: &str = "first";

/// The second value: the third word.
pub(crate) const SECOND: &str = "second";

/// What `clap` cuts the words into. None exactly where there are more than three. Each word is a value: not empty, and not
/// begun with `-`.
pub(crate) fn cut<'a>(
    alloc: Global,
    words: &'a [&'a str],
) -> Result<Option<ArgMatches<'a>>, AllocError>
    requires values { list_all (λ word. is_value word.now) words.now ≡ true }
    ensures some { IfOk result
        (λ matches. IfSome matches (IsCut (map (λ word. word.now) words.now))) }
    ensures none { IfOk result (λ matches. IsNone matches → 3 < length words.now) }
{
    match command(alloc)?.try_get_matches_from(words) {
        Ok(matches) => Ok(Some(matches)),
        Err(error) if error.kind() == ErrorKind::OutOfMemory => Err(AllocError),
        Err(_) => Ok(None),
    }
}

/// The command by which `clap` cuts the program's words: its name is no word, and each of its three words may be left out from
/// the last on.
fn command<'a>(alloc: Global) -> Result<Command<'a>, AllocError>
    ensures { IfOk result (λ command. app_of command ≡ the_command) }
{
    Command::new(alloc, "chorus")
        .no_binary_name(true)
        .arg(Arg::new(alloc, WHAT))?
        .arg(Arg::new(alloc, FIRST))?
        .arg(Arg::new(alloc, SECOND))
}
