//! Why a text is refused.

ghost use Rattle.std.specs.Prelude.{◌≡◌};
ghost use Rattle.chorus_lines.specs.Reasons.{reason_number};
ghost use Rattle.chorus_lines.specs.Reasons.{fault_at};

use crate::word::Reason;
use std::alloc::{AllocError, AllocFailed};
use thiserror::Error;

/// The first line that fails a test, and why. Lines and reasons are this project's own.
#[derive(Clone, Copy, Debug, PartialEq, Eq, Error)]
#[error("line {line}: {words} (reason {reason})", words = words_for(*.reason))]
pub struct SceneFault {
    /// The number of the line, from 1; 0 for a text that is too long, and one more than the lines for a text without end.
    pub line: u32,
    /// The reason of the first test that the line fails: 1 header, 2 word, 3 number, 4 unknown name, 5 twice, 6 limit,
    /// 7 order, 8 text, 9 unfinished, 10 schedule. Without a line that fails, a text that is too long has 6 and a text
    /// without end 9. `docs/FORMATS.md` says what each one means, and what to write instead.
    pub reason: u8,
}

/// What a reason says, in words, for a person who reads a [`SceneFault`].
fn words_for(reason: u8) -> &'static str {
    match reason {
        1 => "the first line is not the head",
        2 => "a word that there is not, or fields that do not fit it",
        3 => "a number, a name or the digits of a body are not spelled as they should be",
        4 => "a site, an actor, a member, a script or a command that there is not",
        5 => "the setup says something twice, or a claim stands twice",
        6 => "a number or a count is beyond its limit",
        7 => "a line that may not stand here, or a name out of turn",
        8 => "a byte that is no printable ASCII",
        9 => "the text ends without its end",
        10 => "a step that cannot be done",
        _ => "no reason that a text is refused for",
    }
}

/// The fault of a text of more bytes than a text may have: line 0, reason 6.
pub const TOO_LONG: SceneFault = SceneFault { line: 0, reason: 6 };

/// Why a text was not read. Nothing is left of what was read of it.
#[derive(Debug, Drop, Error)]
pub enum ReadFault {
    /// The text is no scenario.
    #[error(transparent)]
    Scene(SceneFault),
    /// Memory ran out.
    #[error(transparent)]
    Memory(AllocError),
}

/// Why reading stops at a line.
#[derive(Drop)]
pub enum Stop {
    Fault(Reason),
    Memory(AllocError),
}

impl From<AllocError> for Stop {
    ghost use Rattle.chorus_lines.specs.declared.fault.Stop.TheVariants as stops;

    ghost from_gives = { λ error stop. stop ≡ stops.Memory error };

    fn from(error: AllocError) -> Stop {
        Stop::Memory(error)
    }
}

impl<T: Drop> From<AllocFailed<T>> for Stop {
    ghost use Rattle.std.specs.Prelude.{alloc_error};
    ghost use Rattle.chorus_lines.specs.declared.fault.Stop.TheVariants as stops;

    ghost from_gives = { λ _ stop. stop ≡ stops.Memory alloc_error };

    fn from(_failed: AllocFailed<T>) -> Stop {
        Stop::Memory(AllocError)
    }
}

/// The number that a reason has in a fault.
pub fn reason_number(reason: Reason) -> u8
    ensures { result ≡ reason_number reason }
{
    match reason {
        Reason::Header => 1,
        Reason::Word => 2,
        Reason::Number => 3,
        Reason::Unknown => 4,
        Reason::Twice => 5,
        Reason::Limit => 6,
        Reason::Order => 7,
        Reason::Text => 8,
        Reason::Unfinished => 9,
        Reason::Schedule => 10,
    }
}

/// Why reading stops at the line of this number.
pub fn fault_at(line: u32, stop: Stop) -> ReadFault
    ensures { result ≡ fault_at line stop }
{
    match stop {
        Stop::Memory(error) => ReadFault::Memory(error),
        Stop::Fault(reason) => ReadFault::Scene(SceneFault {
            line,
            reason: reason_number(reason),
        }),
    }
}
