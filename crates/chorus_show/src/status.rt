//! How a call of the program ended.

ghost use Rattle.std.specs.Prelude.{◌≡◌, ◌++◌, OnOk, OnErr};
ghost use Rattle.chorus_show.specs.Faults.{fault_line};

use crate::phrases::{push_with_one, push_word};
use std::alloc::AllocError;

/// How a call of the program ended. Each has a number, which is the program's exit status, and but for `Done` a line
/// that says what went wrong.
#[derive(Clone, Copy, Debug, PartialEq, Eq)]
pub enum Status {
    /// The whole text was written.
    Done,
    /// The words are none that the program has.
    Usage,
    /// The text that was read is no scenario. `line` is the first line that fails, from 1, or 0 where the text is too long,
    /// and `reason` says why. Any other input that is too long is refused so too, as [`Status::TOO_LONG`].
    Scenario { line: u32, reason: u8 },
    /// A read failed.
    ReadFault,
    /// A write failed.
    WriteFault,
    /// There was no memory.
    Memory,
    /// A place's clock came to its limit, 2^62. `clock` is that of an entry at or above it.
    Worn { clock: u64 },
}

impl Status {
    ghost use Rattle.chorus_show.specs.Faults.{status_number};

    /// An input is longer than its limit: the line and the reason of a scenario's text that is too long.
    pub const TOO_LONG: Status = Status::Scenario { line: 0, reason: 6 };

    /// The program's exit status, from 0 to 6.
    pub fn number(self) -> u8
        ensures { result ≡ status_number self }
    {
        match self {
            Status::Done => 0,
            Status::Usage => 1,
            Status::Scenario { .. } => 2,
            Status::ReadFault => 3,
            Status::WriteFault => 4,
            Status::Memory => 5,
            Status::Worn { .. } => 6,
        }
    }
}

/// Appends the fault line of the status, with its LF, and nothing at `Done`. An error leaves `out` as it was.
pub fn fault_text(status: Status, out: &mut Vec<u8>) -> Result<(), AllocError>
    ensures ok { OnOk result (out.new.items ≡ out.old.items ++ fault_line status) }
    ensures err { OnErr result (out.new.items ≡ out.old.items) }
{
    let mut line = Vec::new(*out.allocator());
    push_fault(status, &mut line)?;
    out.extend_from_slice(&line)
}

/// Appends the fault line of the status, with its LF, and nothing at `Done`. After an error a part of it may stand there.
fn push_fault(status: Status, out: &mut Vec<u8>) -> Result<(), AllocError>
    ensures { OnOk result (out.new.items ≡ out.old.items ++ fault_line status) }
{
    match status {
        Status::Done => Ok(()),
        Status::Usage => push_word(
            "chorus: usage: chorus replay, run, or load FIRST COMMANDS\n",
            out,
        ),
        Status::Scenario { line, reason } => {
            push_with_one("chorus: scenario line", &line, out)?;
            push_with_one(" reason", &reason, out)?;
            push_word("\n", out)?;
            Ok(())
        }
        Status::ReadFault => push_word("chorus: read fault\n", out),
        Status::WriteFault => push_word("chorus: write fault\n", out),
        Status::Memory => push_word("chorus: out of memory\n", out),
        Status::Worn { clock } => {
            push_with_one("chorus: worn at clock", &clock, out)?;
            push_word("\n", out)
        }
    }
}
