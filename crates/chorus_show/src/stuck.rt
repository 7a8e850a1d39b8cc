//! What a script waits at for ever.

ghost use Rattle.std.specs.Prelude.{◌≡◌, ◌++◌, OnOk};
ghost use Rattle.chorus_show.specs.Report.{stuck_line};

use chorus_ui::push_decimal;
use std::alloc::AllocError;

/// A script that was not done to its end, and the await that never came.
#[derive(Clone, Copy, Debug, PartialEq, Eq)]
pub struct Stuck {
    /// The number of the script, from 1.
    pub script: u32,
    /// The number of the await among the commands of the script, from 1.
    pub command: u32,
}

/// Appends the line of a script that is stuck; for want of memory it may leave a part.
pub fn push_stuck(stuck: &Stuck, text: &mut Vec<u8>) -> Result<(), AllocError>
    ensures { OnOk result (text.new.items ≡ text.old.items ++ stuck_line stuck.now) }
{
    text.extend_from_slice(b"stuck ")?;
    push_decimal(u64::from(stuck.script), text)?;
    text.extend_from_slice(b" ")?;
    push_decimal(u64::from(stuck.command), text)?;
    text.extend_from_slice(b"\n")
}
