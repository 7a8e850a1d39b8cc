//! A list of entries, kept up to the first that breaks a promise.

ghost use Rattle.std.specs.Prelude.{IfOk};
ghost use Rattle.judge_promises.specs.Logs.{Keeps};

use crate::log::{Log, LogFault};
use chorus_entry::Entry;
use chorus_ui::Layout;
use judge_rules::Blame;
use std::alloc::{AllocError, Global};

/// What is kept of a list of entries.
#[derive(Drop)]
pub struct Kept {
    /// The entries in front of the first that breaks a promise, or all where none does.
    pub log: Log,
    /// What is said of the one that does. None exactly where none does.
    pub blame: Option<Blame>,
}

/// Keeps the entries for the layout up to the first that breaks a promise.
pub fn keep(alloc: Global, layout: Layout, entries: Vec<Entry>) -> Result<Kept, AllocError>
    ensures { IfOk result (Keeps layout entries.items) }
{
    let mut log = Log::opening(alloc, layout);
    for entry in entries {
        match log.apply(entry) {
            Ok(()) => {}
            Err(LogFault::Broken { blame }) => {
                return Ok(Kept {
                    log,
                    blame: Some(blame),
                });
            }
            Err(LogFault::Memory(error)) => return Err(error),
        }
    }
    Ok(Kept { log, blame: None })
}
