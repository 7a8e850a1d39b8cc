//! The summary text.

ghost use Rattle.std.specs.Prelude.{◌≡◌, ◌<◌, ◌^◌, ◌++◌, List, [], ◌∷◌, length, map, OnOk, OnErr};
ghost use Rattle.std.specs.Borrow.{Bor};
ghost use Rattle.chorus_entry.specs.declared.entry.Entry.{Entry};
ghost use Rattle.chorus_show.specs.Summary.{summary_text, message_lines, discarded_line, other_lines};
ghost use Rattle.chorus_show.specs.Tally.{AreCounts, AreQueues};

use crate::counts::Counts;
use crate::phrases::{push_count, push_word};
use crate::queues::Queues;
use chorus_entry::Entry;
use std::alloc::{AllocError, Global};

/// The numbers of a summary, while the entries are counted from the last one to the first: the last one that puts a port
/// somewhere says where it is.
#[derive(Drop)]
struct Summary {
    counts: Counts,
    queues: Queues,
}

impl Summary {
    ghost use Rattle.chorus_show.specs.Tally.{Tells};

    /// The numbers of a summary of no entries.
    fn new(alloc: Global) -> Summary
        ensures { Tells result [] }
    {
        Summary {
            counts: Counts::new(),
            queues: Queues::new(alloc),
        }
    }

    /// Counts for the summary the entry that stands before those that were counted. An error leaves the numbers as they were.
    fn add_before(&mut self, entry: &Entry) -> Result<(), AllocError>
        requires { (later : List Entry) × Tells self.old later × (length later < 2 ^ 63) }
        ensures ok { OnOk result ((later : List Entry) → Tells self.old later →
            Tells self.new (entry.now ∷ later)) }
        ensures err { OnErr result ((later : List Entry) → Tells self.old later →
            Tells self.new later) }
    {
        self.queues.add(entry)?;
        self.counts.add(entry);
        Ok(())
    }

    /// Appends the summary text of the entries that were counted. An error leaves `out` as it was.
    fn write(&self, out: &mut Vec<u8>) -> Result<(), AllocError>
        ensures ok { OnOk result ((entries : List Entry) → Tells self.now entries →
            out.new.items ≡ out.old.items ++ summary_text entries) }
        ensures err { OnErr result (out.new.items ≡ out.old.items) }
    {
        let mut text = Vec::new(*out.allocator());
        push_summary(&self.counts, &self.queues, &mut text)?;
        out.extend_from_slice(&text)
    }
}

/// Appends the summary text: the line `summary`, eight lines `WORD NUMBER`, and the line `end`. Exactly where an entry deletes
/// a port, a ninth line `discarded NUMBER` stands behind `moving`. What the numbers are is said for every list of entries. An
/// error leaves `out` as it was.
pub fn summary_text(entries: &[Entry], out: &mut Vec<u8>) -> Result<(), AllocError>
    ensures ok { OnOk result (out.new.items ≡ out.old.items ++ summary_text entries.now) }
    ensures err { OnErr result (out.new.items ≡ out.old.items) }
{
    let mut summary = Summary::new(*out.allocator());
    let mut rest = entries;
    while let [before @ .., entry] = rest {
        summary.add_before(entry)?;
        rest = before;
    }
    summary.write(out)
}

/// Appends the summary text of the entries that are lent, as [`summary_text`] does.
pub fn lent_summary_text(entries: &[&Entry], out: &mut Vec<u8>) -> Result<(), AllocError>
    ensures ok { OnOk result (out.new.items ≡ out.old.items
        ++ summary_text (map (λ (entry : Bor Entry). entry.now) entries.now)) }
    ensures err { OnErr result (out.new.items ≡ out.old.items) }
{
    let mut summary = Summary::new(*out.allocator());
    let mut rest = entries;
    while let [earlier @ .., entry] = rest {
        summary.add_before(entry)?;
        rest = earlier;
    }
    summary.write(out)
}

/// Appends the text of a summary with these numbers. After an error a part of it may stand there.
fn push_summary(counts: &Counts, queues: &Queues, out: &mut Vec<u8>) -> Result<(), AllocError>
    ensures { OnOk result
        ((entries : List Entry) → AreCounts counts.now entries → AreQueues queues.now entries →
        out.new.items ≡ out.old.items ++ summary_text entries) }
{
    push_word("summary\n", out)?;
    push_message_lines(counts, queues, out)?;
    push_discarded_line(counts, out)?;
    push_other_lines(counts, out)?;
    push_word("end\n", out)?;
    Ok(())
}

/// Appends the first five count lines of a summary, from `posted` to `moving`.
fn push_message_lines(counts: &Counts, queues: &Queues, out: &mut Vec<u8>) -> Result<(), AllocError>
    ensures { OnOk result
        ((entries : List Entry) → AreCounts counts.now entries → AreQueues queues.now entries →
        out.new.items ≡ out.old.items ++ message_lines entries) }
{
    push_count("posted", &counts.posted, out)?;
    push_count("accepted", &counts.accepted, out)?;
    push_count("taken", &counts.taken, out)?;
    push_count("queued", &queues.queued, out)?;
    push_count("moving", &queues.moving, out)?;
    Ok(())
}

/// Appends the summary's line `discarded`, and nothing where no port was deleted.
fn push_discarded_line(counts: &Counts, out: &mut Vec<u8>) -> Result<(), AllocError>
    ensures { OnOk result
        ((entries : List Entry) → AreCounts counts.now entries →
        out.new.items ≡ out.old.items ++ discarded_line entries) }
{
    if counts.deletes == 0 {
        return Ok(());
    }
    push_count("discarded", &counts.discarded, out)?;
    Ok(())
}

/// Appends the last three count lines of a summary: `refused`, `stale` and `departs`.
fn push_other_lines(counts: &Counts, out: &mut Vec<u8>) -> Result<(), AllocError>
    ensures { OnOk result
        ((entries : List Entry) → AreCounts counts.now entries →
        out.new.items ≡ out.old.items ++ other_lines entries) }
{
    push_count("refused", &counts.refused, out)?;
    push_count("stale", &counts.stale, out)?;
    push_count("departs", &counts.departs, out)?;
    Ok(())
}
