//! What a counter counted, by the journals.

ghost use Rattle.std.specs.Prelude.{◌≡◌, IfOk, count_by, reverse};
ghost use Rattle.chorus_ui.specs.Name.{same_ui};
ghost use Rattle.chorus_net.specs.Closing.{past_of};
ghost use Rattle.run_counter.specs.Counting.{counts, value};

use chorus_entry::{Act, Entry};
use chorus_merge::merge;
use chorus_net::Closed;
use chorus_ui::Ui;
use std::alloc::{AllocError, Global};

/// Whether the act counts one: the counter hands out a message.
fn is_counted(counter: Ui, act: &Act) -> bool
    ensures { result ≡ counts counter act.now }
{
    match act {
        Act::Take { port, .. } => counter == *port,
        _ => false,
    }
}

/// How many of the entries count one.
fn count(counter: Ui, entries: &[Entry]) -> usize
    ensures { result ≡ count_by (λ e. counts counter e.act) entries.now }
{
    let mut counted = 0;
    for index in 0..entries.len() {
        if is_counted(counter, &entries[index].act) {
            counted += 1;
        }
    }
    counted
}

/// The counter's value at the end of a run: how many messages it counted. The only error is want of memory.
pub fn value_of(alloc: Global, counter: Ui, closed: &Closed) -> Result<u64, AllocError>
    ensures { IfOk result (λ n. n ≡ value counter (past_of closed.now)) }
{
    let entries = merge(alloc, &closed.journals)?;
    Ok(count(counter, &entries) as u64)
}
