//! The merge, by halves of the list of journals.

ghost use Rattle.std.specs.Prelude.{◌≡◌, IfOk};
ghost use Rattle.chorus_entry.specs.Order.{comes_before};
ghost use Rattle.chorus_merge.specs.Merge.{merged};
ghost use Rattle.chorus_merge.specs.Steps.{journals_of, lent, merge_two};

use chorus_entry::Entry;
use std::alloc::{AllocError, Global};

/// All entries of the journals in one list: again and again, of the entries that now stand first in their journals, the one
/// with the least clock, of several such that of the least place, of several such that of the earliest journal (the total
/// order of Lamport, 1978).
///
/// The work grows with the number of entries times the logarithm of the number of journals, and each entry is copied once;
/// [`merge_lent`] copies none. The only error is want of memory.
pub fn merge(alloc: Global, journals: &[Vec<Entry>]) -> Result<Vec<Entry>, AllocError>
    ensures { IfOk result (λ entries. entries.items ≡ merged (journals_of journals.now)) }
{
    let in_order = merge_lent(alloc, journals)?;
    let mut entries = Vec::with_capacity(alloc, in_order.len())?;
    for entry in &in_order {
        entries.push_reserved(entry.copied()?);
    }
    Ok(entries)
}

/// The list that [`merge`] gives, of references to the entries of the journals: no entry is copied. The only error is want of
/// memory.
pub fn merge_lent<'a>(
    alloc: Global,
    journals: &'a [Vec<Entry>],
) -> Result<Vec<&'a Entry>, AllocError>
    ensures { IfOk result (λ entries. lent entries.items ≡ merged (journals_of journals.now)) }
{
    match journals {
        [] => Ok(Vec::new(alloc)),
        [journal] => borrow_all(alloc, journal),
        _ => {
            let (front, back) = journals.split_at(journals.len() / 2);
            let front = merge_lent(alloc, front)?;
            let back = merge_lent(alloc, back)?;
            merge_two(alloc, &front, &back)
        }
    }
}

/// References to all entries of a single journal, in its order: the merge of one journal; the only error is want of memory.
fn borrow_all(alloc: Global, journal: &[Entry]) -> Result<Vec<&Entry>, AllocError>
    ensures { IfOk result (λ entries. lent entries.items ≡ journal.now) }
{
    let mut entries = Vec::with_capacity(alloc, journal.len())?;
    for entry in journal {
        entries.push_reserved(entry);
    }
    Ok(entries)
}

/// The merge of two lists that are merged already: both in one, each in its order. Of the two entries that stand first the
/// second list's comes out only where it comes before the other.
fn merge_two<'a>(
    alloc: Global,
    first: &[&'a Entry],
    second: &[&'a Entry],
) -> Result<Vec<&'a Entry>, AllocError>
    ensures { IfOk result (λ entries.
        lent entries.items ≡ merge_two (lent first.now) (lent second.now)) }
{
    let mut entries = Vec::with_capacity(alloc, first.len() + second.len())?;
    let mut i = 0;
    let mut j = 0;
    while i < first.len() && j < second.len() {
        let one = first[i];
        let other = second[j];
        if comes_before(other, one) {
            entries.push_reserved(other);
            j += 1;
        } else {
            entries.push_reserved(one);
            i += 1;
        }
    }
    entries.extend_from_slice(&first[i..])?;
    entries.extend_from_slice(&second[j..])?;
    Ok(entries)
}

/// Whether one entry has the lesser clock, or the same clock and the lesser place: the order of merged journals.
fn comes_before(one: &Entry, other: &Entry) -> bool
    ensures { result ≡ comes_before one.now other.now }
{
    one.clock < other.clock || (one.clock == other.clock && one.place < other.place)
}
