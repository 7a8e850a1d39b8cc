//! What a summary counts entry by entry.

ghost use Rattle.std.specs.Prelude.{◌≡◌, ◌<◌, ◌^◌, List, [], ◌∷◌, length};
ghost use Rattle.chorus_entry.specs.declared.entry.Entry.{Entry};
ghost use Rattle.chorus_show.specs.Summary.{is_post, is_accept, is_take, is_refusal, is_stale, is_depart, is_delete, ids_discarded};

use chorus_entry::{Act, Entry};

/// How many entries of each kind there are.
#[derive(Drop)]
pub(crate) struct Counts {
    pub posted: u64,
    pub accepted: u64,
    pub taken: u64,
    pub refused: u64,
    pub stale: u64,
    pub departs: u64,
    pub deletes: u64,
    /// The ids in entries that delete a port. That they are fewer than 2^64 is known of each entry alone.
    pub discarded: u128,
}

impl Counts {
    ghost use Rattle.chorus_show.specs.Tally.{AreCounts};

    /// The counts of a summary of no entries.
    pub(crate) fn new() -> Counts
        ensures { AreCounts result [] }
    {
        Counts {
            posted: 0,
            accepted: 0,
            taken: 0,
            refused: 0,
            stale: 0,
            departs: 0,
            deletes: 0,
            discarded: 0,
        }
    }

    /// Counts one more entry for a summary, by its act.
    pub(crate) fn add(&mut self, entry: &Entry)
        requires { (later : List Entry) × AreCounts self.old later × (length later < 2 ^ 63) }
        ensures { (later : List Entry) → AreCounts self.old later →
            AreCounts self.new (entry.now ∷ later) }
    {
        let act = &entry.act;
        self.posted += u64::from(is_post(act));
        self.accepted += u64::from(is_accept(act));
        self.taken += u64::from(is_take(act));
        self.refused += u64::from(is_refusal(act));
        self.stale += u64::from(is_stale(act));
        self.departs += u64::from(is_depart(act));
        self.deletes += u64::from(is_delete(act));
        self.discarded += ids_discarded(act) as u128;
    }
}

/// Whether the summary counts the act as `posted`.
fn is_post(act: &Act) -> bool
    ensures { result ≡ is_post act.now }
{
    matches!(act, Act::Post { .. })
}

/// Whether the summary counts the act as `accepted`: a port took a message into its queue.
fn is_accept(act: &Act) -> bool
    ensures { result ≡ is_accept act.now }
{
    matches!(act, Act::Accept { .. })
}

/// Whether the summary counts the act as `taken`: a message was received from a port.
fn is_take(act: &Act) -> bool
    ensures { result ≡ is_take act.now }
{
    matches!(act, Act::Take { .. })
}

/// Whether the summary counts the act as `stale`: a message was tried where the port had left.
fn is_stale(act: &Act) -> bool
    ensures { result ≡ is_stale act.now }
{
    matches!(act, Act::Stale { .. })
}

/// Whether the summary counts the act among the `departs`: a port left for another place.
fn is_depart(act: &Act) -> bool
    ensures { result ≡ is_depart act.now }
{
    matches!(act, Act::Depart { .. })
}

/// Whether the act deletes a port, so that the summary has a line `discarded`.
fn is_delete(act: &Act) -> bool
    ensures { result ≡ is_delete act.now }
{
    matches!(act, Act::Delete { .. })
}

/// Whether the summary counts the act as `refused`: no port takes the message in, and it is not `stale`.
fn is_refusal(act: &Act) -> bool
    ensures { result ≡ is_refusal act.now }
{
    matches!(
        act,
        Act::Full { .. }
            | Act::Early { .. }
            | Act::NoPort { .. }
            | Act::Already { .. }
            | Act::ClientsFull { .. }
            | Act::Elsewhere { .. }
            | Act::NoMember { .. }
            | Act::Gone { .. }
    )
}

/// How many ids the summary counts as `discarded` by the act: those that a deleted port discarded.
fn ids_discarded(act: &Act) -> usize
    ensures { result ≡ ids_discarded act.now }
{
    match act {
        Act::Delete { discarded, .. } => discarded.ids().len(),
        _ => 0,
    }
}
