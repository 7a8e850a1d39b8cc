//! The merge of the journals of all places into one list, by clock and then by place.
//!
//! The layers above rest on [`merge`] and [`merge_lent`], which give exactly the merge of `specs/Merge.antt`, and on its laws: it
//! keeps each journal's order and loses nothing, and where clocks rise and no two journals share a place it is the one
//! sorted list of these entries. Begin with `specs/Merge.antt`, then `merging`; `laws` has the laws, which make no call.
//!
//! The order is the total order of Lamport, "Time, Clocks, and the Ordering of Events in a Distributed System" (1978), with
//! the place as the tie.
#![tactic(auto)]

mod laws;
mod merging;

pub use laws::{
    merge_is_the_sorted_list, merge_keeps_journals, merge_keeps_places, merge_puts_the_next_entry,
};
pub use merging::{merge, merge_lent};
