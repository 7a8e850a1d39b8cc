//! The rows of a picture: each entry a mark in the column of its place, each packet that was worked off an arrow from
//! the entry that put it, each port a bar beside the place that holds it.
//!
//! The layer above rests on this: [`push_rows`] appends exactly what stands for the entries, by the
//! definition of them alone (`specs/Shapes.antt`): the ground, the arrows over that, and the marks,
//! which no arrow covers. Its tables then say which ports are held. [`columns`] says where the columns
//! of places stand. Marks stand apart ([`marks_stand_apart`]) and tell what happened
//! ([`marks_tell_what_happened`]).
//!
//! Begin with `rows`, which has what is appended for each entry: `shapes` has what stands for a packet
//! and for an entry, `bars` what stands for a port. `column` has the columns, `edge` what each row has
//! of their right edge, and `row_heights` how far down a row stands; `mark` has the shape of an entry,
//! `arrow` the kind of an arrow and its texts, `lines` an entry's line, as the journal has it, and
//! `setup` says which entries are of the setup. `tables` keeps what is asked of the entries before, and
//! `bodies` what was posted, so that a row costs about the same whatever went before.

#![tactic(auto)]

mod arrow;
mod bars;
mod bodies;
mod column;
mod edge;
mod laws;
mod limits;
mod lines;
mod mark;
mod row_heights;
mod rows;
mod setup;
mod shapes;
mod tables;

pub use bars::push_bar;
pub use column::{Column, columns, right_edge};
pub use laws::{marks_stand_apart, marks_tell_what_happened};
pub use limits::ENTRIES_LIMIT;
pub use row_heights::{end_y, heads};
pub use rows::push_rows;
pub use setup::setup_rows;
pub use tables::Tables;
