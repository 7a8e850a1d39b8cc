//! The texts that are written: the journal, its summary, and the line of a fault. They are this project's own.
//!
//! Each text has one definition, `specs/Lines.antt` for the forty lines of a journal above all, and the calls here append exactly its
//! bytes; for want of memory nothing, but that those named `push_..` may leave a part. The program prints with these calls, but for the
//! line of a fault, which `chorus_program` writes without memory. The reader of a printed journal stands on the laws that a line has
//! one entry and is read back.
//!
//! Begin with [`entry_line`].

#![tactic(auto)]

mod counts;
mod entries;
mod fields;
mod journal;
mod law;
mod phrases;
mod pieces;
mod queues;
mod status;
mod stuck;
mod summary;

pub use entries::push_entry;
pub use fields::push_byte;
pub use journal::{entry_line, journal_head, journal_lines, journal_text};
pub use law::{a_line_has_one_entry, a_line_is_read_back};
pub use pieces::{push_act, push_answer, push_id};
pub use queues::Spot;
pub use status::{Status, fault_text};
pub use stuck::{Stuck, push_stuck};
pub use summary::{lent_summary_text, summary_text};
