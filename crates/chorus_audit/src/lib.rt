//! Whether a printed journal is lawful.
//!
//! [`parse_entry`] gives the entry whose line a text is, [`audit_text`] tests a whole text, line by line, [`read_text`] gives its
//! entries too, [`read_lines`] gives them whatever they say, and [`audit`] tests what a source gives. The layers above rest on this: a
//! text is legal exactly where it is the journal text and the summary text of a legal list of entries (`specs/Report.antt`), and else
//! the first line that fails is named, with its rule (`specs/Tests.antt`).
//!
//! Begin with `entries`, which reads one line. A line is read with no regard to how it is spelled, and what was read is printed:
//! the line is the entry's exactly where it is printed so.

#![tactic(auto)]

mod acts;
mod auditing;
mod awaits;
mod commands;
mod cut;
mod entries;
mod fault;
mod field;
mod judging;
mod law;
mod limits;
mod lines;
mod parts;
mod words;

pub use auditing::{audit, push_verdict};
pub use entries::parse_entry;
pub use judging::{Audit, Reading, audit_text, read_for, read_text};
pub use law::a_text_has_one_verdict;
pub use limits::{AUDIT_LIMIT, NO_LINE};
pub use lines::{Lines, read_lines};
