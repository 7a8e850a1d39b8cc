//! The report of journals in parts: printed side by side by threads, and written one behind the other.
//!
//! `finishing` rests on this: the parts, one behind the other, are the report of the merge of the journals, as one thread prints it;
//! and of them a sink takes what it takes of one text.
//!
//! Begin with [`report_parts`].

mod printing;
mod writing;

pub(crate) use printing::report_parts;
pub(crate) use writing::write_parts;
