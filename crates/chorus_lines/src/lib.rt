//! What a scenario text is made of: lines, the word that a line begins with, its fields and bodies, and the reasons for which a
//! text is refused. The text is this project's own.
//!
//! The grammar above rests on the definitions of `specs/`: how a text is cut into lines and a line into fields (`Text`), which
//! words there are and where they may stand (`Words`), how a body is spelled (`Body`), and the numbers of the reasons (`Reasons`).
//! The functions here give what these definitions say, and take no memory but that of a body.
//!
//! Begin with `text`, then `fields` and `word`.
#![tactic(auto)]

mod body;
mod fault;
pub mod fields;
mod text;
mod word;

pub use body::{begins_a_body, body_in, body_len};
pub use fault::{ReadFault, SceneFault, Stop, TOO_LONG, fault_at, reason_number};
pub use text::{BEYOND, cut, is_skipped, is_text, number_in};
pub use word::{Reason, Section, Target, Verb, Word, may_stand, word_of};
