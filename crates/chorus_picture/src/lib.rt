//! The picture of a printed journal: one SVG document, which any browser shows.
//!
//! The layers above rest on this: [`picture`] reads what an audit reads, and writes exactly the bytes of a definition
//! of the entries (`specs/Picture.antt`): its sheet, the rows of the entries (`picture_rows`), and what was found of
//! the text, of a lawful one its summary ([`a_lawful_text_has_its_summary`]). A text that is not lawful is drawn up to
//! its first wrong line. Nothing that a journal says is read as markup (`picture_texts`).
//!
//! Begin with `drawing`. `sheet` and `below_rows` have what stands round the rows, `style` how it looks, and
//! `rule_words` the rules of an audit in words, each beginning with the act that it refuses
//! ([`rules_name_their_acts`]).

#![tactic(auto)]

mod below_rows;
mod drawing;
mod laws;
mod rule_words;
mod sheet;
mod style;

pub use drawing::picture;
pub use laws::{a_lawful_text_has_its_summary, rules_name_their_acts};
pub use picture_rows::ENTRIES_LIMIT;
