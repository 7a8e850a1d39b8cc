//! A printed journal judged for who wrote it: whether it is lawful, and what it leaves open.
//!
//! [`judge`] reads what an audit reads, and a head that names a layout besides (`judge_heads`). It writes the verdict, what is open, line by
//! line, and who sat where (`specs/Texts.antt`). The layers above rest on this: a text is judged as an audit finds it, with what
//! `judge_rules` says of a line that is wrong ([`blames_agree_with_audits`]) and `judge_seats` of one that is not; what is told as
//! open is exactly what `law_judge` says of the entries, and nothing is told so exactly where they are a quiet list
//! ([`quiet_judgement`]). By promises a text is judged by what `judge_promises` says of its entries, whatever they are
//! (`specs/Promising.antt`).
//!
//! Begin with `judging`. `finding` goes over the entries, `blaming` finds the entry of a wrong line, and `texts` writes what was found.

#![tactic(auto)]

mod asked;
mod blaming;
mod finding;
mod judgement;
mod judging;
mod laws;
mod promising;
mod texts;

pub use asked::{Asked, Measure};
pub use finding::open_entries;
pub use judge_rules::{Blame, REPLY_RULE};
pub use judgement::Judgement;
pub use judging::judge;
pub use law_judge::{Awaited, Open, OpenAt};
pub use laws::{blames_agree_with_audits, quiet_judgement};
pub use texts::TOLD_LIMIT;
