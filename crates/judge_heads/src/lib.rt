//! The head of a judged journal, which may name the layout that it is of.
//!
//! [`make_plain`] makes of a text whose first line is `journal N SITES TURNS` the text with the plain head `journal N`, where it
//! stands, and tells the layout (`specs/Heads.antt`). A text whose first line names no layout stays.

#![tactic(auto)]

mod heads;

pub use heads::{layout_for, make_plain};
