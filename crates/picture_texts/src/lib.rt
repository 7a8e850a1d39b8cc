//! Templates with numbers, and texts between the tags of a picture.
//!
//! The layers above rest on this: each call appends exactly the bytes of its definition (`specs/Filling.antt`), and a
//! reader of XML finds between the tags the text that was to be shown, so that nothing that a journal says is markup
//! ([`texts_are_read_as_they_are`]).
//!
//! Begin with `filling`. Templates and texts are written stretch by stretch: what stands between two gaps, or between
//! two bytes that are not written as themselves, is copied at once. What each row has is written without looking for
//! the gaps ([`push_numbered`]).

#![tactic(auto)]

mod filling;
mod laws;
mod limits;

pub use filling::{
    plain_front, push_filled, push_markup, push_numbered, push_plain_act, push_shown,
    push_shown_act, push_shown_body,
};
pub use laws::texts_are_read_as_they_are;
pub use limits::SHOWN_BODY_LIMIT;
