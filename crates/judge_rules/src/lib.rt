//! Why an entry of a judged journal may not come next: which condition of its rule is the first that fails, and the line of the
//! earlier entry that it is about.
//!
//! `specs/Conditions.antt` has the conditions of each rule in order. The layers above rest on this: an entry may come next exactly
//! where all hold ([`conditions_are_the_rules`]); what [`blame`] names is the first that fails ([`first_that_fails_is_found`]), in the
//! line and by the rule of an audit, or it blames the take of a reply that nothing follows ([`blames_agree`]).
//!
//! Begin with `blame`. `acts` goes to the conditions of each act, which stand in the modules below it by subject; `about` finds the
//! earlier entry.

#![tactic(auto)]

mod about;
mod acts;
mod blame;
mod deciding;
mod failing;
mod grouping;
mod laws;
mod moving;
mod places;
mod port;
mod posting;
mod sending;

pub use about::{About, passes};
pub use blame::{Blame, REPLY_RULE, blame_for};
pub use laws::{blames_agree, conditions_are_the_rules, first_that_fails_is_found};
