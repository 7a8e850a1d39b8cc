//! Names and places, on which every other crate of chorus stands.
//!
//! A [`Ui`] names an actor, a port or a group, unique in time and space. It is kept in 64 bits, has one text
//! and is seen by contracts as its three parts, the record `Name` of `specs/Name.antt`. A [`Layout`] says how
//! many sites there are and how many places each has, and at which place a name stands. The layers above rest
//! on this: a name has exactly one text and exactly one number of 64 bits, and the places of a layout are given
//! by the short formulas of `specs/Layout.antt`.
//!
//! Begin with `ui`; `kind` has the three kinds, `layout` the places, `limits` what a nucleus has at most, and `decimal`
//! the numbers in texts, which the readers and printers of the crates above share.

#![tactic(auto)]

mod decimal;
mod kind;
mod layout;
mod limits;
mod ui;

pub use decimal::{is_decimal, parse_decimal, push_decimal};
pub use kind::Kind;
pub use layout::Layout;
pub use limits::{
    ACTORS_PER_SITE_LIMIT, BODY_LIMIT, CLIENTS_LIMIT, CLOCK_LIMIT, GROUPS_PER_SITE_LIMIT,
    LINK_LIMIT, MEMBERS_LIMIT, PENDING_LIMIT, PLACES_LIMIT, PLACES_PER_SITE_LIMIT,
    PORTS_PER_SITE_LIMIT, SEATS_LIMIT, SITES_LIMIT,
};
pub use ui::Ui;
