//! Tests of texts, by public items alone, in a crate of their own, so that no crate below is proved twice.
//!
//! - `chorus_scene` and `chorus_print`: scenarios that were worked out by hand from the grammar, with what each is read and
//!   printed as (`scenarios`), or the line and the reason for which it is refused (`refused`, `limits`); `rows` reads their tables,
//!   and `claims` has both of the claims.
//! - `chorus_show`: the line of each act (`printed_lines`), and that of a fault (`refused`).
#![tactic(auto)]

#[cfg(test)]
mod claims;
#[cfg(test)]
mod limits;
#[cfg(test)]
mod printed_lines;
#[cfg(test)]
mod refused;
#[cfg(test)]
mod rows;
#[cfg(test)]
mod scenarios;
