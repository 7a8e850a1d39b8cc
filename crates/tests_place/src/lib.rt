//! Tests of a place, and of places at the ends of their links, by public items alone. They stand apart, so that no crate below is proved
//! twice.
//!
//! - `scenarios` and `worked_rows` are played over places that are handed packets one by one, and leave their journals.
//!   Tables of scenarios (`groups`, `messages`, `migration`, `names`) are texts, which `playing` plays over the places and
//!   callers of `net`. The worked rows are in `tests_rows`.
//! - `limits` has those that take many callers, many ports or late clocks.
//! - `packets` has packets by hand, lawful and not, which it reads from `line_words`; `records` are the ports in them.
//! - `link_ends` has the ends of ruled links (`chorus_ends`, `chorus_ruled_ends`); `served_pair` two places at such ends, which serve
//!   (`chorus_serve`) a worked row (`served_row`), and one over ends in memory, which keeps in hand what it may not work off
//!   (`served_hand`).
#![tactic(auto)]

#[cfg(test)]
mod groups;
#[cfg(test)]
mod limits;
#[cfg(test)]
mod line_words;
#[cfg(test)]
mod link_ends;
#[cfg(test)]
mod messages;
#[cfg(test)]
mod migration;
#[cfg(test)]
mod names;
#[cfg(test)]
mod net;
#[cfg(test)]
mod packets;
#[cfg(test)]
mod playing;
#[cfg(test)]
mod records;
#[cfg(test)]
mod scenarios;
#[cfg(test)]
mod served_hand;
#[cfg(test)]
mod served_pair;
#[cfg(test)]
mod served_row;
#[cfg(test)]
mod worked_rows;
