//! Whether two networks are alike: where the scripts are as far and were answered the same, of both the same may come.
//!
//! Where [`are_alike`] answers yes, the two networks are alike by `law_explore`: all that a turn reads is the same, and all that an
//! outcome tells of them, or, where claims are asked, all that they see. Where it answers no, they may be alike all the same: tables that mean the same may stand in two orders.
//!
//! Begin with `sites`; `places` compares two places, `journals` what is told of two journals, `orders` what claims see of them
//! besides, and the others tables.

mod callers;
mod hints_and_waits;
mod journals;
mod names;
mod orders;
mod packets;
mod places;
mod records;
mod sites;

pub(crate) use sites::are_alike;
