//! The keys of what a port accepted. Of a key the port and the caller are hashed, and the number of a request besides.

ghost use Rattle.std.specs.Prelude.{◌++◌};
ghost use Rattle.std.proofs.Common.{rules};
ghost use Rattle.std.specs.Cmp.Rules.{hashing};
ghost use Rattle.std.specs.Hash as fed;
ghost use Rattle.checker_rows.specs.Keys.{hashed_number};

use checker_rows::keys::ClientOf;
use chorus_ui::Ui;
use std::hash::{Hash, Hasher};

/// What a port accepted of a caller by one route: directly, or by a group.
#[derive(Clone, Copy, PartialEq, Eq)]
pub(crate) struct RouteKey {
    /// The port.
    pub port: Ui,
    /// The caller.
    pub seat: u32,
    /// The group that it went by, where it did not go directly.
    pub route: Option<Ui>,
}

/// A request that a port accepted.
#[derive(Clone, Copy, PartialEq, Eq)]
pub(crate) struct RequestKey {
    /// The port.
    pub port: Ui,
    /// The caller.
    pub seat: u32,
    /// The number that the caller gave it.
    pub number: u32,
}

impl Hash for RouteKey {
    ghost hash_input = { λ k. fed.u64 (hashed_number k.port k.seat) };

    ghost respects_eq = { Prim.search (hashing, rules) };

    fn hash<H: Hasher>(&self, state: &mut H) {
        let client = ClientOf {
            port: self.port,
            client: self.seat,
        };
        client.hash(state);
    }
}

impl Hash for RequestKey {
    ghost hash_input = { λ k. fed.u64 (hashed_number k.port k.seat) ++ fed.u32 k.number };

    ghost respects_eq = { Prim.search (hashing, rules) };

    fn hash<H: Hasher>(&self, state: &mut H) {
        let client = ClientOf {
            port: self.port,
            client: self.seat,
        };
        client.hash(state);
        self.number.hash(state);
    }
}
