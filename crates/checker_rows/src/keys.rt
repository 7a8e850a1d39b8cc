//! The keys of the tables. Of a key one number is hashed: the bits of its name, moved by the number of the place or client beside it,
//! if there is one. The route of a line is not hashed.

ghost use Rattle.std.specs.Prelude.{◌≡◌};
ghost use Rattle.std.proofs.Common.{rules};
ghost use Rattle.std.specs.Cmp.Rules.{comparing, hashing};
ghost use Rattle.std.specs.Hash as fed;
ghost use Rattle.checker_rows.specs.Keys.{hashed_number};

use chorus_ui::Ui;
use std::hash::{Hash, Hasher};

/// How far apart two places, or two clients, whose numbers follow each other move the number that is hashed.
const BESIDE_STEP: u64 = 1 << 24;

/// A port.
#[derive(Clone, Copy, Eq)]
pub struct PortKey {
    /// Its name.
    pub port: Ui,
}

/// A port, or a group, at a place.
#[derive(Clone, Copy, Eq)]
pub struct NameAt {
    /// The place.
    pub place: u16,
    /// The port or the group.
    pub name: Ui,
}

/// What goes from a place to a port by one route: directly, or by a group.
#[derive(Clone, Copy, PartialEq, Eq)]
pub struct LineKey {
    /// The place that it goes from.
    pub place: u16,
    /// The port; of posts to a group, the group.
    pub name: Ui,
    /// The group that it goes by, where it does not go directly.
    pub route: Option<Ui>,
}

/// A client of a port.
#[derive(Clone, Copy, Eq)]
pub struct ClientOf {
    /// The port.
    pub port: Ui,
    /// The caller that sends it requests.
    pub client: u32,
}

impl PartialEq for PortKey {
    ghost use Rattle.checker_rows.specs.Keys.{same_port};

    ghost eq = { same_port };

    ghost laws = { Prim.search (comparing, rules) };

    fn eq(&self, other: &PortKey) -> bool {
        self.port == other.port
    }
}

impl PartialEq for NameAt {
    ghost use Rattle.checker_rows.specs.Keys.{same_name_at};

    ghost eq = { same_name_at };

    ghost laws = { Prim.search (comparing, rules) };

    fn eq(&self, other: &NameAt) -> bool {
        self.place == other.place && self.name == other.name
    }
}

impl PartialEq for ClientOf {
    ghost use Rattle.checker_rows.specs.Keys.{same_client};

    ghost eq = { same_client };

    ghost laws = { Prim.search (comparing, rules) };

    fn eq(&self, other: &ClientOf) -> bool {
        self.client == other.client && self.port == other.port
    }
}

/// The number that is hashed of a name, beside which a place or a client of this number stands; 0 where none does.
fn hashed_number(name: Ui, beside: u32) -> u64
    ensures { result ≡ hashed_number name beside }
{
    name.bits().wrapping_add(u64::from(beside) * BESIDE_STEP)
}

impl Hash for PortKey {
    ghost hash_input = { λ k. fed.u64 (hashed_number k.port 0) };

    ghost respects_eq = { Prim.search (hashing, rules) };

    fn hash<H: Hasher>(&self, state: &mut H) {
        hashed_number(self.port, 0).hash(state);
    }
}

impl Hash for NameAt {
    ghost hash_input = { λ k. fed.u64 (hashed_number k.name k.place) };

    ghost respects_eq = { Prim.search (hashing, rules) };

    fn hash<H: Hasher>(&self, state: &mut H) {
        hashed_number(self.name, u32::from(self.place)).hash(state);
    }
}

impl Hash for LineKey {
    ghost hash_input = { λ k. fed.u64 (hashed_number k.name k.place) };

    ghost respects_eq = { Prim.search (hashing, rules) };

    fn hash<H: Hasher>(&self, state: &mut H) {
        hashed_number(self.name, u32::from(self.place)).hash(state);
    }
}

impl Hash for ClientOf {
    ghost hash_input = { λ k. fed.u64 (hashed_number k.port k.client) };

    ghost respects_eq = { Prim.search (hashing, rules) };

    fn hash<H: Hasher>(&self, state: &mut H) {
        hashed_number(self.port, self.client).hash(state);
    }
}
