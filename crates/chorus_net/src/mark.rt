//! Which sites these are, for contracts alone.

ghost use Rattle.std.specs.Prelude.{ℕ};

use std::marker::Model;
use std::snapshot::Snapshot;

/// Which sites these are: a number that contracts see and no code holds. It stands in no clause which one sites get when they start, so
/// of two starts nothing shows that they got the same. It has no bytes.
#[derive(Drop)]
pub(crate) struct Mark {
    number: Snapshot<u64>,
}

impl Model for Mark {
    ghost Value = { ℕ };

    ghost view = { λ m. m.number.value };
}

impl Mark {
    /// A mark for sites that start. It has no clause, so that nothing rests on the number.
    pub(crate) fn for_start() -> Mark {
        Mark {
            number: Snapshot::of(&0),
        }
    }
}
