//! The two ends of a bell.
ghost use Rattle.std.specs.Prelude.{◌≡◌};
ghost use Rattle.std.specs.Arc.{arc_value};
ghost use Rattle.std.specs.Coded.{Coded-set};
ghost use Rattle.atomic_table.specs.Seated.{table_id_coded};

use crate::rule::{BellCounts, Tokens};
use crossbeam_utils::sync::parker::{Pass, RuledParker, RuledUnparker};

/// The end of a bell that rings. Threads may share it.
#[derive(Drop)]
pub struct Ringer {
    pub(crate) unparker: RuledUnparker<BellCounts, Tokens>,
}

/// The end of a bell that waits.
#[derive(Drop)]
pub struct Waiter {
    pub(crate) parker: RuledParker<BellCounts, Tokens>,
    pub(crate) pass: Pass<BellCounts>,
    ghost of_bell: { pass.table_id ≡ (arc_value parker.unparker.state).shared.table_id } by { Coded-set table_id_coded _ _ },
}
