//! What readers read: where each port is, for how many entries that stands, and the clock of the last of them.
use crate::history::Witness;
use chorus_hints::Hints;
use chorus_ui::{Kind, Ui};
use left_right::Absorb;
use std::alloc::AllocError;

/// The locations, the place whose entries tell them, the number of entries for which they stand and the clock of the last one, 0
/// where there is none, and these entries, which have no bytes.
#[derive(Drop)]
pub struct Table {
    pub hints: Hints,
    pub place: u16,
    pub upto: u64,
    pub clock: u64,
    pub seen: Witness,
}

/// A location that is published, and the entries for which the publish stands.
#[derive(Drop)]
pub struct Publish {
    pub ui: Ui,
    pub place: u16,
    pub hop: u64,
    pub upto: u64,
    pub clock: u64,
    pub seen: Witness,
}

impl Absorb<Publish> for Table {
    ghost use Rattle.chorus_board.specs.Table.{applied_to};

    type State = Table;

    ghost state = { λ table. table };

    ghost applied = { applied_to };

    ghost never_fails = { Unit {0} };

    fn absorb_first(&mut self, operation: &Publish, _other: &Table) -> Result<(), AllocError> {
        let ui = operation.ui;
        if ui.kind() == Kind::Port && self.hints.layout().can_make_port(ui) {
            self.hints.learn(ui, operation.place, operation.hop);
        }
        self.upto = operation.upto;
        self.clock = operation.clock;
        self.seen = operation.seen.again();
        Ok(())
    }
}
