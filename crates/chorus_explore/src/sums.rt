//! A sum of where a stage is, by which the stages that are alike are looked for.

use crate::race_sites::Progress;
use chorus_entry::{Cargo, PortRecord};
use chorus_net::Sites;
use chorus_place::Place;
use std::hash::{FoldHasher, Hash, Hasher};

/// Stages that are alike have the same sum: of what the scripts were answered, of the ports with what waits in them, and of
/// the packets on their ways. Others may have it too.
pub(crate) fn sum_of(sites: &Sites, scripts: &[Progress]) -> u64 {
    let mut hasher = FoldHasher::default();
    for progress in scripts {
        progress.answers.as_slice().hash(&mut hasher);
    }
    for place in sites.places() {
        add_place(place, &mut hasher);
    }
    hasher.finish()
}

/// Adds to a stage's sum the ports of the place, and the packets that wait there.
fn add_place(place: &Place, hasher: &mut FoldHasher) {
    for record in place.tables().ports().records() {
        add_record(record, hasher);
    }
    if place.tables().out().is_empty() {
        return;
    }
    for to in 0..place.layout().places() {
        add_packets(place, to + 1, hasher);
    }
}

/// Adds to a stage's sum the packets that wait at the place to go to the other.
fn add_packets(place: &Place, to: u16, hasher: &mut FoldHasher) {
    for at in 0..u64::MAX {
        let Some(packet) = place.tables().out().get(to, at) else {
            return;
        };
        to.hash(hasher);
        add_cargo(&packet.cargo, hasher);
    }
}

/// Adds to a stage's sum the ids of what is carried, or the port that moves.
fn add_cargo(cargo: &Cargo, hasher: &mut FoldHasher) {
    match cargo {
        Cargo::Try { message, hop, .. } => {
            message.id.hash(hasher);
            hop.hash(hasher);
        }
        Cargo::Verdict { id, .. } => id.hash(hasher),
        Cargo::Transfer { port } => add_record(port, hasher),
        Cargo::Ask { message, .. } => message.id.hash(hasher),
        Cargo::Report { id, .. } => id.hash(hasher),
    }
}

/// Adds to a stage's sum the name of the port, how many messages were received from it, and those that wait.
fn add_record(record: &PortRecord, hasher: &mut FoldHasher) {
    record.ui.bits().hash(hasher);
    record.first.hash(hasher);
    for at in 0..record.pending.len() {
        if let Some(message) = record.pending.get(at) {
            message.id.hash(hasher);
        }
    }
}
