//! The conditions of making, receiving from, moving and deleting ports.

ghost use Rattle.std.specs.Prelude.{◌≡◌};
ghost use Rattle.chorus_entry.specs.declared.act.Act.TheVariants as Act;
ghost use Rattle.judge_rules.specs.Conditions.{conditions, first_failing};

use crate::about::About;
use crate::failing::{Failed, fails_at};
use crate::places::{has_actor, is_full_of_ports, site_of};
use crate::port::{is_held_at, taken_so_far};
use checker_ledger::Ledger;
use chorus_entry::{Ids, MsgId, PENDING_LIMIT};
use chorus_ui::Ui;

/// The first condition that fails of those that the place may make the port.
pub(crate) fn make_failed(ledger: &Ledger, place: u16, port: Ui, actor: Ui, capacity: u8) -> Failed
    ensures { result ≡ first_failing 2
        (conditions ledger.now.layout ledger.now.past place 0 (Act.Make port actor capacity)) }
{
    if !has_actor(ledger.layout(), actor) {
        return fails_at(2, About::Nothing);
    }
    if ledger.layout().place_at(actor.site(), actor) != place {
        return fails_at(3, About::Nothing);
    }
    if capacity < 1 || PENDING_LIMIT < capacity as usize {
        return fails_at(4, About::Nothing);
    }
    if is_full_of_ports(ledger, place) {
        return fails_at(5, About::Makes { place });
    }
    fails_at(6, About::Makes { place })
}

/// The first condition that fails of those that the place may have made its share of ports.
pub(crate) fn make_full_failed(ledger: &Ledger, place: u16, actor: Ui) -> Failed
    ensures { result ≡ first_failing 2
        (conditions ledger.now.layout ledger.now.past place 0 (Act.MakeFull actor)) }
{
    if !has_actor(ledger.layout(), actor) {
        return fails_at(2, About::Nothing);
    }
    if ledger.layout().place_at(actor.site(), actor) != place {
        return fails_at(3, About::Nothing);
    }
    fails_at(4, About::Makes { place })
}

/// The first condition that fails of those that the message may be received.
pub(crate) fn take_failed(ledger: &Ledger, place: u16, port: Ui, pos: u64, id: MsgId) -> Failed
    ensures { result ≡ first_failing 2
        (conditions ledger.now.layout ledger.now.past place 0 (Act.Take port pos id)) }
{
    if !is_held_at(ledger.port(port), place) {
        return fails_at(2, About::Moves { port });
    }
    if !taken_so_far(ledger.port(port), pos) {
        return fails_at(3, About::Queue { port });
    }
    fails_at(4, About::AcceptsAt { port, pos })
}

/// The first condition that fails of those that the port may be empty.
pub(crate) fn empty_failed(ledger: &Ledger, place: u16, port: Ui) -> Failed
    ensures { result ≡ first_failing 2
        (conditions ledger.now.layout ledger.now.past place 0 (Act.Empty port)) }
{
    if !is_held_at(ledger.port(port), place) {
        return fails_at(2, About::Moves { port });
    }
    fails_at(3, About::Queue { port })
}

/// The first condition that fails of those that the port may go to another actor of its site.
pub(crate) fn rehome_failed(ledger: &Ledger, place: u16, port: Ui, actor: Ui) -> Failed
    ensures { result ≡ first_failing 2
        (conditions ledger.now.layout ledger.now.past place 0 (Act.Rehome port actor)) }
{
    if !is_held_at(ledger.port(port), place) {
        return fails_at(2, About::Moves { port });
    }
    if !has_actor(ledger.layout(), actor) {
        return fails_at(3, About::Nothing);
    }
    fails_at(4, About::Nothing)
}

/// The first condition that fails of those that the port may leave the place.
pub(crate) fn depart_failed(
    ledger: &Ledger,
    place: u16,
    port: Ui,
    to: u16,
    actor: Ui,
    hop: u64,
) -> Failed
    ensures { result ≡ first_failing 2
        (conditions ledger.now.layout ledger.now.past place 0 (Act.Depart port to actor hop)) }
{
    if !is_held_at(ledger.port(port), place) {
        return fails_at(2, About::Moves { port });
    }
    if !has_actor(ledger.layout(), actor) {
        return fails_at(3, About::Nothing);
    }
    if actor.site() == site_of(ledger.layout(), place) {
        return fails_at(4, About::Nothing);
    }
    if to != ledger.layout().place_at(actor.site(), port) {
        return fails_at(5, About::Nothing);
    }
    fails_at(6, About::Moves { port })
}

/// The first condition that fails of those that the port may be deleted.
pub(crate) fn delete_failed(ledger: &Ledger, place: u16, port: Ui, discarded: &Ids) -> Failed
    ensures { result ≡ first_failing 2
        (conditions ledger.now.layout ledger.now.past place 0 (Act.Delete port discarded.now)) }
{
    if !is_held_at(ledger.port(port), place) {
        return fails_at(2, About::Moves { port });
    }
    fails_at(3, About::Queue { port })
}
