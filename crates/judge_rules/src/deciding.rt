//! The conditions of decisions on a message, and of a choice of members.

ghost use Rattle.std.specs.Prelude.{◌≡◌};
ghost use Rattle.chorus_entry.specs.declared.act.Act.TheVariants as Act;
ghost use Rattle.judge_rules.specs.Conditions.{conditions, entering, failing_among, first_failing};

use crate::about::About;
use crate::failing::{Failed, fails_at};
use crate::places::{is_beyond, is_located, location_of, source_of, suits_site};
use crate::port::{
    accepted_so_far, has_no_space, has_space, is_coming, is_ended_at, is_held_at, is_made,
    so_many_wait,
};
use checker_ledger::Ledger;
use chorus_entry::MsgId;
use chorus_ui::Ui;

/// Which condition fails of those that a message meets which enters its port, but for its room.
fn entering(ledger: &Ledger, place: u16, id: MsgId, port: Ui) -> Option<Failed>
    ensures { result ≡ failing_among 2
        (entering ledger.now.layout ledger.now.past place id port) }
{
    if !is_held_at(ledger.port(port), place) {
        return Some(fails_at(2, About::Moves { port }));
    }
    if !suits_site(ledger, place, id) {
        return Some(fails_at(3, source_of(id)));
    }
    if ledger.is_already(port, id) {
        return Some(fails_at(
            4,
            About::AcceptsOf {
                port,
                client: id.seat,
            },
        ));
    }
    if ledger.finds_clients_full(port, id) {
        return Some(fails_at(5, About::Accepts { port }));
    }
    None
}

/// The first condition that fails of those that the port may accept the message at this position.
pub(crate) fn accept_failed(ledger: &Ledger, place: u16, id: MsgId, port: Ui, pos: u64) -> Failed
    ensures { result ≡ first_failing 2
        (conditions ledger.now.layout ledger.now.past place 0 (Act.Accept id port pos)) }
{
    if let Some(failed) = entering(ledger, place, id, port) {
        return failed;
    }
    if !has_space(ledger.port(port)) {
        return fails_at(6, About::Queue { port });
    }
    if !accepted_so_far(ledger.port(port), pos) {
        return fails_at(7, About::Accepts { port });
    }
    fails_at(8, About::Message { id })
}

/// The first condition that fails of those that the port may be full with so many.
pub(crate) fn full_failed(ledger: &Ledger, place: u16, id: MsgId, port: Ui, len: u8) -> Failed
    ensures { result ≡ first_failing 2
        (conditions ledger.now.layout ledger.now.past place 0 (Act.Full id port len)) }
{
    if let Some(failed) = entering(ledger, place, id, port) {
        return failed;
    }
    if !has_no_space(ledger.port(port)) {
        return fails_at(6, About::Queue { port });
    }
    if !so_many_wait(ledger.port(port), len) {
        return fails_at(7, About::Queue { port });
    }
    fails_at(8, About::Message { id })
}

/// The first condition that fails of those that the port may have accepted the request before.
pub(crate) fn already_failed(ledger: &Ledger, place: u16, id: MsgId, port: Ui) -> Failed
    ensures { result ≡ first_failing 2
        (conditions ledger.now.layout ledger.now.past place 0 (Act.Already id port)) }
{
    if !is_held_at(ledger.port(port), place) {
        return fails_at(2, About::Moves { port });
    }
    if !ledger.is_already(port, id) {
        return fails_at(
            3,
            About::AcceptsOf {
                port,
                client: id.seat,
            },
        );
    }
    fails_at(4, About::Message { id })
}

/// The first condition that fails of those that the port may remember too many clients.
pub(crate) fn clients_full_failed(ledger: &Ledger, place: u16, id: MsgId, port: Ui) -> Failed
    ensures { result ≡ first_failing 2
        (conditions ledger.now.layout ledger.now.past place 0 (Act.ClientsFull id port)) }
{
    if !is_held_at(ledger.port(port), place) {
        return fails_at(2, About::Moves { port });
    }
    if !ledger.finds_clients_full(port, id) {
        return fails_at(3, About::Accepts { port });
    }
    fails_at(4, About::Message { id })
}

/// The first condition that fails of those that the message may have been tried too late.
pub(crate) fn stale_failed(
    ledger: &Ledger,
    place: u16,
    id: MsgId,
    port: Ui,
    tried: u64,
    to: u16,
    hop: u64,
) -> Failed
    ensures { result ≡ first_failing 2
        (conditions ledger.now.layout ledger.now.past place 0 (Act.Stale id port tried to hop)) }
{
    if is_held_at(ledger.port(port), place) {
        return fails_at(2, About::Moves { port });
    }
    if !is_located(ledger, place, port, to, hop) {
        return fails_at(3, location_of(ledger, place, port));
    }
    if hop <= tried {
        return fails_at(4, About::Nothing);
    }
    if to == place {
        return fails_at(5, About::Nothing);
    }
    if !ledger.site_asked(id).is_none() {
        return fails_at(6, source_of(id));
    }
    fails_at(7, About::Message { id })
}

/// The first condition that fails of those that the message may come before its port.
pub(crate) fn early_failed(ledger: &Ledger, place: u16, id: MsgId, port: Ui, hop: u64) -> Failed
    ensures { result ≡ first_failing 2
        (conditions ledger.now.layout ledger.now.past place 0 (Act.Early id port hop)) }
{
    if !is_coming(ledger.port(port), place, hop) {
        return fails_at(2, About::Moves { port });
    }
    fails_at(3, About::Message { id })
}

/// The first condition that fails of those that there may be no such port.
pub(crate) fn no_port_failed(ledger: &Ledger, place: u16, id: MsgId, port: Ui) -> Failed
    ensures { result ≡ first_failing 2
        (conditions ledger.now.layout ledger.now.past place 0 (Act.NoPort id port)) }
{
    if is_made(ledger.port(port)) && !is_beyond(ledger.layout(), port) {
        return fails_at(2, About::Moves { port });
    }
    fails_at(3, About::Message { id })
}

/// The first condition that fails of those that the port may be elsewhere than on the site asked for.
pub(crate) fn elsewhere_failed(
    ledger: &Ledger,
    place: u16,
    id: MsgId,
    port: Ui,
    to: u16,
    hop: u64,
) -> Failed
    ensures { result ≡ first_failing 2
        (conditions ledger.now.layout ledger.now.past place 0 (Act.Elsewhere id port to hop)) }
{
    if !ledger.site_asked(id).is_some() {
        return fails_at(2, source_of(id));
    }
    if !is_located(ledger, place, port, to, hop) {
        return fails_at(3, location_of(ledger, place, port));
    }
    fails_at(4, About::Message { id })
}

/// The first condition that fails of those that the port may be deleted.
pub(crate) fn gone_failed(ledger: &Ledger, place: u16, id: MsgId, port: Ui) -> Failed
    ensures { result ≡ first_failing 2
        (conditions ledger.now.layout ledger.now.past place 0 (Act.Gone id port)) }
{
    if !is_ended_at(ledger.port(port), place) {
        return fails_at(2, About::Moves { port });
    }
    fails_at(3, About::Message { id })
}
