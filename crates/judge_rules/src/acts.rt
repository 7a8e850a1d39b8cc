//! The first condition that fails, of each act.

ghost use Rattle.std.specs.Prelude.{◌≡◌};
ghost use Rattle.judge_rules.specs.Conditions.{conditions, first_failing};

use crate::about::About;
use crate::deciding::{
    accept_failed, already_failed, clients_full_failed, early_failed, elsewhere_failed,
    full_failed, gone_failed, no_port_failed, stale_failed,
};
use crate::failing::{Failed, fails_at};
use crate::grouping::{
    group_make_failed, groups_full_failed, join_failed, leave_failed, members_full_failed,
    not_there_failed, there_failed,
};
use crate::moving::{
    delete_failed, depart_failed, empty_failed, make_failed, make_full_failed, rehome_failed,
    take_failed,
};
use crate::posting::{done_failed, late_failed, post_failed};
use crate::sending::{choose_failed, heard_failed, no_member_failed, try_failed};
use checker_ledger::Ledger;
use chorus_entry::Act;

/// The first condition that fails of those of the act, by this caller at this place, which may not come next in a judged journal.
pub(crate) fn act_failed(ledger: &Ledger, place: u16, seat: u32, act: &Act) -> Failed
    ensures { result ≡ first_failing 2
        (conditions ledger.now.layout ledger.now.past place seat act.now) }
{
    match act {
        Act::Make {
            port,
            actor,
            capacity,
        } => make_failed(ledger, place, *port, *actor, *capacity),
        Act::MakeFull { actor } => make_full_failed(ledger, place, *actor),
        Act::NoActor { .. } => fails_at(2, About::Nothing),
        Act::NoSite { .. } => fails_at(2, About::Nothing),
        Act::Post { message, dest } => post_failed(ledger, place, seat, message, dest),
        Act::Accept { id, port, pos } => accept_failed(ledger, place, *id, *port, *pos),
        Act::Full { id, port, len } => full_failed(ledger, place, *id, *port, *len),
        Act::Already { id, port } => already_failed(ledger, place, *id, *port),
        Act::ClientsFull { id, port } => clients_full_failed(ledger, place, *id, *port),
        Act::Stale {
            id,
            port,
            tried,
            to,
            hop,
        } => stale_failed(ledger, place, *id, *port, *tried, *to, *hop),
        Act::Early { id, port, hop } => early_failed(ledger, place, *id, *port, *hop),
        Act::NoPort { id, port } => no_port_failed(ledger, place, *id, *port),
        Act::Elsewhere { id, port, to, hop } => elsewhere_failed(
            ledger, place, *id, *port, *to, *hop,
        ),
        Act::NoMember { id, group } => no_member_failed(ledger, place, *id, *group),
        Act::Choose { id, group, members } => choose_failed(ledger, place, *id, *group, members),
        Act::Try { id, port, to, hop } => try_failed(ledger, place, *id, *port, *to, *hop),
        Act::Told { id, .. } => fails_at(2, About::Message { id: *id }),
        Act::Heard { id, answer } => heard_failed(ledger, place, *id, *answer),
        Act::Take { port, pos, id } => take_failed(ledger, place, *port, *pos, *id),
        Act::Done { number } => done_failed(ledger, place, seat, *number),
        Act::Late { number } => late_failed(ledger, place, seat, *number),
        Act::Empty { port } => empty_failed(ledger, place, *port),
        Act::NotHere { .. } => fails_at(2, About::Nothing),
        Act::Rehome { port, actor } => rehome_failed(ledger, place, *port, *actor),
        Act::Depart {
            port,
            to,
            actor,
            hop,
        } => depart_failed(ledger, place, *port, *to, *actor, *hop),
        Act::Arrive { port, .. } => fails_at(2, About::Moves { port: *port }),
        Act::GroupMake { group } => group_make_failed(ledger, place, *group),
        Act::GroupsFull { site } => groups_full_failed(ledger, place, *site),
        Act::Join { group, port } => join_failed(ledger, place, *group, *port),
        Act::Leave { group, port } => leave_failed(ledger, place, *group, *port),
        Act::NoGroup { group } => fails_at(2, About::Group { group: *group }),
        Act::There { group, port } => there_failed(ledger, place, *group, *port),
        Act::NotThere { group, port } => not_there_failed(ledger, place, *group, *port),
        Act::MembersFull { group } => members_full_failed(ledger, place, *group),
        Act::Outstanding { .. } => fails_at(2, About::Calls { seat }),
        Act::NoCall => fails_at(2, About::Calls { seat }),
        Act::NoRequest => fails_at(2, About::Hands { seat }),
        Act::Cancel { .. } => fails_at(2, About::Calls { seat }),
        Act::Delete { port, discarded } => delete_failed(ledger, place, *port, discarded),
        Act::Gone { id, port } => gone_failed(ledger, place, *id, *port),
    }
}
