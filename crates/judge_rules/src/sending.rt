//! The conditions of what a place sends on, is told, and chooses.

ghost use Rattle.std.specs.Prelude.{◌≡◌};
ghost use Rattle.chorus_entry.specs.declared.act.Act.TheVariants as Act;
ghost use Rattle.chorus_world.specs.Messages.{is_to_be_heard, progress};
ghost use Rattle.judge_rules.specs.Conditions.{choosing, conditions, first_failing};

use crate::about::About;
use crate::failing::{Failed, fails_at};
use crate::places::{is_beyond, location_of, source_of, suits_site};
use checker_ledger::{Ledger, choosing_place};
use chorus_entry::{Answer, Members, MsgId};
use chorus_ui::Ui;
use chorus_world::Progress;

/// Whether the message with this progress is settled by this answer, which is still to be heard, by which a condition is judged.
fn is_to_be_heard(answer: Answer, progress: Progress) -> bool
    ensures { result ≡ is_to_be_heard answer progress }
{
    match progress {
        Progress::Settled { answer: given } => answer == given,
        _ => false,
    }
}

/// Whether the post to the group has its turn to be chosen for at the place, by which a condition is judged.
fn may_choose_from(ledger: &Ledger, place: u16, id: MsgId, group: Ui) -> bool
    ensures { result ≡ (choosing ledger.now.layout ledger.now.past place id group).holds }
{
    match &ledger.progress(id) {
        Progress::Asked { from, dest } => {
            let named = match dest.group() {
                Some(named) => group == named,
                None => false,
            };
            named
                && choosing_place(ledger.layout(), group, *from) == place
                && match ledger.first_unchosen(place, *from, group) {
                    Some(next) => id == next,
                    None => false,
                }
        }
        _ => false,
    }
}

/// The first condition that fails of those that the message may go to another place.
pub(crate) fn try_failed(
    ledger: &Ledger,
    place: u16,
    id: MsgId,
    port: Ui,
    to: u16,
    hop: u64,
) -> Failed
    ensures { result ≡ first_failing 2
        (conditions ledger.now.layout ledger.now.past place 0 (Act.Try id port to hop)) }
{
    if is_beyond(ledger.layout(), port) {
        return fails_at(2, About::Nothing);
    }
    if ledger.located(place, port).to != to {
        return fails_at(3, location_of(ledger, place, port));
    }
    if ledger.located(place, port).hop != hop {
        return fails_at(4, location_of(ledger, place, port));
    }
    if to == place {
        return fails_at(5, About::Nothing);
    }
    if !suits_site(ledger, to, id) {
        return fails_at(6, source_of(id));
    }
    fails_at(7, About::Message { id })
}

/// The first condition that fails of those that the place may hear what became of the message.
pub(crate) fn heard_failed(ledger: &Ledger, place: u16, id: MsgId, answer: Answer) -> Failed
    ensures { result ≡ first_failing 2
        (conditions ledger.now.layout ledger.now.past place 0 (Act.Heard id answer)) }
{
    if !is_to_be_heard(answer, ledger.progress(id)) {
        return fails_at(2, About::Message { id });
    }
    fails_at(3, source_of(id))
}

/// The first condition that fails of those that the post may find no member.
pub(crate) fn no_member_failed(ledger: &Ledger, place: u16, id: MsgId, group: Ui) -> Failed
    ensures { result ≡ first_failing 2
        (conditions ledger.now.layout ledger.now.past place 0 (Act.NoMember id group)) }
{
    if !may_choose_from(ledger, place, id, group) {
        return fails_at(2, About::Message { id });
    }
    fails_at(3, About::Members { group })
}

/// The first condition that fails of those that these members may be chosen.
pub(crate) fn choose_failed(
    ledger: &Ledger,
    place: u16,
    id: MsgId,
    group: Ui,
    members: &Members,
) -> Failed
    ensures { result ≡ first_failing 2
        (conditions ledger.now.layout ledger.now.past place 0 (Act.Choose id group members.now)) }
{
    if !may_choose_from(ledger, place, id, group) {
        return fails_at(2, About::Message { id });
    }
    if members.uis().is_empty() {
        return fails_at(3, About::Nothing);
    }
    fails_at(4, About::Members { group })
}
