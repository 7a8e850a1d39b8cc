//! What a step does with a message, in one table.

ghost use Rattle.std.specs.Prelude.{◌≡◌, ◌<◌, length};
ghost use Rattle.chorus_ui.specs.declared.ui.Ui.{Ui};
ghost use Rattle.chorus_ui.specs.declared.kind.Kind.TheVariants as Kind;
ghost use Rattle.chorus_world.specs.Places.{taught};
ghost use Rattle.chorus_hints.specs.Known.{kept};
ghost use Rattle.place_unsettled.specs.declared.wait.Key.{Key};
ghost use Rattle.place_unsettled.specs.Queues.{queue, changed};
ghost use Rattle.law_machine.specs.Own.{next_message};
ghost use Rattle.law_machine.specs.Working.{taught_of, told};
ghost use Rattle.chorus_place.specs.PlaceTables.Steps.{MayTeach};

use chorus_calls::Caller;
use chorus_entry::{Answer, Body, Message, MsgId, Tag};
use chorus_hints::Hints;
use chorus_ui::Ui;
use place_unsettled::{Key, Waits};

/// The message that a caller posts next, with the next number of its posts.
pub(crate) fn next_message(caller: &Caller, tag: Tag, body: Body) -> Message
    requires { caller.now.posts < u32.MAX }
    ensures { result ≡ next_message tag body caller.now }
{
    let id = MsgId {
        seat: caller.seat(),
        number: caller.posts() + 1,
        copy: 0,
    };
    Message { id, tag, body }
}

/// A part of a step with a message: learns where an answer says that the port is.
pub(crate) fn teach(hints: &mut Hints, port: Ui, answer: Answer)
    requires kind { port.kind ≡ Kind.Port }
    requires teaches { MayTeach hints.old.layout port (taught answer) }
    ensures pairs { (q : Ui) →
        kept hints.new q ≡ taught_of port (taught answer) (kept hints.old) q }
    ensures layout { hints.new.layout ≡ hints.old.layout }
{
    match answer {
        Answer::Stale { to, hop } | Answer::Elsewhere { to, hop } => {
            hints.learn(port, to, hop);
        }
        _ => {}
    }
}

/// A part of a step with a message: settles the first message of a port and route, or lets it be tried again.
pub(crate) fn pass(waits: &mut Waits, key: &Key, answer: Answer)
    requires { 0 < length (queue waits.old key.now).waits }
    ensures { (k : Key) → queue waits.new k ≡ changed key.now (told answer) (queue waits.old) k }
{
    if let Answer::Stale { .. } = answer {
        waits.set_tried(key, None);
    } else {
        let _ = waits.pop(key);
    }
}
