//! Deciding on a message.

ghost use Rattle.std.specs.Prelude.{◌≡◌, true, IsNone, IfSome, unwrap_or};
ghost use Rattle.chorus_place.specs.PlaceTables.Going.{LeavesRecords};
ghost use Rattle.chorus_ui.specs.declared.kind.Kind.TheVariants as Kind;
ghost use Rattle.chorus_ui.specs.Layout.{has_site};
ghost use Rattle.chorus_ports.specs.Table.{find};
ghost use Rattle.chorus_ports.specs.Limits.{HasPositionLeft};
ghost use Rattle.law_machine.specs.Deciding.{answer_in, answer_away, answer_of, decision, records_after};
ghost use Rattle.chorus_place.specs.PlaceTables.Plain.{is_plain};
ghost use Rattle.chorus_place.specs.PlaceTables.Tables.{seen};

use chorus_entry::{Act, Answer, Message, MsgId};
use chorus_hints::Hints;
use chorus_ports::{Accept, Ports};
use chorus_ui::Ui;
use place_journal::Journal;

/// The answer to a message that the record of a port that is held gives, when the place decides.
fn answer_in(accept: Accept) -> Answer
    ensures { result ≡ answer_in accept }
{
    match accept {
        Accept::Accepted { pos } => Answer::Accepted { pos },
        Accept::Already(_) => Answer::Already,
        Accept::ClientsFull(_) => Answer::ClientsFull,
        Accept::Full { len, .. } => Answer::Full { len },
    }
}

/// The answer of a place that does not hold the port to a message that was tried with the hop `tried`.
fn answer_away(place: u16, only: Option<u16>, tried: u64, newest: (u16, u64)) -> Answer
    ensures { result ≡ answer_away place only tried (record { to = newest.0; hop = newest.1 }) }
{
    let (to, hop) = newest;
    if tried < hop {
        if to == place {
            return Answer::Early { hop };
        }
        return match only {
            Some(_) => Answer::Elsewhere { to, hop },
            None => Answer::Stale { to, hop },
        };
    }
    if tried == 0 {
        Answer::NoPort
    } else {
        Answer::Early { hop: tried }
    }
}

/// The act of the entry that decides on a message, by which it has this answer.
pub(crate) fn decision(id: MsgId, port: Ui, tried: u64, answer: Answer) -> Act
    ensures value { result ≡ decision id port tried answer }
    ensures plain { is_plain result ≡ true }
{
    match answer {
        Answer::Accepted { pos } => Act::Accept { id, port, pos },
        Answer::Full { len } => Act::Full { id, port, len },
        Answer::Stale { to, hop } => Act::Stale {
            id,
            port,
            tried,
            to,
            hop,
        },
        Answer::Early { hop } => Act::Early { id, port, hop },
        Answer::Already => Act::Already { id, port },
        Answer::ClientsFull => Act::ClientsFull { id, port },
        Answer::Elsewhere { to, hop } => Act::Elsewhere { id, port, to, hop },
        Answer::Gone => Act::Gone { id, port },
        Answer::NoPort | Answer::NoMember | Answer::Chosen { .. } => Act::NoPort { id, port },
    }
}

/// Decides on a message at this place, where it was tried with the hop `tried`, and enqueues it where it is accepted.
pub(crate) fn decide(
    place: u16,
    ports: &mut Ports,
    hints: &Hints,
    journal: &Journal,
    message: Message,
    port: Ui,
    only: Option<u16>,
    tried: u64,
) -> Answer
    requires kind { port.kind ≡ Kind.Port }
    requires site { has_site hints.now.layout port.site ≡ true }
    requires positions { IfSome (find port ports.old.records) HasPositionLeft }
    ensures answer { result ≡ answer_of message port only tried
        (seen place journal.now hints.now) (find port ports.old.records) }
    ensures ports { ports.new ≡
        record ports.old { records = records_after result message port ports.old.records } }
{
    if ports.get(port).is_some() {
        return answer_in(ports.accept(port, message));
    }
    if journal.is_deleted(port) {
        return Answer::Gone;
    }
    answer_away(place, only, tried, hints.newest(port))
}

/// The answer that is given, or else what the place decides on the message.
pub(crate) fn decide_unless(
    given: Option<Answer>,
    place: u16,
    ports: &mut Ports,
    hints: &Hints,
    journal: &Journal,
    message: Message,
    port: Ui,
    only: Option<u16>,
    tried: u64,
) -> Answer
    requires kind { port.kind ≡ Kind.Port }
    requires site { IsNone given → has_site hints.now.layout port.site ≡ true }
    requires leaves { IfSome given LeavesRecords }
    requires positions { IfSome (find port ports.old.records) HasPositionLeft }
    ensures answer { result ≡ unwrap_or given (answer_of message port only tried
        (seen place journal.now hints.now) (find port ports.old.records)) }
    ensures ports { ports.new ≡
        record ports.old { records = records_after result message port ports.old.records } }
{
    match given {
        Some(answer) => answer,
        None => decide(place, ports, hints, journal, message, port, only, tried),
    }
}
