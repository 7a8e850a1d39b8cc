//! What is said of an entry that breaks a promise.

ghost use Rattle.std.specs.Prelude.{◌≡◌, ◌∷◌, [], reverse};
ghost use Rattle.chorus_world.specs.Posts.{source};
ghost use Rattle.judge_rules.specs.declared.about.About.TheVariants as About;
ghost use Rattle.judge_promises.specs.Blames.{about_at, act_about, blame_with, broken_about, deciding_about, read_line};

use crate::breach::Breach;
use crate::breaking::is_read;
use crate::log::Log;
use chorus_entry::{Act, Entry, MsgId};
use chorus_ui::Ui;
use judge_rules::{About, Blame, passes};

/// Of these earlier entries, the one that the condition with this number is about.
fn about_at(all: &[About], number: u8) -> About
    ensures { result ≡ about_at all.now number }
{
    match all.get(usize::from(number).saturating_sub(1)) {
        Some(about) => *about,
        None => About::Nothing,
    }
}

/// The post that a promise is about, of a message or of a copy of it.
fn source_of(id: MsgId) -> About
    ensures { result ≡ About.Source (source id) }
{
    About::Source {
        id: MsgId {
            seat: id.seat,
            number: id.number,
            copy: 0,
        },
    }
}

/// The earlier entry that the condition with this number of an accept is about.
fn accept_about(id: MsgId, port: Ui, number: u8) -> About
    ensures { result ≡ about_at (deciding_about id (About.Moves port ∷ About.Queue port ∷ About.Accepts port
        ∷ About.AcceptsOf port id.seat ∷ About.AcceptsOf port id.seat ∷ [])) number }
{
    let client = id.seat;
    about_at(
        &[
            source_of(id),
            About::Message { id },
            About::Moves { port },
            About::Queue { port },
            About::Accepts { port },
            About::AcceptsOf { port, client },
            About::AcceptsOf { port, client },
        ],
        number,
    )
}

/// The earlier entry that the condition with this number is about, of a refusal by a place that holds the port, of
/// which the last condition is about this one.
fn held_about(id: MsgId, port: Ui, last: About, number: u8) -> About
    ensures { result ≡ about_at (deciding_about id (About.Moves port ∷ last ∷ [])) number }
{
    about_at(
        &[
            source_of(id),
            About::Message { id },
            About::Moves { port },
            last,
        ],
        number,
    )
}

/// The earlier entry that the condition with this number is about, of a decision or a choice, of which the last
/// condition is about this one.
fn decision_about(id: MsgId, last: About, number: u8) -> About
    ensures { result ≡ about_at (deciding_about id (last ∷ [])) number }
{
    about_at(&[source_of(id), About::Message { id }, last], number)
}

/// The earlier entry that the condition with this number is about, of a refusal of a message that the port accepted.
fn already_about(id: MsgId, port: Ui, number: u8) -> About
    ensures { result ≡ about_at (deciding_about id (About.Moves port ∷ About.AcceptsOf port id.seat ∷ [])) number }
{
    let client = id.seat;
    held_about(id, port, About::AcceptsOf { port, client }, number)
}

/// The earlier entry that the condition with this number is about, of a refusal of a message for its caller.
fn clients_full_about(id: MsgId, port: Ui, number: u8) -> About
    ensures { result ≡ about_at
        (deciding_about id (About.Moves port ∷ About.Source (source id) ∷ [])) number }
{
    held_about(id, port, source_of(id), number)
}

/// The earlier entry that the condition with this number is about, of an act that holds the port, of which the last
/// condition is about this one.
fn port_about(port: Ui, last: About, number: u8) -> About
    ensures { result ≡ about_at (About.Moves port ∷ last ∷ []) number }
{
    about_at(&[About::Moves { port }, last], number)
}

/// The earlier entry that the condition with this number of a take is about.
fn take_about(port: Ui, pos: u64, number: u8) -> About
    ensures { result ≡ about_at (About.Moves port ∷ About.AcceptsAt port pos ∷ About.Queue port ∷ []) number }
{
    about_at(
        &[
            About::Moves { port },
            About::AcceptsAt { port, pos },
            About::Queue { port },
        ],
        number,
    )
}

/// The earlier entry that the condition with this number of a depart is about.
fn depart_about(port: Ui, number: u8) -> About
    ensures { result ≡ about_at (About.Moves port ∷ About.Nothing ∷ About.Moves port ∷ []) number }
{
    about_at(
        &[About::Moves { port }, About::Nothing, About::Moves { port }],
        number,
    )
}

/// The earlier entry that the condition with this number of the act, by this caller, is about.
fn act_about(seat: u32, act: &Act, number: u8) -> About
    ensures { result ≡ about_at (act_about seat act.now) number }
{
    match act {
        Act::Make { port, .. } => about_at(&[About::Moves { port: *port }, About::Nothing], number),
        Act::Post { .. } => about_at(&[About::Nothing, About::Posts { seat }], number),
        Act::Accept { id, port, .. } => accept_about(*id, *port, number),
        Act::Full { id, port, .. } => held_about(*id, *port, About::Queue { port: *port }, number),
        Act::Already { id, port } => already_about(*id, *port, number),
        Act::ClientsFull { id, port } => clients_full_about(*id, *port, number),
        Act::Early { id, port, .. } => decision_about(*id, About::Moves { port: *port }, number),
        Act::NoPort { id, port } => decision_about(*id, About::Moves { port: *port }, number),
        Act::Elsewhere { id, .. } => decision_about(*id, source_of(*id), number),
        Act::Gone { id, port } => decision_about(*id, About::Moves { port: *port }, number),
        Act::NoMember { id, .. } => about_at(&[source_of(*id), About::Message { id: *id }], number),
        Act::Choose { id, .. } => decision_about(*id, source_of(*id), number),
        Act::Take { port, pos, .. } => take_about(*port, *pos, number),
        Act::Depart { port, .. } => depart_about(*port, number),
        Act::Arrive { port, .. } => port_about(*port, About::Moves { port: *port }, number),
        Act::Delete { port, .. } => port_about(*port, About::Queue { port: *port }, number),
        _ => About::Nothing,
    }
}

/// The earlier entry that an entry is about which breaks this promise.
fn broken_about(entry: &Entry, breach: Breach) -> About
    ensures { result ≡ broken_about entry.now breach }
{
    if breach.rule == 0 {
        let place = entry.place;
        about_at(
            &[About::Nothing, About::At { place }, About::Nothing],
            breach.condition,
        )
    } else {
        act_about(entry.seat, &entry.act, breach.condition)
    }
}

/// The line of the last entry that a promise is about, of those that are read, in a printed journal that begins with
/// these; 0 where there is none.
fn read_line(entries: &[Entry], about: &About) -> u64
    ensures { result ≡ read_line (reverse entries.now) about.now }
{
    let mut line = 0;
    for (i, entry) in entries.iter().enumerate() {
        if is_read(&entry.act) & passes(about, entry) {
            line = i as u64 + 2;
        }
    }
    line
}

/// What is said of the entry, which breaks this promise behind those of the log.
pub(crate) fn blame_with(log: &Log, entry: &Entry, breach: Breach) -> Blame
    ensures { result ≡ blame_with log.now.past entry.now breach }
{
    Blame {
        line: log.entries().len() as u64 + 2,
        rule: breach.rule,
        condition: breach.condition,
        about: read_line(log.entries(), &broken_about(entry, breach)),
    }
}
