//! How far a message is on its way, after an entry about it.

ghost use Rattle.std.specs.Prelude.{◌≡◌};
ghost use Rattle.chorus_entry.specs.Act.{port_of, answer_of};
ghost use Rattle.chorus_world.specs.Messages.{settled, posted, decided, decided_by, told, progress_after};

use chorus_entry::{Act, Answer, Dest};
use chorus_ui::Ui;
use chorus_world::Progress;

/// The progress once the message is settled by this answer: none where it is Stale.
fn settled(answer: Answer) -> Progress
    ensures { result ≡ settled answer }
{
    match answer {
        Answer::Stale { .. } => Progress::Idle,
        _ => Progress::Settled { answer },
    }
}

/// The progress once the message is posted at this place.
fn posted(place: u16, dest: Dest) -> Progress
    ensures { result ≡ posted place dest }
{
    match dest {
        Dest::Port(_) => Progress::Idle,
        _ => Progress::Asked { from: place, dest },
    }
}

/// The progress once the message is decided at this place, for the port and with this answer.
fn decided(place: u16, port: Ui, answer: Answer, progress: Progress) -> Progress
    ensures { result ≡ decided place port answer progress }
{
    match progress {
        Progress::Tried {
            from,
            port: tried,
            to,
            ..
        } => {
            if to == place && tried == port {
                Progress::Decided {
                    from,
                    by: place,
                    port: tried,
                    answer,
                }
            } else {
                Progress::Idle
            }
        }
        Progress::Idle => settled(answer),
        _ => progress,
    }
}

/// The progress once the place that tried the message is told this answer.
fn told(answer: Answer, progress: Progress) -> Progress
    ensures { result ≡ told answer progress }
{
    match progress {
        Progress::Decided { .. } => settled(answer),
        _ => progress,
    }
}

/// The progress once the act decides the message at this place; as it was where the act is no decision.
fn decided_by(place: u16, act: &Act, progress: Progress) -> Progress
    ensures { result ≡ decided_by place (port_of act.now) (answer_of act.now) progress }
{
    match act.port() {
        Some(port) => match act.answer() {
            Some(answer) => decided(place, port, answer, progress),
            None => progress,
        },
        None => progress,
    }
}

/// The progress of a message after an act about it at this place.
pub(crate) fn progress_after(place: u16, act: &Act, progress: Progress) -> Progress
    ensures { result ≡ progress_after place act.now progress }
{
    match act {
        Act::Post { dest, .. } => posted(place, *dest),
        Act::Choose { members, .. } => Progress::Settled {
            answer: Answer::Chosen {
                count: members.uis().len() as u16,
            },
        },
        Act::NoMember { .. } => Progress::Settled {
            answer: Answer::NoMember,
        },
        Act::Try { port, to, hop, .. } => Progress::Tried {
            from: place,
            port: *port,
            to: *to,
            hop: *hop,
        },
        Act::Told { answer, .. } => told(*answer, progress),
        Act::Heard { .. } => Progress::Reported,
        _ => decided_by(place, act, progress),
    }
}
