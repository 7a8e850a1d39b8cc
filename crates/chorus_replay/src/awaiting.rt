//! Whether a script may go on.

ghost use Rattle.std.specs.Prelude.{◌≡◌, true, false, length};
ghost use Rattle.law_network.specs.Network.{Act};
ghost use Rattle.law_network.specs.Schedules.{may_happen};
ghost use Rattle.law_awaits.specs.Awaits.{is_taken, would_take};
ghost use Rattle.chorus_ports.specs.Table.{find};
ghost use Rattle.chorus_ports.specs.Taking.{taken};
ghost use Rattle.law_machine.specs.Own.{take_act};
ghost use Rattle.chorus_net.specs.Sites.{net};
ghost use Rattle.chorus_scene.specs.Limits.{Keeps};
ghost use Rattle.chorus_replay.specs.Waiting.{IsScript, may_go_on};
ghost use Rattle.chorus_replay.specs.Performing.{MayDo, MayAllDo, NoneGoes, SomeGoes};

use chorus_entry::Command;
use chorus_net::Sites;
use chorus_ports::Ports;
use chorus_scene::Scenario;
use chorus_ui::Ui;

/// Whether a take of the seat would be answered by a message now: its actor holds the port at the take's place, and a message waits in
/// it. The seat may give the take. Nothing changes.
pub fn would_take(sites: &Sites, seat: u32, port: Ui) -> bool
    requires { may_happen (Act seat (Command.Take port)) (net sites.now) ≡ true }
    ensures { result ≡ would_take seat (Command.Take port) (net sites.now) }
{
    let layout = sites.layout();
    let actor = sites.callers()[seat as usize].actor();
    let number = Command::Take { port }.place_for(layout, actor);
    let place = &sites.places()[usize::from(number) - 1];
    gives(place.tables().ports(), port, actor)
}

/// Whether a take by the actor would be answered by a message, where these ports are held.
fn gives(ports: &Ports, port: Ui, actor: Ui) -> bool
    ensures { result ≡ is_taken (take_act port (taken actor (find port ports.now.records))) }
{
    match ports.get(port) {
        Some(record) => record.actor == actor && !record.pending.is_empty(),
        None => false,
    }
}

/// Whether the script of this number, from 1, may go on, where so many commands of each were done: it is not done to its end, and its
/// next command is no await that would not receive a message now.
pub(crate) fn may_go_on(sites: &Sites, scenario: &Scenario, seat: u32, done: &[usize]) -> bool
    requires script { IsScript scenario.now seat }
    requires counted { length done.now ≡ length scenario.now.scripts }
    requires may { MayDo scenario.now done.now seat (net sites.now) }
    requires keeps { Keeps scenario.now }
    ensures { result ≡ may_go_on scenario.now done.now seat (net sites.now) }
{
    let index = seat as usize - 1;
    let script = &scenario.scripts()[index];
    let Some(command) = script.commands().get(done[index]) else {
        return false;
    };
    let waits = script.is_await(done[index]);
    match command {
        Command::Take { port } => !waits || would_take(sites, seat, *port),
        _ => !waits,
    }
}

/// Whether any script may go on, where so many commands of each were done.
pub(crate) fn may_any(sites: &Sites, scenario: &Scenario, done: &[usize]) -> bool
    requires counted { length done.now ≡ length scenario.now.scripts }
    requires may { MayAllDo scenario.now done.now (net sites.now) }
    requires keeps { Keeps scenario.now }
    ensures some { result ≡ true → SomeGoes scenario.now done.now (net sites.now) }
    ensures none { result ≡ false → NoneGoes scenario.now done.now (net sites.now) }
{
    for index in 0..scenario.scripts().len() {
        if may_go_on(sites, scenario, index as u32 + 1, done) {
            return true;
        }
    }
    false
}
