//! How the scripts of a run stand, as the journals and the ports tell that it closed.

ghost use Rattle.std.specs.Prelude.{◌≡◌, ◌<◌, ◌&&◌, true, not, length, IfOk, IfSome};
ghost use Rattle.chorus_ui.specs.Layout.{has_site};
ghost use Rattle.chorus_entry.specs.Act.{is_command_entry};
ghost use Rattle.chorus_world.specs.Commands.{is_own_of};
ghost use Rattle.chorus_merge.specs.Steps.{lent};
ghost use Rattle.law_awaits.specs.Awaits.{is_taken};
ghost use Rattle.chorus_scene.specs.Scene.{is_await};
ghost use Rattle.chorus_report.specs.Reading.{has_wait};
ghost use Rattle.chorus_run.specs.Standing.{gives_now, is_given, gets_nothing, is_stuck, Did, IsAsked, AreAsked, Stand};

use chorus_entry::{Act, Command, Entry};
use chorus_merge::merge_lent;
use chorus_net::Closed;
use chorus_scene::{Scenario, Script};
use chorus_show::Stuck;
use chorus_ui::{Layout, Ui};
use law_network::Placed;
use std::alloc::{AllocError, Global};

/// The scripts that are stuck, as what a run closed tells: each await that was done received a message, and each script that is left waits at
/// an await for which no port has a message. Where that is not so, the error is that of memory, as it is for want of memory. Where nothing
/// waits none is asked.
pub(crate) fn stuck_in(
    alloc: Global,
    scenario: &Scenario,
    closed: &Closed,
) -> Result<Vec<Stuck>, AllocError>
    ensures { IfOk result (λ stuck. Stand scenario.now closed.now stuck.items) }
{
    if !has_wait(scenario) {
        return Ok(Vec::new(alloc));
    }
    let entries = merge_lent(alloc, &closed.journals)?;
    ask_all(alloc, scenario, &closed.ports, &entries)
}

/// Whether a script of the scenario that was run waits.
fn has_wait(scenario: &Scenario) -> bool
    ensures { result ≡ has_wait scenario.now }
{
    scenario.scripts().iter().any(|script| script.waits() > 0)
}

/// Asks each script, by the merged entries and the ports, and gives those that are stuck.
fn ask_all(
    alloc: Global,
    scenario: &Scenario,
    ports: &[Placed],
    entries: &[&Entry],
) -> Result<Vec<Stuck>, AllocError>
    ensures { IfOk result
        (λ stuck. AreAsked scenario.now ports.now (lent entries.now) stuck.items) }
{
    let layout = scenario.layout();
    let mut stuck = Vec::new(alloc);
    for index in 0..scenario.scripts().len() {
        let script = &scenario.scripts()[index];
        let number = index as u32 + 1;
        let Some(done) = ask(layout, ports, entries, number, script) else {
            return Err(AllocError);
        };
        if done < script.commands().len() {
            stuck.push(Stuck {
                script: number,
                command: done as u32 + 1,
            })?;
        }
    }
    Ok(stuck)
}

/// How many commands of the script with this number were done. None where one that answers an await received nothing, or where the script
/// is not stuck behind them.
fn ask(
    layout: Layout,
    ports: &[Placed],
    entries: &[&Entry],
    number: u32,
    script: &Script,
) -> Option<usize>
    requires { has_site layout script.now.actor.site ≡ true }
    ensures { IfSome result
        (λ done. IsAsked layout ports.now number script.now (lent entries.now) done) }
{
    let done = done_of(entries, number, script)?;
    if done >= script.commands().len() {
        return Some(done);
    }
    if !is_stuck(layout, ports, script, done) {
        return None;
    }
    Some(done)
}

/// How many commands of the script with this number the entries answer, in order. None where one that answers an await received nothing.
fn done_of(entries: &[&Entry], number: u32, script: &Script) -> Option<usize>
    ensures { IfSome result (λ done. Did script.now.waits number (lent entries.now) done) }
{
    let mut done = 0;
    for index in 0..entries.len() {
        let entry = entries[index];
        if is_own(entry, number) {
            if is_missed(script, done, &entry.act) {
                return None;
            }
            done += 1;
        }
    }
    Some(done)
}

/// Whether the entry answers a command of the seat with this number.
fn is_own(entry: &Entry, number: u32) -> bool
    ensures { result ≡ is_own_of number entry.now }
{
    (entry.seat == number) & answers_command(&entry.act)
}

/// Whether the act answers an await, where it answers the command behind so many, and receives nothing.
fn is_missed(script: &Script, done: usize, act: &Act) -> bool
    ensures { result ≡ is_await script.now.waits done && not (is_taken act.now) }
{
    script.is_await(done) & !is_taken(act)
}

/// Whether the act answers a command.
fn answers_command(act: &Act) -> bool
    ensures { result ≡ is_command_entry act.now }
{
    !matches!(
        act,
        Act::Accept { .. }
            | Act::Full { .. }
            | Act::Already { .. }
            | Act::ClientsFull { .. }
            | Act::Stale { .. }
            | Act::Early { .. }
            | Act::NoPort { .. }
            | Act::Elsewhere { .. }
            | Act::NoMember { .. }
            | Act::Choose { .. }
            | Act::Try { .. }
            | Act::Told { .. }
            | Act::Heard { .. }
            | Act::Done { .. }
            | Act::Late { .. }
            | Act::Arrive { .. }
            | Act::Gone { .. }
    )
}

/// Whether the act receives a message.
fn is_taken(act: &Act) -> bool
    ensures { result ≡ is_taken act.now }
{
    matches!(act, Act::Take { .. })
}

/// Whether the script, of which so many commands were done, is stuck: its next command is an await, and none of the ports would give it a
/// message.
fn is_stuck(layout: Layout, ports: &[Placed], script: &Script, done: usize) -> bool
    requires left { done < length script.now.commands }
    requires site { has_site layout script.now.actor.site ≡ true }
    ensures { result ≡ is_stuck layout ports.now script.now done }
{
    if !script.is_await(done) {
        return false;
    }
    gets_nothing(layout, ports, script.actor(), &script.commands()[done])
}

/// Whether the command of a script receives, and none of the ports would give it a message.
fn gets_nothing(layout: Layout, ports: &[Placed], actor: Ui, command: &Command) -> bool
    requires { has_site layout actor.site ≡ true }
    ensures { result ≡ gets_nothing layout ports.now actor command.now }
{
    match command {
        Command::Take { port } => {
            !is_given(ports, layout.place_at(actor.site(), *port), actor, *port)
        }
        _ => false,
    }
}

/// Whether one of the ports would give a take by the actor, at this place, a message.
fn is_given(ports: &[Placed], place: u16, actor: Ui, port: Ui) -> bool
    ensures { result ≡ is_given ports.now place actor port }
{
    ports.iter().any(|held| gives(held, place, actor, port))
}

/// Whether this port would.
fn gives(held: &Placed, place: u16, actor: Ui, port: Ui) -> bool
    ensures { result ≡ gives_now place actor port held.now }
{
    (held.place == place)
        & (held.port.ui == port)
        & (held.port.actor == actor)
        & !held.port.pending.is_empty()
}
