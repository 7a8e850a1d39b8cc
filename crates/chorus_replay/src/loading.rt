//! A load on one thread.

ghost use Rattle.std.specs.Prelude.{◌≡◌, ℕ, ◌≤◌, [], ◌∷◌, IfOk, IfSome, OnOk, IsErrOf};
ghost use Rattle.law_network.specs.Calls.{just_started};
ghost use Rattle.law_network.specs.Tasks.{Drain};
ghost use Rattle.chorus_net.specs.Closing.{HasMark};
ghost use Rattle.chorus_net.specs.Sites.{net};
ghost use Rattle.chorus_replay.specs.Ends.{EndsAsLoad};
ghost use Rattle.chorus_replay.specs.declared.loading.TheConstants.{LOAD_LIMIT};
ghost use Rattle.chorus_replay.specs.Ordered.{AreJustStarted};
ghost use Rattle.chorus_replay.specs.Performing.{AreLeft, AreStopped, ArePerformed, ArePlayed};
ghost use Rattle.chorus_replay.specs.Order.{after_setup};
ghost use Rattle.chorus_replay.specs.Load.{load_layout, load_order, load_setup, to_enter, to_draw};

use crate::closing::close;
use crate::draws::{Draw, LOAD_SITES, SETUP_COMMANDS, draw_for, load_actor, setup_command};
use chorus_draw::next_state;
use chorus_io::Sink;
use chorus_net::{EnterFault, Sites};
use chorus_place::PlaceFault;
use chorus_report::{Finished, Played, Text, finish};
use std::alloc::{AllocError, Global};

/// The most commands of a load.
pub const LOAD_LIMIT: u32 = 65_536;

/// Performs a load on the sites, and writes the summary of its journal: so many commands, at most 65,536, which are drawn from
/// the first number.
///
/// The sites were just started, and are 8 with one place each. Where a clock is worn before all is done, the sites are closed
/// and nothing is written. Want of memory is the one ending without a cause.
pub fn load<K: Sink>(
    alloc: Global,
    first: u64,
    commands: u32,
    sink: &mut K,
    sites: Sites,
) -> Finished
    requires just_started { AreJustStarted (net sites) }
    requires layout { (net sites).layout ≡ load_layout }
    requires commands { commands ≤ LOAD_LIMIT }
    ensures ends { EndsAsLoad first commands result K.held K.faults sink.old sink.new }
    ensures mark { IfSome result.closed (HasMark sites.mark) }
{
    let played = play(alloc, sites, first, commands);
    finish(alloc, sink, played, Text::Summary, &[])
}

/// Performs the load, and closes the sites.
fn play(alloc: Global, mut sites: Sites, first: u64, commands: u32) -> Result<Played, AllocError>
    requires start { net sites ≡ just_started load_layout }
    requires commands { commands ≤ LOAD_LIMIT }
    ensures played { IfOk result (λ played.
        ArePlayed load_layout (load_order first commands) played.worn played.closed) }
    ensures mark { IfOk result (λ played. HasMark sites.mark played.closed) }
{
    let worn = perform(alloc, &mut sites, first, commands)?;
    close(alloc, sites, worn)
}

/// Performs the load on the sites, which were just started, and gives the clock that was worn, if one was. Room is taken as it
/// is needed: each site would take that of all commands ahead.
fn perform(
    alloc: Global,
    sites: &mut Sites,
    first: u64,
    commands: u32,
) -> Result<Option<u64>, AllocError>
    requires start { net sites.old ≡ just_started load_layout }
    requires commands { commands ≤ LOAD_LIMIT }
    ensures ok { IfOk result (λ worn.
        ArePerformed load_layout (load_order first commands) worn (net sites.new)) }
    ensures mark { sites.new.mark ≡ sites.old.mark }
{
    match perform_tasks(alloc, sites, first, commands) {
        Ok(()) => Ok(None),
        Err(PlaceFault::Worn { clock }) => Ok(Some(clock)),
        Err(PlaceFault::Memory(error)) => Err(error),
    }
}

/// Performs a load's setup by seat 0, enters a seat on each site, performs the commands that are drawn, and drains.
fn perform_tasks(
    alloc: Global,
    sites: &mut Sites,
    first: u64,
    commands: u32,
) -> Result<(), PlaceFault>
    requires start { net sites.old ≡ just_started load_layout }
    requires commands { commands ≤ LOAD_LIMIT }
    ensures ok { OnOk result (AreLeft load_layout (load_order first commands) [] (net sites.new)) }
    ensures worn { (clock : ℕ) → IsErrOf result (PlaceFault.Worn clock) →
        AreStopped load_layout (load_order first commands) clock (net sites.new) }
    ensures mark { sites.new.mark ≡ sites.old.mark }
{
    set_up(sites, first, commands)?;
    enter(sites, first, commands)?;
    take_turns(alloc, sites, first, commands)?;
    sites.drain()?;
    Ok(())
}

/// Performs a load's setup, by seat 0.
fn set_up(sites: &mut Sites, first: u64, commands: u32) -> Result<(), PlaceFault>
    requires start { net sites.old ≡ just_started load_layout }
    requires commands { commands ≤ LOAD_LIMIT }
    ensures ok { OnOk result (AreLeft load_layout (load_order first commands)
        (to_enter first commands) (net sites.new)) }
    ensures now { OnOk result (net sites.new ≡ after_setup load_layout load_setup) }
    ensures worn { (clock : ℕ) → IsErrOf result (PlaceFault.Worn clock) →
        AreStopped load_layout (load_order first commands) clock (net sites.new) }
    ensures mark { sites.new.mark ≡ sites.old.mark }
{
    for index in 0..SETUP_COMMANDS {
        sites.act(0, setup_command(index))?;
    }
    Ok(())
}

/// Enters a seat on each site of a load.
fn enter(sites: &mut Sites, first: u64, commands: u32) -> Result<(), AllocError>
    requires before { AreLeft load_layout (load_order first commands)
        (to_enter first commands) (net sites.old) }
    requires now { net sites.old ≡ after_setup load_layout load_setup }
    requires commands { commands ≤ LOAD_LIMIT }
    ensures ok { OnOk result (AreLeft load_layout (load_order first commands)
        (to_draw commands 1 first) (net sites.new)) }
    ensures mark { sites.new.mark ≡ sites.old.mark }
{
    for index in 0..LOAD_SITES {
        match sites.enter(load_actor(index + 1)) {
            Ok(_) => {}
            Err(EnterFault::Memory(error)) => return Err(error),
            Err(EnterFault::NoActor) => unreachable!(),
            Err(EnterFault::NoSeat { .. }) => unreachable!(),
        }
    }
    Ok(())
}

/// Performs the commands that are drawn for a load, each by its seat, and delivers one packet behind each where two places were
/// drawn.
fn take_turns(alloc: Global, sites: &mut Sites, first: u64, commands: u32) -> Result<(), PlaceFault>
    requires before { AreLeft load_layout (load_order first commands)
        (to_draw commands 1 first) (net sites.old) }
    requires commands { commands ≤ LOAD_LIMIT }
    ensures ok { OnOk result (AreLeft load_layout (load_order first commands)
        (Drain 0 ∷ []) (net sites.new)) }
    ensures worn { (clock : ℕ) → IsErrOf result (PlaceFault.Worn clock) →
        AreStopped load_layout (load_order first commands) clock (net sites.new) }
    ensures mark { sites.new.mark ≡ sites.old.mark }
{
    let mut state = first;
    for index in 0..commands {
        state = next_state(state);
        let Draw {
            seat,
            command,
            from,
            to,
        } = draw_for(alloc, index + 1, state)?;
        sites.act(seat, command)?;
        if from != to {
            sites.deliver(from, to)?;
        }
    }
    Ok(())
}
