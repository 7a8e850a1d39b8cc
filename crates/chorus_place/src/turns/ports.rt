//! Whole turns at ports: what can fail comes first, and then one step after the other.

ghost use Rattle.std.specs.Prelude.{◌≡◌, ◌+◌, ◌^◌, ◌<◌, ◌≤◌, IsNone, IsOk, IfOk, OnErr};
ghost use Rattle.chorus_ui.specs.declared.kind.Kind.TheVariants as Kind;
ghost use Rattle.chorus_entry.specs.declared.command.Command.TheVariants as Command;
ghost use Rattle.chorus_ports.specs.Table.{find};
ghost use Rattle.law_machine.specs.PlaceState.{greatest_clock};
ghost use Rattle.law_machine.specs.Own.{held_by, next_port};
ghost use Rattle.chorus_place.specs.PlaceTables.Commands.{Performed, StaysOut};
ghost use Rattle.chorus_place.specs.PlaceTables.Room.{KeepsRoom};
ghost use Rattle.chorus_place.specs.PlaceTables.Tables.{turn};
ghost use Rattle.chorus_place.specs.PlaceTurns.Allowed.{MayMakePort};

use crate::tables::{Tables, has_made_all, next_port};
use chorus_calls::Caller;
use chorus_entry::Act;
use chorus_ports::Taken;
use chorus_ui::{Kind, Ui};
use law_machine::Reply;
use std::alloc::AllocError;

/// Makes a port for the actor, whose home place this is where the layout has it. `NoActor` where it has not, and else
/// `MakeFull` where the place made all its ports. Want of memory changes nothing.
pub(crate) fn make(
    tables: &mut Tables,
    actor: Ui,
    capacity: u8,
    caller: &mut Caller,
) -> Result<Reply, AllocError>
    requires may { MayMakePort actor capacity tables.old caller.old }
    requires clock { greatest_clock (turn tables.old caller.old) + 1 < 2 ^ 64 }
    ensures performed { IfOk result (λ reply. Performed (Command.Make actor capacity)
        (turn tables.old caller.old) (turn tables.new caller.new) reply) }
    ensures refused { OnErr result (turn tables.new caller.new ≡ turn tables.old caller.old) }
    ensures out { StaysOut tables.old.out tables.new.out }
    ensures kept { KeepsRoom tables.old tables.new }
{
    tables.make_room(1, 0)?;
    if tables.layout().home(actor).is_none() {
        tables.note(Act::NoActor { actor }, caller);
        return Ok(Reply::NoActor);
    }
    if has_made_all(tables) {
        tables.note(Act::MakeFull { actor }, caller);
        return Ok(Reply::MakeFull);
    }
    tables.make_port_room()?;
    let port = next_port(tables, actor);
    tables.make_port(port, actor, capacity, caller)?;
    Ok(Reply::Made(port))
}

/// Takes the first message that waits in the port, for the caller's actor. `NotHere` where that actor does not hold it
/// here, and else `Empty` where none waits. Takes no memory where there is room for two entries.
pub(crate) fn take(tables: &mut Tables, port: Ui, caller: &mut Caller) -> Result<Reply, AllocError>
    requires clock { greatest_clock (turn tables.old caller.old) + 2 < 2 ^ 64 }
    ensures performed { IfOk result (λ reply. Performed (Command.Take port)
        (turn tables.old caller.old) (turn tables.new caller.new) reply) }
    ensures refused { OnErr result (turn tables.new caller.new ≡ turn tables.old caller.old) }
    ensures out { StaysOut tables.old.out tables.new.out }
    ensures takes_no_memory { 2 ≤ tables.old.journal.spare → IsOk result }
    ensures kept { KeepsRoom tables.old tables.new }
{
    tables.make_room(2, 0)?;
    match tables.take_message(port, caller) {
        Taken::NotHere => Ok(Reply::NotHere),
        Taken::Empty => Ok(Reply::Empty),
        Taken::Message { pos, message } => {
            let settled = tables.heed(message.id, message.tag, caller);
            Ok(Reply::Taken {
                pos,
                message,
                settled,
            })
        }
    }
}

/// Gives the port to another actor of its site, or sends it to the site of the actor: to the place where it stands there.
/// `NotHere` where the caller's actor does not hold it here, and else `NoActor` where the layout has no such actor. Takes
/// no memory where there is room for an entry and a packet.
pub(crate) fn move_port(
    tables: &mut Tables,
    port: Ui,
    actor: Ui,
    caller: &mut Caller,
) -> Result<Reply, AllocError>
    requires kind { actor.kind ≡ Kind.Actor }
    requires clock { greatest_clock (turn tables.old caller.old) + 1 < 2 ^ 64 }
    ensures performed { IfOk result (λ reply. Performed (Command.Move port actor)
        (turn tables.old caller.old) (turn tables.new caller.new) reply) }
    ensures refused { OnErr result (turn tables.new caller.new ≡ turn tables.old caller.old) }
    ensures out { StaysOut tables.old.out tables.new.out }
    ensures takes_no_memory { 1 ≤ tables.old.journal.spare → 1 ≤ tables.old.room → IsOk result }
    ensures kept { KeepsRoom tables.old tables.new }
{
    tables.make_room(1, 1)?;
    if !tables.is_held_by(port, caller.actor()) {
        tables.note(Act::NotHere { port }, caller);
        return Ok(Reply::NotHere);
    }
    let layout = tables.layout();
    if layout.home(actor).is_none() {
        tables.note(Act::NoActor { actor }, caller);
        return Ok(Reply::NoActor);
    }
    let site = actor.site();
    if site == layout.site_of(tables.number()) {
        tables.rehome(port, actor, caller);
        return Ok(Reply::Rehomed);
    }
    let to = layout.place_at(site, port);
    let hop = tables.depart(port, to, actor, caller);
    Ok(Reply::Departed { hop })
}

/// Deletes the port, and what waits in it. `NotHere` where the caller's actor does not hold it here: that takes no memory
/// where there is room for an entry. Else memory is taken for the list of what waits, before anything changes.
pub(crate) fn delete(
    tables: &mut Tables,
    port: Ui,
    caller: &mut Caller,
) -> Result<Reply, AllocError>
    requires clock { greatest_clock (turn tables.old caller.old) + 1 < 2 ^ 64 }
    ensures performed { IfOk result (λ reply. Performed (Command.Delete port)
        (turn tables.old caller.old) (turn tables.new caller.new) reply) }
    ensures refused { OnErr result (turn tables.new caller.new ≡ turn tables.old caller.old) }
    ensures out { StaysOut tables.old.out tables.new.out }
    ensures takes_no_memory { IsNone (held_by caller.old.actor (find port tables.old.ports.records))
        → 1 ≤ tables.old.journal.spare → IsOk result }
    ensures kept { KeepsRoom tables.old tables.new }
{
    tables.make_room(1, 0)?;
    if !tables.is_held_by(port, caller.actor()) {
        tables.note(Act::NotHere { port }, caller);
        return Ok(Reply::NotHere);
    }
    let ids = tables.ids_in(port)?;
    let discarded = ids.ids().len() as u16;
    tables.delete_port(port, ids, caller);
    Ok(Reply::Deleted { discarded })
}
