//! The commands of callers, each as a whole turn.

ghost use Rattle.std.specs.Prelude.{◌≡◌, ◌<◌, ◌≤◌, true, IsOk, IfOk, OnErr};
ghost use Rattle.chorus_ui.specs.declared.limits.TheConstants.{CLOCK_LIMIT};
ghost use Rattle.chorus_entry.specs.declared.command.Command.TheVariants as Command;
ghost use Rattle.chorus_entry.specs.Command.{demands_a_site};
ghost use Rattle.chorus_entry.specs.Kinds.{has_kinds_in_dest};
ghost use Rattle.law_machine.specs.PlaceState.{greatest_clock};
ghost use Rattle.chorus_place.specs.Calls.{MayPerform, TakesNone};
ghost use Rattle.chorus_place.specs.PlaceTables.Commands.{Performed, StaysOut};
ghost use Rattle.chorus_place.specs.PlaceTables.Room.{KeepsRoom};
ghost use Rattle.chorus_place.specs.PlaceTables.Tables.{state, turn};

use crate::tables::Tables;
use crate::turns::{
    call, cancel, delete, join, leave, make, make_group, move_port, post_to_group, retry,
    send_reply, send_to_port, take,
};
use chorus_calls::Caller;
use chorus_entry::{Body, Command, Dest};
use law_machine::Reply;
use std::alloc::AllocError;

/// Performs a caller's command at a place, by the turn for its kind. Want of memory changes nothing.
pub(crate) fn perform(
    tables: &mut Tables,
    command: Command,
    caller: &mut Caller,
) -> Result<Reply, AllocError>
    requires may { MayPerform tables.old caller.old command }
    requires clock { greatest_clock (turn tables.old caller.old) < CLOCK_LIMIT }
    ensures performed { IfOk result (λ reply. Performed command
        (turn tables.old caller.old) (turn tables.new caller.new) reply) }
    ensures refused { OnErr result (turn tables.new caller.new ≡ turn tables.old caller.old) }
    ensures out { StaysOut tables.old.out tables.new.out }
    ensures kept { KeepsRoom tables.old tables.new }
    ensures takes_no_memory { TakesNone command (state tables.old) caller.old
        → 2 ≤ tables.old.journal.spare → 2 ≤ tables.old.room → IsOk result }
{
    match command {
        Command::Make { actor, capacity } => make(tables, actor, capacity, caller),
        Command::Send { dest, body } => send(tables, dest, body, caller),
        Command::Call { port, back, body } => call(tables, port, back, body, caller),
        Command::Retry => retry(tables, caller),
        Command::Cancel => cancel(tables, caller),
        Command::Reply { body } => send_reply(tables, body, caller),
        Command::Take { port } => take(tables, port, caller),
        Command::Move { port, actor } => move_port(tables, port, actor, caller),
        Command::GroupMake { site } => make_group(tables, site, caller),
        Command::Join { group, port } => join(tables, group, port, caller),
        Command::Leave { group, port } => leave(tables, group, port, caller),
        Command::Delete { port } => delete(tables, port, caller),
    }
}

/// Performs a command that sends: posts a message to its destination, a port or a group. Want of memory changes nothing.
fn send(
    tables: &mut Tables,
    dest: Dest,
    body: Body,
    caller: &mut Caller,
) -> Result<Reply, AllocError>
    requires kinds { has_kinds_in_dest dest ≡ true }
    requires site { demands_a_site dest ≡ true }
    requires posts { caller.old.posts < u32.MAX }
    requires clock { greatest_clock (turn tables.old caller.old) < CLOCK_LIMIT }
    ensures performed { IfOk result (λ reply. Performed (Command.Send dest body)
        (turn tables.old caller.old) (turn tables.new caller.new) reply) }
    ensures refused { OnErr result (turn tables.new caller.new ≡ turn tables.old caller.old) }
    ensures out { StaysOut tables.old.out tables.new.out }
    ensures kept { KeepsRoom tables.old tables.new }
{
    // That the body is within the limit is told by its bytes.
    let _within = body.bytes();
    match dest {
        Dest::Port(port) => send_to_port(tables, port, body, caller),
        _ => post_to_group(tables, dest, body, caller),
    }
}
