//! What a command and its caller hold.

ghost use Rattle.std.specs.Prelude.{◌≡◌, true};
ghost use Rattle.chorus_entry.specs.Command.{has_body_in_limit};
ghost use Rattle.law_bounds.specs.Bounds.{IsCallerWithin};

use chorus_calls::Caller;
use chorus_entry::Command;

/// A caller's outstanding call and its request in hand are within the ranges of packets, and so is a command's body: their types
/// keep them so. Nothing is done but to look at them.
pub fn are_within(caller: &Caller, command: &Command)
    ensures caller { IsCallerWithin caller.now }
    ensures body { has_body_in_limit command.now ≡ true }
{
    look_at_caller(caller);
    look_at_command(command);
}

/// What a caller keeps is within its ranges, those of packets: it is only looked at.
fn look_at_caller(caller: &Caller)
    ensures { IsCallerWithin caller.now }
{
    let _hand = caller.hand();
    if let Some(call) = caller.client().again() {
        let _bytes = call.body.bytes();
    }
}

/// A command's body is within the limit: it is only looked at.
fn look_at_command(command: &Command)
    ensures { has_body_in_limit command.now ≡ true }
{
    match command {
        Command::Send { body, .. } | Command::Call { body, .. } | Command::Reply { body } => {
            let _bytes = body.bytes();
        }
        _ => {}
    }
}
