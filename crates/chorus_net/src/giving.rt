//! Whether a command may be given.

ghost use Rattle.std.specs.Prelude.{◌≡◌, Some};
ghost use Rattle.chorus_entry.specs.Command.{is_post, has_body_in_limit};
ghost use Rattle.law_network.specs.Schedules.{may_give};

use chorus_calls::Caller;
use chorus_entry::{BODY_LIMIT, Command};

/// Whether a command that a seat is to give posts a message.
fn is_post(command: &Command) -> bool
    ensures { result ≡ is_post command.now }
{
    matches!(
        command,
        Command::Send { .. } | Command::Call { .. } | Command::Retry | Command::Reply { .. }
    )
}

/// Whether the body of a command that a seat is to give, if it has one, is within the limit.
fn has_body_in_limit(command: &Command) -> bool
    ensures { result ≡ has_body_in_limit command.now }
{
    match command {
        Command::Send { body, .. } | Command::Call { body, .. } | Command::Reply { body } => {
            body.bytes().len() <= BODY_LIMIT
        }
        _ => true,
    }
}

/// Whether the caller of a seat may give the command to the sites.
pub(crate) fn may_give(caller: &Caller, command: &Command) -> bool
    ensures { result ≡ may_give (Some caller.now) command.now }
{
    let has_number_left = !is_post(command) || caller.posts() < u32::MAX;
    command.meets_conditions() && has_body_in_limit(command) && has_number_left
}
