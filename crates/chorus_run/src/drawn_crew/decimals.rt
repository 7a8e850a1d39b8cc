//! What a message is worth: its body, read as a decimal.
ghost use Rattle.std.specs.Prelude.{◌≡◌};
ghost use Rattle.chorus_run.specs.DrawnCrew.Value.{body_value};

use chorus_crew::Handler;
use chorus_entry::Message;
use chorus_ui::{Ui, parse_decimal};

/// What a message is worth: the number whose decimal its body is, and 0 where it is that of no number of 64 bits.
fn read_decimal(body: &[u8]) -> u64
    ensures { result ≡ body_value body.now }
{
    parse_decimal(body).unwrap_or(0)
}

/// The handler whose value of a message is its body, read as a decimal.
#[derive(Clone, Copy)]
pub(crate) struct Decimals;

impl Handler for Decimals {
    ghost use Rattle.chorus_run.specs.DrawnCrew.Value.{body_value};

    ghost value = { λ _ _ _ m. body_value m.body };

    fn handle(&self, _port: Ui, _pos: u64, message: &Message) -> u64 {
        read_decimal(message.body.bytes())
    }
}
