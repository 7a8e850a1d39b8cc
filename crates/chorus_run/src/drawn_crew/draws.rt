//! What a draw sends, and what is counted.
ghost use Rattle.std.specs.Prelude.{◌≡◌, ◌≤◌, IfSome};
ghost use Rattle.chorus_draw.specs.Draws.{number_of};
ghost use Rattle.chorus_run.specs.DrawnCrew.Sends.{site_drawn};

use chorus_draw::number_of;

/// The most commands that are drawn.
pub const DRAWS_LIMIT: u32 = 65_536;

/// How many messages, and the sum of their values.
#[derive(Clone, Copy, PartialEq, Eq)]
pub(crate) struct Tally {
    pub(crate) count: u64,
    pub(crate) total: u64,
}

/// The site to whose port the crew's drawn command is sent, where the generator has come to this state. None where it
/// is no such send.
pub(crate) fn site_drawn(state: u64) -> Option<u16>
    ensures value { result ≡ site_drawn (number_of state) }
    ensures from_one { IfSome result (λ site. 1 ≤ site) }
{
    let drawn = number_of(state);
    match drawn % 8 {
        0..=3 => Some((drawn / 8 % 8) as u16 + 1),
        _ => None,
    }
}
