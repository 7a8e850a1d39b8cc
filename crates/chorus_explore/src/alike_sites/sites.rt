//! Two networks.

ghost use Rattle.std.specs.Prelude.{◌≡◌, true, IfOk};
ghost use Rattle.chorus_net.specs.Sites.{net};
ghost use Rattle.law_explore.specs.Alike.{NetsAlike};
ghost use Rattle.law_explore.specs.Positions.{AskAlike};

use crate::alike_sites::callers::are_same_callers;
use crate::alike_sites::places::is_same_place;
use chorus_net::Sites;
use std::alloc::AllocError;

/// Whether the networks of the sites, of one layout, are alike, where the seats from 1 to `scripts` have scripts, and claims
/// are asked or not. True only where they are; it may be false where they are too. The only error is want of memory.
pub(crate) fn are_alike(
    one: &Sites,
    other: &Sites,
    scripts: u16,
    asks: bool,
) -> Result<bool, AllocError>
    requires { other.now.layout ≡ one.now.layout }
    ensures { IfOk result (λ alike. alike ≡ true →
        NetsAlike (AskAlike asks) scripts (net one.now) (net other.now)) }
{
    let places = one.places();
    let others = other.places();
    for at in 0..places.len() {
        if !is_same_place(&places[at], &others[at], asks)? {
            return Ok(false);
        }
    }
    Ok(are_same_callers(one.callers(), other.callers(), usize::from(scripts)))
}
