//! The sites are closed, when all was performed or a clock was worn.

ghost use Rattle.std.specs.Prelude.{◌≡◌, IfOk};
ghost use Rattle.chorus_net.specs.Closing.{IsClosed, HasMark};
ghost use Rattle.chorus_net.specs.Sites.{net};

use chorus_net::Sites;
use chorus_report::Played;
use std::alloc::{AllocError, Global};

/// Closes the sites of a replay or a load, on which this clock was worn, if one was.
pub(crate) fn close(alloc: Global, sites: Sites, worn: Option<u64>) -> Result<Played, AllocError>
    ensures played { IfOk result
        (λ played. (played.worn ≡ worn) × IsClosed (net sites) played.closed) }
    ensures mark { IfOk result (λ played. HasMark sites.mark played.closed) }
{
    match sites.close(alloc) {
        Ok(closed) => Ok(Played { closed, worn }),
        Err((_, error)) => Err(error),
    }
}
