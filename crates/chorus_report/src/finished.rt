//! How a top call ended.

ghost use Rattle.std.specs.Prelude.{◌≡◌, None};
ghost use Rattle.chorus_report.specs.Output.{GivesUp};

use chorus_net::Closed;
use chorus_show::Status;

/// How a top call ended.
#[derive(Drop)]
pub struct Finished {
    /// Whether it did all, or why it did not.
    pub status: Status,
    /// What was left when the sites, or the places of threads, were closed: of a replay, a load, a run and a crew Some exactly at
    /// `Done`, `WriteFault` and `Worn`. Of any other call it is None.
    pub closed: Option<Closed>,
}

/// A call that ended with this status, and closed nothing.
pub fn gave_up(status: Status) -> Finished
    requires { GivesUp status }
    ensures { result ≡ record { status = status; closed = None } }
{
    Finished {
        status,
        closed: None,
    }
}
