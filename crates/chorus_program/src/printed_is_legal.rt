//! What is printed is legal.

ghost use Rattle.chorus_program.specs.Circle.{RunsAreLegal};

/// The law that what a replay or a run prints is legal for the layout that ran it, where its entries are fewer than 2^32: an audit of it,
/// if it is within [`AUDIT_LIMIT`](chorus_audit::AUDIT_LIMIT), finds that many, whichever scripts stand there as stuck that may be. No
/// text with more entries is legal, by the rules of an audit. The law makes no call.
pub fn what_is_printed_is_legal()
    ensures { RunsAreLegal }
{}
