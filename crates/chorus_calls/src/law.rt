//! What holds of a client, whatever happens to it.

ghost use Rattle.std.specs.Prelude.{ℕ, ◌≤◌, List};
ghost use Rattle.chorus_calls.specs.Law.{Event, SettlesOnce, times_given};

/// The law of calls, for every number and every list of events of a client: calls that begin or are refused, replies to any
/// number, and cancels. As it holds at every moment, a number is settled only after it was given, and once: no call that was
/// cancelled is ended by a reply, and none that got its reply is cancelled.
pub fn settled_at_most_once()
    // No number is given twice.
    ensures given { (number : ℕ) (events : List Event) → times_given number events ≤ 1 }
    // A number that was given was settled, by its reply or by a cancel, or its call is outstanding: one of these, once.
    ensures settled { SettlesOnce }
{}
