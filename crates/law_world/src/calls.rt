//! By what a call is settled, and how often.

ghost use Rattle.chorus_world.specs.Always.{LegalAlways, LegalEntries};
ghost use Rattle.law_world.specs.Calls.{DoneByReply, LateByReply, SettlesOnce, SettlesWhatWasCalled};

/// Of each seat and number, at most one entry settles the call: its Done or its Cancel (`once`), and its seat had called it
/// (`called`). A Done stands directly behind the Take of the reply to it: of a message that was posted to the port which the
/// request names for its reply, by a seat that had taken the request last, and had posted no reply since. So one reply belongs
/// to one request (`done`). Behind the Take of any other reply stands Late: the reply to another client's request, or to one
/// that is settled (`late`).
pub fn a_call_is_settled_at_most_once()
    ensures once { LegalAlways SettlesOnce }
    ensures called { LegalEntries (λ l. SettlesWhatWasCalled) }
    ensures done { LegalEntries (λ l. DoneByReply) }
    ensures late { LegalEntries (λ l. LateByReply) }
{}
