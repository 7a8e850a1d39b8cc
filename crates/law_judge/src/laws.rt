//! The law of what is open. It speaks of the definitions alone and makes no call.

ghost use Rattle.law_judge.specs.Laws.{NothingOpenIsQuiet};

/// In a legal list nothing is open exactly where the list is quiet: no port is on its way, each place has settled each message that it
/// sent, each post to a group has its choice, nothing is to be heard, and no journal ends with the take of a reply.
pub fn nothing_open_is_quiet()
    ensures { NothingOpenIsQuiet }
{}
