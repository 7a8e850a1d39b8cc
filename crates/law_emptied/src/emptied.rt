//! What others take from the ports that a seat filled.

ghost use Rattle.law_emptied.specs.Crewed.{TakersGetWhatWasSentFirst};

/// Where seat 0 made a port on each of the first sites and sent messages to them, and then others took from them, each at
/// the port of the site of its number until it found none, who took at a port got the first messages that were sent to
/// it, in their order, as many as it has room for.
pub fn takers_get_what_was_sent_first()
    ensures { TakersGetWhatWasSentFirst }
{}
