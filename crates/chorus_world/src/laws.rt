//! The laws of the world. They speak of the definitions alone, over every legal list of entries, and make no call.

ghost use Rattle.chorus_world.specs.Always.{LayoutAlways, LayoutEntries, LegalAlways, LegalEntries, RunAlways, RunsAreLegal};
ghost use Rattle.chorus_world.specs.Answering.{OneActAnswers, OneActAtMost};
ghost use Rattle.chorus_world.specs.AcceptedLaws.{AcceptedGrows, DiscardedByFate, DiscardsTheRest, EndsWithDelete, HasOneVerdict, KeepsEachMessage, KeepsToCapacity, ReceivedByFate, ReceivesInOrder};
ghost use Rattle.chorus_world.specs.DecisionLaws.{AcceptsWithRoom, AnswersNewer, ElsewhereNamesPath, FullWithoutRoom, HearsTheEnd, MeetsWhereHeld, StaleNamesLater, TellsTheVerdict};
ghost use Rattle.chorus_world.specs.SentLaws.{AcceptsWhatWasSent};
ghost use Rattle.chorus_world.specs.RequestLaws.{AcceptsRequestsOnce, RequestsRise};
ghost use Rattle.chorus_world.specs.SenderLaws.{KeepsSenderOrder};
ghost use Rattle.chorus_world.specs.GroupLaws.{AcceptsOnSite, HasOneCopy, IsChosenOnce, KeepsChoiceOrder, ReachesOneMember};

/// A run of the world is a legal list, so each law of legal lists holds of it.
pub fn a_run_is_legal()
    ensures { RunsAreLegal }
{}

/// At each moment of a run of the world each port has given out what it accepted, in order, and nothing else; and each
/// accepted message has one fate.
pub fn a_run_keeps_each_message()
    ensures received { RunAlways ReceivesInOrder }
    ensures fate { RunAlways KeepsEachMessage }
{}

/// At most one act answers a command as the next entry of a run of the world: the one that the entries of its place, of
/// its caller and of its port tell. And in a run whose callers are in actors of the layout and posted at their home
/// places alone it does answer, unless the last entry at the command's place is the Take of a reply.
pub fn exactly_one_act_answers()
    ensures most { OneActAtMost }
    ensures one { OneActAnswers }
{}

/// In a legal list each message that a port accepted always stands at one position of one port, and it always has exactly
/// one fate: it was received, it is queued, it is under way or it was discarded.
pub fn accepted_message_has_one_fate()
    ensures { LegalAlways KeepsEachMessage }
{}

/// What a port accepted in a legal list stays at its position, whatever comes after: only more is put behind it.
pub fn accepted_messages_stay()
    ensures { AcceptedGrows }
{}

/// The ids of a port's Take entries are always the first that it accepted, in order, as many as were received; and never more
/// messages wait in it than its capacity, which is 1 to 64.
pub fn port_gives_out_in_order()
    ensures received { LayoutAlways ReceivesInOrder }
    ensures room { LayoutAlways KeepsToCapacity }
{}

/// The ids of a port's Delete entry are all that it accepted and that were not received, in order; and nothing becomes of the
/// port after it.
pub fn deleted_port_discards_the_rest()
    ensures rest { LayoutAlways DiscardsTheRest }
    ensures end { EndsWithDelete }
{}

/// The ids of a port's Take entries are those that were received by their fate, and those of its Delete entry are those that
/// were discarded.
pub fn entries_tell_each_fate()
    ensures received { LayoutAlways ReceivedByFate }
    ensures discarded { LayoutAlways DiscardedByFate }
{}

/// What a port accepted was posted to it, or is the copy that a Choose made for it, of a post that was posted before to the
/// group which the Choose names.
pub fn port_accepts_what_was_sent()
    ensures { LegalAlways AcceptsWhatWasSent }
{}

/// Only the place that holds a port accepts for it, or answers that it is full, that it had the request already or that it
/// keeps no more clients. It accepts where fewer messages wait than the port has room for, and answers Full where as many do.
pub fn only_the_holder_accepts()
    ensures held { LegalEntries (λ l. MeetsWhereHeld) }
    ensures room { LegalEntries (λ l. AcceptsWithRoom) }
    ensures full { LegalEntries (λ l. FullWithoutRoom) }
{}

/// A place was tried too late where a message stands tried at it with a hop, and it does not hold the port, and locates it at
/// another place by a later hop. A Stale stands only there, for a message that asks for no site, and names that other place. An
/// Elsewhere stands only for a message that asks for a site, and names where its place locates the port: there as well, or from
/// where the message is the next to be tried, off the site. What they name is on the port's path. And a place that was tried too
/// late decides nothing else: Stale, or Elsewhere for a message that asks for a site.
pub fn stale_names_a_later_place()
    ensures stale { LayoutEntries StaleNamesLater }
    ensures elsewhere { LayoutEntries ElsewhereNamesPath }
    ensures newer { LayoutEntries AnswersNewer }
{}

/// What a place is told of a message, unless it is Stale, is the message's verdict; what it hears is the verdict, or how many
/// copies a choice made.
pub fn told_is_the_verdict()
    ensures told { LegalEntries (λ l. TellsTheVerdict) }
    ensures heard { LegalEntries (λ l. HearsTheEnd) }
{}

/// In a legal list a message has at most one verdict.
pub fn message_has_one_verdict()
    ensures { HasOneVerdict }
{}

/// In a legal list the numbers of the requests that a port accepted of each client always rise; and each request is
/// accepted at most once, at one position of one port, however often it is posted.
pub fn request_is_accepted_once()
    ensures rise { LegalAlways RequestsRise }
    ensures once { LegalAlways AcceptsRequestsOnce }
{}

/// In a legal list a port always has the messages of one caller that came to it by one route in the order in which they
/// were posted. A route is the direct one, or through one group.
pub fn port_keeps_sender_order()
    ensures { LegalAlways KeepsSenderOrder }
{}

/// In a legal list a post to one member of a group has at most one copy and is accepted at most once, one that asks for a
/// site only by a place on that site.
pub fn functional_post_reaches_one_member()
    ensures copy { LegalAlways HasOneCopy }
    ensures accepted { LegalAlways ReachesOneMember }
    ensures site { LegalEntries AcceptsOnSite }
{}

/// Members are chosen for each post at most once, and of one group; and the copies of a group's posts always stand in each
/// port in the order of their Choose entries.
pub fn port_keeps_choice_order()
    ensures once { LegalAlways IsChosenOnce }
    ensures order { LegalAlways KeepsChoiceOrder }
{}
