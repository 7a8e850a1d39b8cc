//! The laws of the network. They speak of the definitions alone and make no call.

ghost use Rattle.law_network.specs.ByPlace.{SchedulesStandByPlace};
ghost use Rattle.law_network.specs.EachMessage.{ClosedHoldEach, HoldingsHoldEach, NetworksHoldEach};
ghost use Rattle.law_network.specs.Fates.{HoldingsHoldByFate, WorldsHoldByFate};
ghost use Rattle.law_network.specs.History.{EventsStand, SchedulesStandInOrder};
ghost use Rattle.law_network.specs.Promises.{SchedulesKeepPromises};
ghost use Rattle.law_network.specs.Tasks.{CarriedOutOnce, DrainsEnd, DrainsLeaveNothing, DrainsRest, FrontsPerformed, TasksCarriedOut};

/// A network of places refines the world in which each port has one holder.
///
/// Where a network stands for a past of that world and is ready, any event that may happen puts new entries in front of the
/// past, and the network stands for that past and is ready again: a caller comes, gives a command, or works off the packet
/// that is first from one place to another. So after any events, in any order, the network stands for the entries of all its
/// places in the order in which they came: they are a run of the world for the callers, and each place's journal, records,
/// locations, waiting messages and callers, and the packets under way, are what that run says.
///
/// And each schedule keeps the promises, field by field. The journals are merged by clock and place alone. The merge is a run
/// too (`run`), its parts are the journals (`journals`), and it performs the commands of each caller in their order
/// (`performed`). Each packet that is worked off next is lawful at its place (`lawful`). The records held and the ports under
/// way stand for the ports of the merge (`stands`), also when the network is closed (`left`). Where no packet is left, nothing
/// is left to be done (`quiet`). What a port gives out is always what it accepted first, in order (`receives`), and each
/// accepted message always stands at one position of one port, with one fate (`fates`). A port always has the messages of
/// one sender by one route in the order in which they were sent (`sender_order`). A request is always accepted at most once,
/// by all ports together (`once`). A functional post is always accepted by at most one member (`one_member`), on the site that
/// it asks for (`on_site`). The copies of a group's posts always stand in each port in the order of their choices
/// (`choice_order`). A direct post is carried by at most 2 (h + 1) packets that try it or tell its verdict, where h is how often
/// its port departed (`few_packets`).
pub fn network_refines_world()
    ensures events { EventsStand }
    ensures stands { SchedulesStandInOrder }
    ensures promises { SchedulesKeepPromises }
{}

/// A task is an event, or a drain of a caller: whole rounds in which it works off packets, so many that one more would serve
/// nothing.
///
/// The events that carry out a list of tasks exist, and whatever number of rounds they take for the drains, they leave one and
/// the same network. A drain ends and leaves no packet, so after a last drain nothing is left to be done. Where only a front
/// of the tasks was carried out, and of a drain behind them some deliveries, the merge performs the commands of that front.
pub fn drains_leave_nothing_to_do()
    ensures events { TasksCarriedOut }
    ensures once { CarriedOutOnce }
    ensures ends { DrainsEnd }
    ensures empty { DrainsLeaveNothing }
    ensures rests { DrainsRest }
    ensures front { FrontsPerformed }
{}

/// Each accepted message was received, was discarded with its deleted port, or is held by exactly one queue or Transfer.
///
/// Where holdings stand for a past in which each accepted message has one fate, a message that is queued by its fate waits in
/// the record of its port at one place, and one that is under way in one Transfer: there alone, once, at its position behind
/// those taken. One that was received or discarded waits in none. And nothing else waits in them (`holdings`). So it is of what
/// a network holds after each schedule, for the merge of its journals (`network`), also when it is closed (`closed`).
///
/// The entries tell which it is: a Take of the port has the message, at its position, exactly where it was received; the port's
/// Delete has it exactly where it was discarded. So it always is in the world of a legal list (`world`), and in all holdings that
/// stand for one (`by_fate`).
pub fn each_message_stands_once()
    ensures holdings { HoldingsHoldEach }
    ensures network { NetworksHoldEach }
    ensures closed { ClosedHoldEach }
    ensures world { WorldsHoldByFate }
    ensures by_fate { HoldingsHoldByFate }
{}

/// The network of a schedule has the places of its layout by their numbers, and its packets stand by the place that put them and then
/// by the place that they go to, which are two different places of the layout.
pub fn networks_stand_by_place()
    ensures { SchedulesStandByPlace }
{}
