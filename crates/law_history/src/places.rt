//! The laws of packets and places in histories. They speak of the definitions alone and make no call.

ghost use Rattle.law_history.specs.Places.{CountsTellWhatIsLeft, SchedulesLeaveLists, TurnsPutForOthers};

/// Where histories of places fit each other, what a turn puts is for other places of the layout.
pub fn turns_put_for_other_places()
    ensures { TurnsPutForOthers }
{}

/// Where histories of places fit each other: over all places of the layout no more packets are taken than were put; and where
/// as many were taken as put, no link holds one.
pub fn counts_tell_what_is_left()
    ensures { CountsTellWhatIsLeft }
{}

/// The network that a schedule of histories leaves has the places that they end with, by their numbers, and the packets of each
/// link from a place to another, by the first and then by the second, those of one link in order.
pub fn schedules_leave_places_and_links()
    ensures { SchedulesLeaveLists }
{}
