//! The laws of arrows and bars. They speak of the definitions alone and make no call.

ghost use Rattle.law_picture.specs.Laws.{ArrowsAreOfTheWorld, ArrowsLeadForward, BarsAreOfTheWorld, OfLegal, WhatComesFromAfarHasOne};

/// An arrow comes from one entry that stands before, at another place (`forward`). In each legal list an entry has an arrow exactly where
/// what it is about comes from another place in the world, and has it from there (`world`): a message from where its members were asked
/// for, where it was tried or where it was decided, what became of a group's post from the group's place, a port from the place that it
/// left. What is told or heard and what arrives always has one (`afar`).
pub fn packets_have_arrows()
    ensures forward { ArrowsLeadForward }
    ensures world { OfLegal ArrowsAreOfTheWorld }
    ensures afar { OfLegal WhatComesFromAfarHasOne }
{}

/// In each legal list the bar of a port stands where the world holds the port, and nowhere else, with as many messages as wait there.
pub fn bars_are_of_the_world()
    ensures { BarsAreOfTheWorld }
{}
