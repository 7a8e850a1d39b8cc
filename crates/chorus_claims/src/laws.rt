//! The laws of claims. They speak of the definitions alone and make no call.

ghost use Rattle.chorus_claims.specs.Pieces.{AllWaysAreChosen, ChoicesAreWays, RestsAreOne};

/// By each choice of what letters stand for that is listed, all facts on the left are so.
pub fn choices_are_ways()
    ensures { ChoicesAreWays }
{}

/// Whatever letters stand for by which all facts on the left are so, says what one of the choices says that are listed.
pub fn all_ways_are_chosen()
    ensures { AllWaysAreChosen }
{}

/// Two `..` side by side are one: the same words fit, and letters stand for the same.
pub fn rests_are_one()
    ensures { RestsAreOne }
{}
