//! The laws of the single facts and of what is told of outcomes by difference. They speak of the definitions alone and make no call.

ghost use Rattle.explore_report.specs.Differences.{DifferencesTellOutcomes};
ghost use Rattle.explore_report.specs.Singles.{FactsTellOutcomes};

/// The single facts are the lines of the outcomes, each with the number of one that has it: none is made up, and none
/// is missing.
pub fn single_facts_tell_all_outcomes()
    ensures { FactsTellOutcomes }
{}

/// The lines that are in each outcome and the others of one are its lines: none is made up, and none is missing. What is
/// in all of them is told to be in each.
pub fn differences_tell_all_outcomes()
    ensures { DifferencesTellOutcomes }
{}
