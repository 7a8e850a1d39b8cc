//! What holds of every text.

ghost use Rattle.chorus_scene.specs.Laws.{TooLong, FirstFault, NoEnd, Accepted, PrintedAgain};
ghost use Rattle.chorus_scene.specs.Limits.{ReadKeeps, OldTextsDoNotWait};

/// The lines of a text are tested in order: the first line that fails a test is the line of the fault, with the reason of
/// the first test that it fails. A text without such a line says what its lines say, or lacks its end. The law makes no
/// call.
pub fn lines_are_tested_in_order()
    ensures too_long { TooLong }
    ensures first_fault { FirstFault }
    ensures no_end { NoEnd }
    ensures accepted { Accepted }
{}

/// What is printed of a scenario that was read is no longer than the text, and is read as the same scenario. The law
/// makes no call.
pub fn what_is_printed_is_read_again()
    ensures { PrintedAgain }
{}

/// A scenario that was read keeps all limits: of its version and sites, its setup, its scripts and its schedule; in versions 1 and 2
/// no command of it is an await. The law makes no call.
pub fn a_scenario_keeps_its_limits()
    ensures keeps { ReadKeeps }
    ensures no_wait { OldTextsDoNotWait }
{}
