//! The laws of what stands in words below the rows. They speak of the definitions alone and make no call.

ghost use Rattle.chorus_picture.specs.Found.{LawfulTextsHaveSummaries};
ghost use Rattle.chorus_picture.specs.RuleWords.{EachRuleNamesItsAct};

/// The words of a rule begin with the word of the act that it refuses.
pub fn rules_name_their_acts()
    ensures { EachRuleNamesItsAct }
{}

/// What stands behind the entries of a text in which all is lawful, and so below their rows, is their summary, in which scripts may be
/// stuck.
pub fn a_lawful_text_has_its_summary()
    ensures { LawfulTextsHaveSummaries }
{}
