//! What a blame means. The laws speak of the definitions alone and make no call.

ghost use Rattle.judge_rules.specs.Laws.{BlamesAgree, ConditionsAreTheRules, FirstThatFailsIsFound};

/// An act may come next, by its rule, exactly where all its conditions hold.
pub fn conditions_are_the_rules()
    ensures { ConditionsAreTheRules }
{}

/// Where not all conditions hold, the one that is found is the first that fails.
pub fn first_that_fails_is_found()
    ensures { FirstThatFailsIsFound }
{}

/// An entry that may not come next is blamed with its line, by the rule of an audit; or a reply was just taken at its place, and the
/// take is blamed.
pub fn blames_agree()
    ensures { BlamesAgree }
{}
