//! What a judgement means. The laws speak of the definitions alone and make no call.

ghost use Rattle.chorus_judge.specs.Blaming.{BlamesAgreeWithAudits};
ghost use Rattle.chorus_judge.specs.Judgements.{QuietIsQuiet};

/// A text is judged [`Quiet`](crate::Judgement::Quiet) exactly where an audit finds it legal and its entries are a quiet list.
pub fn quiet_judgement()
    ensures { QuietIsQuiet }
{}

/// What is blamed for a wrong line is that line, by the rule of an audit; or the take of a reply before it at its place, which neither a
/// done nor a late follows.
pub fn blames_agree_with_audits()
    ensures { BlamesAgreeWithAudits }
{}
