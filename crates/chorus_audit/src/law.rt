//! What an audit finds is one thing.

ghost use Rattle.chorus_audit.specs.Tests.{TextsHaveOneVerdict};

/// The law that a text has one verdict: of two verdicts on one text, by the same layout, both are the same. The law makes no call.
pub fn a_text_has_one_verdict()
    ensures { TextsHaveOneVerdict }
{}
