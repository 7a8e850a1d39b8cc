//! The laws of claims that are read. They speak of the definitions alone and make no call.

ghost use Rattle.law_claims.specs.Reading.{ClaimsAreShort};
ghost use Rattle.law_claims.specs.Short.{BeforeIsThroughout, CallsSettled, NothingLate, NothingLeft, NothingLost, NothingRefused, RequestsReplied, ShortFormsAreClaims, ThroughoutAsksAtEachMoment};

/// Each short form is a claim of every scenario, and is met exactly where what its words say is so of the lines: each message that was
/// settled was accepted, or members were chosen for it; each that was accepted is received or waits; no port holds a message; who
/// receives a request replies to it; no reply comes late; and no call is outstanding.
pub fn short_forms_say_what_they_mean()
    ensures claims { ShortFormsAreClaims }
    ensures refused { NothingRefused }
    ensures lost { NothingLost }
    ensures left { NothingLeft }
    ensures replied { RequestsReplied }
    ensures late { NothingLate }
    ensures settled { CallsSettled }
{}

/// Behind `throughout` a claim is the same, asked at each moment; and one fact `before` another is, throughout, that where the
/// second is so, the first is.
pub fn throughout_asks_at_each_moment()
    ensures throughout { ThroughoutAsksAtEachMoment }
    ensures before { BeforeIsThroughout }
{}

/// A claim whose text is not refused has at most 4 facts on each side.
pub fn claims_are_short()
    ensures { ClaimsAreShort }
{}
