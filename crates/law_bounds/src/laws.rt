//! The law of the ranges. It speaks of the definitions alone and makes no call.

ghost use Rattle.law_bounds.specs.Laws.{StartsWithin, ActsStayWithin, WorksStayWithin};

/// What a place keeps is within the ranges of packets when it starts. It stays so with each command in its conditions, with a body
/// within the limit, by a caller within its ranges, and with each lawful packet, whose clock the turn's is not below; and each
/// packet that is put then is within its ranges, so that it has a frame.
pub fn turns_stay_within()
    ensures start { StartsWithin }
    ensures act { ActsStayWithin }
    ensures work { WorksStayWithin }
{}
