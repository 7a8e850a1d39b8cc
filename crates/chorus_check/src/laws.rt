//! What a check means. The law speaks of the definitions alone and makes no call.

ghost use Rattle.chorus_check.specs.Kept.{HoldingClaimsAreMet};

/// Where a check ends with all claims holding, what a claim asks to be possible is shown by a
/// schedule, and every replay of the scenario, whatever lines stand behind `schedule`, meets all
/// other claims at its end, and at each moment on its way those that are asked there, unless a
/// clock is worn.
pub fn holding_claims_are_met()
    ensures { HoldingClaimsAreMet }
{}
