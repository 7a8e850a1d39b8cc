//! The laws of what is judged. They speak of the definitions alone and make no call.

ghost use Rattle.law_judged.specs.Judged.{WhatIsPrintedIsJudgedARun, WhatIsStuckMayBe};

/// What a replay or a run prints is judged a run for the layout that ran it, where its entries are fewer than 2^32: with who sat where and
/// what is open, as the entries say it. Lines of scripts that may be stuck change nothing of that.
pub fn what_is_printed_is_judged_a_run()
    ensures { WhatIsPrintedIsJudgedARun }
{}

/// The scripts that a replay is stuck at may be stuck behind its entries: each stands at the command behind those that its seat gave.
pub fn what_is_stuck_may_be()
    ensures { WhatIsStuckMayBe }
{}
