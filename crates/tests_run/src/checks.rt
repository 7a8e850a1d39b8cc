//! What checks tell of the claims of a scenario: of three protocols, where the limit of events is
//! met, of what is asked to be possible, where all claims have failed, of a scenario that has none,
//! and of schedules that are drawn. The texts are those of a simulator that was written apart from
//! this code, from the rules of a check; those of drawn schedules were worked out by hand.

use crate::exploring::MANY;
use crate::running::{assert_same, run_of, sink_of, sixteen, source_of};
use chorus_check::{Checked, Schedules, check};
use chorus_io::{Sink, Source};
use chorus_show::Status;
use std::alloc::Global;
use std::process::Abort;

/// A lock: a port with room for one message.
const LOCK: &str = "\
chorus 3
sites 1
port 1.p.1 1.a.1 1
script 1.a.1
send 1.p.1 =mine
take 1.p.1
script 1.a.1
send 1.p.1 =mine
take 1.p.1
script 1.a.1
send 1.p.1 =mine
take 1.p.1
claim nothing lost
claim nothing left
schedule
end
";

const LOCK_TOLD: &str = "\
events 201
claims 2
1 holds nothing lost
2 holds nothing left
end
";

/// A fast sender and a slow receiver, with room for two.
const PRESSURE: &str = "\
chorus 3
sites 2
port 1.p.1 1.a.1 2
script 2.a.1
send 1.p.1 =1
send 1.p.1 =2
send 1.p.1 =3
send 1.p.1 =4
script 1.a.1
take 1.p.1
take 1.p.1
claim always verdict 1:1:0 accepted
claim always verdict 1:2:0 accepted
claim verdict X full A => verdict X full 2
claim nothing refused
claim verdict 1:3:0 full * => verdict 1:4:0 full *
claim answer 2 2 take 1.p.1 X => verdict 1:2:0 accepted
schedule
end
";

const PRESSURE_TOLD: &str = "\
events 307
claims 6
1 holds always verdict 1:1:0 accepted
2 holds always verdict 1:2:0 accepted
3 holds verdict X full A => verdict X full 2
4 fails 14 nothing refused
5 fails 14 verdict 1:3:0 full * => verdict 1:4:0 full *
6 holds answer 2 2 take 1.p.1 X => verdict 1:2:0 accepted
schedule 4
step 1
step 1
step 1
step 1
step 2
step 2
deliver 2 1
deliver 1 2
deliver 2 1
deliver 1 2
deliver 2 1
deliver 1 2
deliver 2 1
deliver 1 2
facts 12
answer 1 1 post 1:1:0 port 1.p.1 plain =1
answer 1 2 post 1:2:0 port 1.p.1 plain =2
answer 1 3 post 1:3:0 port 1.p.1 plain =3
answer 1 4 post 1:4:0 port 1.p.1 plain =4
answer 2 1 empty 1.p.1
answer 2 2 empty 1.p.1
verdict 1:1:0 accepted
verdict 1:2:0 accepted
verdict 1:3:0 full 2
verdict 1:4:0 full 2
port 1.p.1 1.a.1 1:1:0 1:2:0
accepted 1.p.1 1:1:0 1:2:0
schedule 5
step 1
step 1
step 1
step 1
step 2
deliver 2 1
deliver 1 2
deliver 2 1
deliver 1 2
deliver 2 1
step 2
deliver 1 2
deliver 2 1
deliver 1 2
facts 12
answer 1 1 post 1:1:0 port 1.p.1 plain =1
answer 1 2 post 1:2:0 port 1.p.1 plain =2
answer 1 3 post 1:3:0 port 1.p.1 plain =3
answer 1 4 post 1:4:0 port 1.p.1 plain =4
answer 2 1 empty 1.p.1
answer 2 2 take 1.p.1 1:1:0
verdict 1:1:0 accepted
verdict 1:2:0 accepted
verdict 1:3:0 full 2
verdict 1:4:0 accepted
port 1.p.1 1.a.1 1:2:0 1:4:0
accepted 1.p.1 1:1:0 1:2:0 1:4:0
end
";

/// Jobs shared by a group of two ports with room for one.
const BALANCER: &str = "\
chorus 3
sites 2
port 1.p.1 1.a.1 1
port 2.p.1 2.a.1 1
group 1.g.1
member 1.g.1 1.p.1
member 1.g.1 2.p.1
script 1.a.2
one 1.g.1 =job
one 1.g.1 =job
script 2.a.2
one 1.g.1 =job
script 1.a.1
take 1.p.1
script 2.a.1
take 2.p.1
claim never answer 3 * take * X & answer 4 * take * X
claim nothing refused
claim verdict X full A => verdict X full 1
schedule
end
";

const BALANCER_TOLD: &str = "\
events 689
claims 3
1 holds never answer 3 * take * X & answer 4 * take * X
2 fails 10 nothing refused
3 holds verdict X full A => verdict X full 1
schedule 2
step 1
step 1
step 2
step 4
deliver 1 2
deliver 2 1
step 3
deliver 1 2
deliver 1 2
deliver 2 1
facts 19
answer 1 1 post 1:1:0 one 1.g.1 plain =job
answer 1 2 post 1:2:0 one 1.g.1 plain =job
answer 2 1 post 2:1:0 one 1.g.1 plain =job
answer 3 1 take 1.p.1 1:1:1
answer 4 1 empty 2.p.1
verdict 1:1:0 chosen
copy 1:1:1 1.p.1
verdict 1:1:1 accepted
verdict 1:2:0 chosen
copy 1:2:1 2.p.1
verdict 1:2:1 accepted
verdict 2:1:0 chosen
copy 2:1:1 1.p.1
verdict 2:1:1 full 1
port 1.p.1 1.a.1
port 2.p.1 2.a.1 1:2:1
accepted 1.p.1 1:1:1
accepted 2.p.1 1:2:1
members 1.g.1 1.p.1 2.p.1
end
";

/// Two senders to one place, and what is asked to be possible.
const POSSIBLE: &str = "\
chorus 3
sites 2
port 1.p.1 1.a.1 1
script 1.a.1
send 1.p.1 =near
script 2.a.1
send 1.p.1 =far
claim possible verdict 1:1:0 full 1
claim possible stale *
schedule
end
";

const POSSIBLE_TOLD: &str = "\
events 11
claims 2
1 holds 4 possible verdict 1:1:0 full 1
2 fails possible stale *
schedule 1
step 2
deliver 2 1
step 1
deliver 1 2
facts 6
answer 1 1 post 1:1:0 port 1.p.1 plain =near
answer 2 1 post 2:1:0 port 1.p.1 plain =far
verdict 1:1:0 full 1
verdict 2:1:0 accepted
port 1.p.1 1.a.1 2:1:0
accepted 1.p.1 2:1:0
end
";

/// Two claims of which each fails.
const EARLY: &str = "\
chorus 3
sites 2
port 1.p.1 1.a.1 1
script 1.a.1
send 1.p.1 =near
script 2.a.1
send 1.p.1 =far
claim always verdict 1:1:0 accepted
claim always verdict 2:1:0 accepted
schedule
end
";

const EARLY_TOLD: &str = "\
events 10
claims 2
1 fails 4 always verdict 1:1:0 accepted
2 fails 4 always verdict 2:1:0 accepted
schedule 1
step 2
deliver 2 1
step 1
deliver 1 2
facts 6
answer 1 1 post 1:1:0 port 1.p.1 plain =near
answer 2 1 post 2:1:0 port 1.p.1 plain =far
verdict 1:1:0 full 1
verdict 2:1:0 accepted
port 1.p.1 1.a.1 2:1:0
accepted 1.p.1 2:1:0
schedule 2
step 1
step 2
deliver 2 1
deliver 1 2
facts 6
answer 1 1 post 1:1:0 port 1.p.1 plain =near
answer 2 1 post 2:1:0 port 1.p.1 plain =far
verdict 1:1:0 accepted
verdict 2:1:0 full 1
port 1.p.1 1.a.1 1:1:0
accepted 1.p.1 1:1:0
end
";

/// A scenario of version 2.
const NONE: &str = "\
chorus 2
sites 2
port 1.p.1 1.a.1 1
script 1.a.1
send 1.p.1 =near
script 2.a.1
send 1.p.1 =far
schedule
end
";

const NONE_TOLD: &str = "\
events 11
claims 0
end
";

const OPEN_TOLD: &str = "\
events 100
claims 6
1 open 7 always verdict 1:1:0 accepted
2 open 7 always verdict 1:2:0 accepted
3 open 7 verdict X full A => verdict X full 2
4 open 7 nothing refused
5 open 7 verdict 1:3:0 full * => verdict 1:4:0 full *
6 open 7 answer 2 2 take 1.p.1 X => verdict 1:2:0 accepted
end
";

/// Two wait for one message: a script that is stuck has a next command at the end.
const STUCK: &str = "\
chorus 3
sites 1
port 1.p.1 1.a.1 1
script 1.a.1
await 1.p.1
send 1.p.2 =thanks
script 1.a.1
await 1.p.1
script 1.a.1
send 1.p.1 =hello
claim never next 1 *
claim possible next 2 1
schedule
end
";

const STUCK_TOLD: &str = "\
events 4
claims 2
1 fails 2 never next 1 *
2 holds 3 possible next 2 1
schedule 1
step 3
step 2
facts 6
answer 2 1 take 1.p.1 3:1:0
answer 3 1 post 3:1:0 port 1.p.1 plain =hello
verdict 3:1:0 accepted
port 1.p.1 1.a.1
accepted 1.p.1 3:1:0
next 1 1
schedule 2
step 3
step 1
step 1
facts 8
answer 1 1 take 1.p.1 3:1:0
answer 1 2 post 1:1:0 port 1.p.2 plain =thanks
answer 3 1 post 3:1:0 port 1.p.1 plain =hello
verdict 1:1:0 no-port
verdict 3:1:0 accepted
port 1.p.1 1.a.1
accepted 1.p.1 3:1:0
next 2 1
end
";

/// Where script 3 alone may come one move may, whatever is drawn; of two the second is drawn each time.
const STUCK_DRAWN_TOLD: &str = "\
drawn 2 7
events 4
claims 2
1 fails 2 never next 1 *
2 open 0 possible next 2 1
schedule 1
step 3
step 2
facts 6
answer 2 1 take 1.p.1 3:1:0
answer 3 1 post 3:1:0 port 1.p.1 plain =hello
verdict 3:1:0 accepted
port 1.p.1 1.a.1
accepted 1.p.1 3:1:0
next 1 1
end
";

/// From 7 the generator draws 1059165278, 2052263231, 1946856753, 585718673; 572045545, 297257219,
/// 865189864 and 691615764: of two moves the first, then the only ones; and the second, the second,
/// the first.
const DRAWN: &str = "\
chorus 3
sites 2
port 1.p.1 1.a.1 1
script 1.a.1
send 1.p.1 =near
script 2.a.1
send 1.p.1 =far
claim always verdict 1:1:0 accepted
claim possible verdict 2:1:0 full 1
claim nothing lost
claim throughout never open 2:1:0
schedule
end
";

const DRAWN_TOLD: &str = "\
drawn 2 7
events 8
claims 4
1 fails 4 always verdict 1:1:0 accepted
2 holds 4 possible verdict 2:1:0 full 1
3 open 0 nothing lost
4 fails 2 throughout never open 2:1:0
schedule 1
step 2
deliver 2 1
step 1
deliver 1 2
facts 6
answer 1 1 post 1:1:0 port 1.p.1 plain =near
answer 2 1 post 2:1:0 port 1.p.1 plain =far
verdict 1:1:0 full 1
verdict 2:1:0 accepted
port 1.p.1 1.a.1 2:1:0
accepted 1.p.1 2:1:0
schedule 2
step 1
step 2
deliver 2 1
deliver 1 2
facts 6
answer 1 1 post 1:1:0 port 1.p.1 plain =near
answer 2 1 post 2:1:0 port 1.p.1 plain =far
verdict 1:1:0 accepted
verdict 2:1:0 full 1
port 1.p.1 1.a.1 1:1:0
accepted 1.p.1 1:1:0
schedule 4
step 1
step 2
facts 6
answer 1 1 post 1:1:0 port 1.p.1 plain =near
answer 2 1 post 2:1:0 port 1.p.1 plain =far
verdict 1:1:0 accepted
open 2:1:0
port 1.p.1 1.a.1 1:1:0
accepted 1.p.1 1:1:0
end
";

/// No schedule was drawn.
const UNDRAWN_TOLD: &str = "\
drawn 0 7
events 0
claims 2
1 open 0 always verdict 1:1:0 accepted
2 open 0 always verdict 2:1:0 accepted
end
";

const NONE_DRAWN_TOLD: &str = "\
drawn 2 7
events 8
claims 0
end
";

/// Checks what the source gives, on sixteen sites, by these schedules, and gives what that comes
/// to.
fn check_on<S: Source, K: Sink>(
    rt: &impl Abort,
    alloc: Global,
    schedules: Schedules,
    source: &mut S,
    sink: &mut K,
) -> Result<Checked, Status> {
    check(alloc, sixteen(rt), schedules, source, sink)
}

/// Asserts that a check by these schedules comes to this and tells this of the scenario.
pub(crate) fn assert_checks(
    rt: &impl Abort,
    alloc: Global,
    schedules: Schedules,
    text: &str,
    checked: Checked,
    told: &str,
) {
    let mut source = source_of(rt, alloc, text.as_bytes(), &[]);
    let mut sink = sink_of(rt, alloc, 4096, &[]);
    let result = check_on(rt, alloc, schedules, &mut source, &mut sink);
    assert_same(rt, result, Ok(checked), text);
    let run = run_of(rt, alloc, Status::Done, false, &sink);
    assert_same(rt, run.written.as_str(), told, text);
}

#[test]
fn claims_of_protocols_are_checked(rt: HostRuntime) {
    let alloc = rt.alloc();
    let rows = [
        (MANY, LOCK, Checked::Holds, LOCK_TOLD),
        (MANY, PRESSURE, Checked::Fails { claim: 4 }, PRESSURE_TOLD),
        (MANY, BALANCER, Checked::Fails { claim: 2 }, BALANCER_TOLD),
        (100, PRESSURE, Checked::Open { claim: 1 }, OPEN_TOLD),
        (MANY, POSSIBLE, Checked::Fails { claim: 2 }, POSSIBLE_TOLD),
        (MANY, EARLY, Checked::Fails { claim: 1 }, EARLY_TOLD),
        (MANY, NONE, Checked::Holds, NONE_TOLD),
        (MANY, STUCK, Checked::Fails { claim: 1 }, STUCK_TOLD),
    ];
    for (most, text, checked, told) in rows {
        assert_checks(&rt, alloc, Schedules::All { most }, text, checked, told);
    }
}

#[test]
fn claims_are_asked_of_drawn_schedules(rt: HostRuntime) {
    let alloc = rt.alloc();
    let rows = [
        (2, DRAWN, Checked::Fails { claim: 1 }, DRAWN_TOLD),
        (0, EARLY, Checked::Open { claim: 1 }, UNDRAWN_TOLD),
        (2, NONE, Checked::Holds, NONE_DRAWN_TOLD),
        (2, STUCK, Checked::Fails { claim: 1 }, STUCK_DRAWN_TOLD),
    ];
    for (count, text, checked, told) in rows {
        let schedules = Schedules::Drawn { count, first: 7 };
        assert_checks(&rt, alloc, schedules, text, checked, told);
    }
}
