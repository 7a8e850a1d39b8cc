//! What checks tell of claims that are asked at each moment, and of the facts of moments: a port under way and a message that is open,
//! a group and its copies, a call and a request in hand. The texts are those of a simulator that was written apart from this code,
//! from the rules of a check.

use crate::checks::assert_checks;
use crate::exploring::MANY;
use chorus_check::{Checked, Schedules};

/// A port that moves, and a sender to it.
const MOVED: &str = "\
chorus 3
sites 2
port 1.p.1 1.a.1 2
script 1.a.1
move 1.p.1 2.a.1
script 2.a.2
send 1.p.1 =letter
claim throughout always port 1.p.1 .. | moving 1.p.1 2.a.1
claim throughout always port 1.p.1 ..
claim throughout never open *
claim never open *
claim answer 1 1 depart .. before moving P A
claim verdict 2:1:0 accepted before accepted 1.p.1 .. 2:1:0 ..
claim next 2 1 before next 1 1
schedule
end
";

const MOVED_TOLD: &str = "\
events 17
claims 7
1 holds throughout always port 1.p.1 .. | moving 1.p.1 2.a.1
2 fails 1 throughout always port 1.p.1 ..
3 fails 1 throughout never open *
4 holds never open *
5 holds answer 1 1 depart .. before moving P A
6 holds verdict 2:1:0 accepted before accepted 1.p.1 .. 2:1:0 ..
7 fails 1 next 2 1 before next 1 1
schedule 2
step 1
facts 4
answer 1 1 depart 1.p.1 2 2.a.1
accepted 1.p.1
moving 1.p.1 2.a.1
next 2 1
schedule 3
step 2
facts 5
answer 2 1 post 2:1:0 port 1.p.1 plain =letter
open 2:1:0
port 1.p.1 1.a.1
accepted 1.p.1
next 1 1
schedule 7
step 2
facts 5
answer 2 1 post 2:1:0 port 1.p.1 plain =letter
open 2:1:0
port 1.p.1 1.a.1
accepted 1.p.1
next 1 1
end
";

/// A port that joins a group, and a post to all its members.
const GROUPED: &str = "\
chorus 3
sites 2
port 1.p.1 1.a.1 1
port 2.p.1 2.a.1 1
group 1.g.1
member 1.g.1 1.p.1
script 1.a.2
join 1.g.1 2.p.1
script 2.a.2
all 1.g.1 =news
claim copy X 2.p.1 => copy Y 1.p.1
claim copy X 2.p.1 before members 1.g.1 .. 2.p.1 ..
claim members 1.g.1 1.p.1 2.p.1 before copy X 2.p.1
claim throughout accepted 2.p.1 .. X .. => copy X 2.p.1
claim possible accepted 2.p.1 2:1:2
schedule
end
";

const GROUPED_TOLD: &str = "\
events 18
claims 5
1 holds copy X 2.p.1 => copy Y 1.p.1
2 fails 1 copy X 2.p.1 before members 1.g.1 .. 2.p.1 ..
3 holds members 1.g.1 1.p.1 2.p.1 before copy X 2.p.1
4 holds throughout accepted 2.p.1 .. X .. => copy X 2.p.1
5 holds 8 possible accepted 2.p.1 2:1:2
schedule 2
step 1
facts 7
answer 1 1 join 1.g.1 2.p.1
port 1.p.1 1.a.1
port 2.p.1 2.a.1
accepted 1.p.1
accepted 2.p.1
members 1.g.1 1.p.1 2.p.1
next 2 1
schedule 5
step 1
step 2
deliver 2 1
deliver 1 2
deliver 1 2
deliver 1 2
deliver 2 1
deliver 1 2
facts 12
answer 1 1 join 1.g.1 2.p.1
answer 2 1 post 2:1:0 all 1.g.1 plain =news
verdict 2:1:0 chosen
copy 2:1:1 1.p.1
verdict 2:1:1 accepted
copy 2:1:2 2.p.1
verdict 2:1:2 accepted
port 1.p.1 1.a.1 2:1:1
port 2.p.1 2.a.1 2:1:2
accepted 1.p.1 2:1:1
accepted 2.p.1 2:1:2
members 1.g.1 1.p.1 2.p.1
end
";

/// A call, a request in hand, and its reply.
const HELD: &str = "\
chorus 3
sites 1
port 1.p.1 1.a.1 1
port 1.p.2 1.a.2 1
script 1.a.2
call 1.p.1 1.p.2 =work
take 1.p.2
script 1.a.1
take 1.p.1
reply =done
claim outstanding 1 1 before hand 2 1 1
claim calls settled
claim nothing late
claim throughout never hand 2 1 1 & next 2 2
claim answer 1 2 take 1.p.2 X .. => answer 1 2 take 1.p.2 X done 1
claim requests replied
schedule
end
";

const HELD_TOLD: &str = "\
events 16
claims 6
1 holds outstanding 1 1 before hand 2 1 1
2 fails 4 calls settled
3 holds nothing late
4 fails 2 throughout never hand 2 1 1 & next 2 2
5 holds answer 1 2 take 1.p.2 X .. => answer 1 2 take 1.p.2 X done 1
6 holds requests replied
schedule 2
step 1
step 1
step 2
step 2
facts 11
answer 1 1 post 1:1:0 port 1.p.1 request 1 1.p.2 =work
answer 1 2 empty 1.p.2
answer 2 1 take 1.p.1 1:1:0
answer 2 2 post 2:1:0 port 1.p.2 reply 1 1 =done
verdict 1:1:0 accepted
verdict 2:1:0 accepted
port 1.p.1 1.a.1
port 1.p.2 1.a.2 2:1:0
accepted 1.p.1 1:1:0
accepted 1.p.2 2:1:0
outstanding 1 1
schedule 4
step 1
step 2
facts 11
answer 1 1 post 1:1:0 port 1.p.1 request 1 1.p.2 =work
answer 2 1 take 1.p.1 1:1:0
verdict 1:1:0 accepted
port 1.p.1 1.a.1
port 1.p.2 1.a.2
accepted 1.p.1 1:1:0
accepted 1.p.2
outstanding 1 1
hand 2 1 1
next 1 2
next 2 2
end
";

#[test]
fn claims_are_asked_at_moments(rt: HostRuntime) {
    let alloc = rt.alloc();
    let rows = [
        (MOVED, Checked::Fails { claim: 2 }, MOVED_TOLD),
        (GROUPED, Checked::Fails { claim: 2 }, GROUPED_TOLD),
        (HELD, Checked::Fails { claim: 2 }, HELD_TOLD),
    ];
    let schedules = Schedules::All { most: MANY };
    for (text, checked, told) in rows {
        assert_checks(&rt, alloc, schedules, text, checked, told);
    }
}
