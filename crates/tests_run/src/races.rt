//! What explorations tell: of three races, where their limit of events is met, and where there is nothing to do.

use crate::exploring::{MANY, told, told_from};
use crate::running::assert_same;

const FULL_PORT: &str =
    "chorus 2\nsites 2\nport 1.p.1 1.a.1 1\nscript 1.a.1\nsend 1.p.1 =near\nscript 2.a.1\nsend 1.p.1 =far\nschedule\nend\n";

const FULL_PORT_TOLD: &str = "\
histories 4
events 11
all
facts 8
1 2/2 answer 1 1 post 1:1:0 port 1.p.1 plain =near
1 2/2 answer 2 1 post 2:1:0 port 1.p.1 plain =far
1 1/2 verdict 1:1:0 accepted
2 1/2 verdict 1:1:0 full 1
1 1/2 verdict 2:1:0 full 1
2 1/2 verdict 2:1:0 accepted
1 1/2 port 1.p.1 1.a.1 1:1:0
2 1/2 port 1.p.1 1.a.1 2:1:0
outcomes 2
always 2
answer 1 1 post 1:1:0 port 1.p.1 plain =near
answer 2 1 post 2:1:0 port 1.p.1 plain =far

outcome 1
histories 2
verdict 1:1:0 accepted
verdict 2:1:0 full 1
port 1.p.1 1.a.1 1:1:0

outcome 2
histories 2
verdict 1:1:0 full 1
verdict 2:1:0 accepted
port 1.p.1 1.a.1 2:1:0

schedule 1
step 1
step 2
deliver 2 1
deliver 1 2

schedule 2
step 2
deliver 2 1
step 1
deliver 1 2
end
";

const MOVE: &str =
    "chorus 2\nsites 2\nport 1.p.1 1.a.1 1\nscript 2.a.1\nsend 1.p.1 =one\nscript 1.a.1\nmove 1.p.1 2.a.1\nscript 2.a.1\ntake 1.p.1\nschedule\nend\n";

const MOVE_TOLD: &str = "\
histories 40
events 52
all
facts 9
1 6/6 answer 1 1 post 1:1:0 port 1.p.1 plain =one
1 6/6 answer 2 1 depart 1.p.1 2 2.a.1
1 2/6 answer 3 1 not-here 1.p.1
2 2/6 answer 3 1 take 1.p.1 1:1:0
3 2/6 answer 3 1 empty 1.p.1
1 6/6 verdict 1:1:0 accepted
4 3/6 stale 1:1:0
1 4/6 port 1.p.1 2.a.1 1:1:0
2 2/6 port 1.p.1 2.a.1
outcomes 6
always 3
answer 1 1 post 1:1:0 port 1.p.1 plain =one
answer 2 1 depart 1.p.1 2 2.a.1
verdict 1:1:0 accepted

outcome 1
histories 12
answer 3 1 not-here 1.p.1
port 1.p.1 2.a.1 1:1:0

outcome 2
histories 3
answer 3 1 take 1.p.1 1:1:0
port 1.p.1 2.a.1

outcome 3
histories 1
answer 3 1 empty 1.p.1
port 1.p.1 2.a.1 1:1:0

outcome 4
histories 14
answer 3 1 not-here 1.p.1
stale 1:1:0
port 1.p.1 2.a.1 1:1:0

outcome 5
histories 6
answer 3 1 empty 1.p.1
stale 1:1:0
port 1.p.1 2.a.1 1:1:0

outcome 6
histories 4
answer 3 1 take 1.p.1 1:1:0
stale 1:1:0
port 1.p.1 2.a.1

schedule 1
step 2
step 3
deliver 1 2
step 1

schedule 2
step 2
deliver 1 2
step 1
step 3

schedule 3
step 2
deliver 1 2
step 3
step 1

schedule 4
step 1
step 2
step 3
deliver 1 2
deliver 2 1
deliver 1 2

schedule 5
step 1
step 2
deliver 1 2
step 3
deliver 2 1
deliver 1 2

schedule 6
step 1
step 2
deliver 1 2
deliver 2 1
deliver 1 2
step 3
end
";

const MOVES: &str =
    "chorus 1\nsites 2\nport 1.p.1 1.a.1 2\nscript 1.a.1\nsend 1.p.1 =a\nmove 1.p.1 2.a.1\nsend 1.p.1 =b\nscript 2.a.1\ntake 1.p.1\ntake 1.p.1\nschedule\nend\n";

const MOVES_TOLD: &str = "\
histories 56
events 54
all
facts 14
1 4/4 answer 1 1 post 1:1:0 port 1.p.1 plain =a
1 4/4 answer 1 2 depart 1.p.1 2 2.a.1
1 4/4 answer 1 3 post 1:2:0 port 1.p.1 plain =b
1 2/4 answer 2 1 not-here 1.p.1
3 2/4 answer 2 1 take 1.p.1 1:1:0
1 1/4 answer 2 2 not-here 1.p.1
2 1/4 answer 2 2 take 1.p.1 1:1:0
3 1/4 answer 2 2 empty 1.p.1
4 1/4 answer 2 2 take 1.p.1 1:2:0
1 4/4 verdict 1:1:0 accepted
1 4/4 verdict 1:2:0 accepted
1 1/4 port 1.p.1 2.a.1 1:1:0 1:2:0
2 2/4 port 1.p.1 2.a.1 1:2:0
4 1/4 port 1.p.1 2.a.1
outcomes 4
always 5
answer 1 1 post 1:1:0 port 1.p.1 plain =a
answer 1 2 depart 1.p.1 2 2.a.1
answer 1 3 post 1:2:0 port 1.p.1 plain =b
verdict 1:1:0 accepted
verdict 1:2:0 accepted

outcome 1
histories 16
answer 2 1 not-here 1.p.1
answer 2 2 not-here 1.p.1
port 1.p.1 2.a.1 1:1:0 1:2:0

outcome 2
histories 24
answer 2 1 not-here 1.p.1
answer 2 2 take 1.p.1 1:1:0
port 1.p.1 2.a.1 1:2:0

outcome 3
histories 4
answer 2 1 take 1.p.1 1:1:0
answer 2 2 empty 1.p.1
port 1.p.1 2.a.1 1:2:0

outcome 4
histories 12
answer 2 1 take 1.p.1 1:1:0
answer 2 2 take 1.p.1 1:2:0
port 1.p.1 2.a.1

schedule 1
step 1
step 1
step 1
step 2
step 2
deliver 1 2
deliver 1 2
deliver 2 1

schedule 2
step 1
step 1
step 1
step 2
deliver 1 2
step 2
deliver 1 2
deliver 2 1

schedule 3
step 1
step 1
step 1
deliver 1 2
step 2
step 2
deliver 1 2
deliver 2 1

schedule 4
step 1
step 1
step 1
deliver 1 2
step 2
deliver 1 2
step 2
deliver 2 1
end
";

const MOVES_WITH_FIFTY_EVENTS: &str = "\
histories 33
events 50
some 8
facts 10
1 2/2 answer 1 1 post 1:1:0 port 1.p.1 plain =a
1 2/2 answer 1 2 depart 1.p.1 2 2.a.1
1 2/2 answer 1 3 post 1:2:0 port 1.p.1 plain =b
1 2/2 answer 2 1 not-here 1.p.1
1 1/2 answer 2 2 not-here 1.p.1
2 1/2 answer 2 2 take 1.p.1 1:1:0
1 2/2 verdict 1:1:0 accepted
1 2/2 verdict 1:2:0 accepted
1 1/2 port 1.p.1 2.a.1 1:1:0 1:2:0
2 1/2 port 1.p.1 2.a.1 1:2:0
outcomes 2
always 6
answer 1 1 post 1:1:0 port 1.p.1 plain =a
answer 1 2 depart 1.p.1 2 2.a.1
answer 1 3 post 1:2:0 port 1.p.1 plain =b
answer 2 1 not-here 1.p.1
verdict 1:1:0 accepted
verdict 1:2:0 accepted

outcome 1
histories 16
answer 2 2 not-here 1.p.1
port 1.p.1 2.a.1 1:1:0 1:2:0

outcome 2
histories 17
answer 2 2 take 1.p.1 1:1:0
port 1.p.1 2.a.1 1:2:0

schedule 1
step 1
step 1
step 1
step 2
step 2
deliver 1 2
deliver 1 2
deliver 2 1

schedule 2
step 1
step 1
step 1
step 2
deliver 1 2
step 2
deliver 1 2
deliver 2 1
end
";

const MOVES_WITH_TEN_EVENTS: &str = "\
histories 45
events 10
some 3
facts 14
1 4/4 answer 1 1 post 1:1:0 port 1.p.1 plain =a
1 4/4 answer 1 2 depart 1.p.1 2 2.a.1
1 4/4 answer 1 3 post 1:2:0 port 1.p.1 plain =b
1 2/4 answer 2 1 not-here 1.p.1
3 2/4 answer 2 1 take 1.p.1 1:1:0
1 1/4 answer 2 2 not-here 1.p.1
2 1/4 answer 2 2 take 1.p.1 1:1:0
3 1/4 answer 2 2 take 1.p.1 1:2:0
4 1/4 answer 2 2 empty 1.p.1
1 4/4 verdict 1:1:0 accepted
1 4/4 verdict 1:2:0 accepted
1 1/4 port 1.p.1 2.a.1 1:1:0 1:2:0
2 2/4 port 1.p.1 2.a.1 1:2:0
3 1/4 port 1.p.1 2.a.1
outcomes 4
always 5
answer 1 1 post 1:1:0 port 1.p.1 plain =a
answer 1 2 depart 1.p.1 2 2.a.1
answer 1 3 post 1:2:0 port 1.p.1 plain =b
verdict 1:1:0 accepted
verdict 1:2:0 accepted

outcome 1
histories 16
answer 2 1 not-here 1.p.1
answer 2 2 not-here 1.p.1
port 1.p.1 2.a.1 1:1:0 1:2:0

outcome 2
histories 16
answer 2 1 not-here 1.p.1
answer 2 2 take 1.p.1 1:1:0
port 1.p.1 2.a.1 1:2:0

outcome 3
histories 10
answer 2 1 take 1.p.1 1:1:0
answer 2 2 take 1.p.1 1:2:0
port 1.p.1 2.a.1

outcome 4
histories 3
answer 2 1 take 1.p.1 1:1:0
answer 2 2 empty 1.p.1
port 1.p.1 2.a.1 1:2:0

schedule 1
step 1
step 2
step 1
step 1
step 2
deliver 1 2
deliver 1 2
deliver 2 1

schedule 2
step 1
step 2
step 1
step 1
deliver 1 2
deliver 1 2
step 2
deliver 2 1

schedule 3
step 1
step 1
deliver 1 2
step 1
deliver 1 2
step 2
deliver 2 1
step 2

schedule 4
step 1
step 1
deliver 1 2
step 2
step 2
step 1
deliver 1 2
deliver 2 1
end
";

const NOTHING: &str = "chorus 1\nsites 1\nschedule\nend\n";

const NOTHING_MAY_COME: &str =
    "histories 1\nevents 0\nall\nfacts 0\noutcomes 1\nalways 0\n\noutcome 1\nhistories 1\n\nschedule 1\nend\n";

/// Scenarios, each with how many events are carried out at most, and what is told.
const RACES: [(&str, u32, &str); 6] = [
    // two sends to a port with room for one
    (FULL_PORT, MANY, FULL_PORT_TOLD),
    // a send and a take while the port moves
    (MOVE, MANY, MOVE_TOLD),
    // two sends with a move between them, while another script takes twice
    (MOVES, MANY, MOVES_TOLD),
    // the same, where the limit of events is met behind all that is drawn, and before
    (MOVES, 50, MOVES_WITH_FIFTY_EVENTS),
    (MOVES, 10, MOVES_WITH_TEN_EVENTS),
    // no scripts: one schedule, in which nothing is done
    (NOTHING, 10, NOTHING_MAY_COME),
];

/// What explorations tell, whole.
#[test]
fn races_are_told_whole(rt: HostRuntime) {
    let alloc = rt.alloc();
    for (scenario, most, wanted) in RACES {
        let text = told(&rt, alloc, most, scenario);
        assert_same(&rt, text.as_str(), wanted, scenario);
    }
}

/// An exploration says `all` with a limit of events that just suffices, and `some` with one less.
#[test]
fn a_limit_that_suffices_is_not_met(rt: HostRuntime) {
    let alloc = rt.alloc();
    for (most, limit) in [(54, "\nall\n"), (53, "\nsome 8\n")] {
        let text = told(&rt, alloc, most, MOVES);
        assert_same(&rt, text.as_str().contains(limit), true, limit);
    }
}

/// Where no limit is met nothing is drawn, and the text is the same from each first state; where one is, the text is that of the draws.
#[test]
fn schedules_are_drawn_at_a_limit_alone(rt: HostRuntime) {
    let alloc = rt.alloc();
    let all = told_from(&rt, alloc, MANY, 7, MOVES);
    assert_same(&rt, all.as_str(), MOVES_TOLD, MOVES);
    for (most, first, limit) in [
        (10, 7, "histories 50\nevents 10\nsome 3\n"),
        (0, 1, "histories 45\nevents 0\nsome 1\n"),
    ] {
        let text = told_from(&rt, alloc, most, first, MOVES);
        assert_same(&rt, text.as_str().starts_with(limit), true, limit);
    }
}
