//! What the program's word `explore` prints of a race; what explorations tell is in `tests_run`.

use crate::ground::assert_prints;

const MOVES: &str =
    "chorus 1\nsites 2\nport 1.p.1 1.a.1 2\nscript 1.a.1\nsend 1.p.1 =a\nmove 1.p.1 2.a.1\nsend 1.p.1 =b\nscript 2.a.1\ntake 1.p.1\ntake 1.p.1\nschedule\nend\n";

const MOVES_WITH_TEN_EVENTS: &str = "\
histories 45
events 10
some 3
facts 14
1 4/4 answer 1 1 post 1:1:0 port 1.p.1 plain =a
1 4/4 answer 1 2 depart 1.p.1 2 2.a.1
1 4/4 answer 1 3 post 1:2:0 port 1.p.1 plain =b
1 2/4 answer 2 1 not-here 1.p.1
3 2/4 answer 2 1 take 1.p.1 1:1:0
1 1/4 answer 2 2 not-here 1.p.1
2 1/4 answer 2 2 take 1.p.1 1:1:0
3 1/4 answer 2 2 take 1.p.1 1:2:0
4 1/4 answer 2 2 empty 1.p.1
1 4/4 verdict 1:1:0 accepted
1 4/4 verdict 1:2:0 accepted
1 1/4 port 1.p.1 2.a.1 1:1:0 1:2:0
2 2/4 port 1.p.1 2.a.1 1:2:0
3 1/4 port 1.p.1 2.a.1
outcomes 4
always 5
answer 1 1 post 1:1:0 port 1.p.1 plain =a
answer 1 2 depart 1.p.1 2 2.a.1
answer 1 3 post 1:2:0 port 1.p.1 plain =b
verdict 1:1:0 accepted
verdict 1:2:0 accepted

outcome 1
histories 16
answer 2 1 not-here 1.p.1
answer 2 2 not-here 1.p.1
port 1.p.1 2.a.1 1:1:0 1:2:0

outcome 2
histories 16
answer 2 1 not-here 1.p.1
answer 2 2 take 1.p.1 1:1:0
port 1.p.1 2.a.1 1:2:0

outcome 3
histories 10
answer 2 1 take 1.p.1 1:1:0
answer 2 2 take 1.p.1 1:2:0
port 1.p.1 2.a.1

outcome 4
histories 3
answer 2 1 take 1.p.1 1:1:0
answer 2 2 empty 1.p.1
port 1.p.1 2.a.1 1:2:0

schedule 1
step 1
step 2
step 1
step 1
step 2
deliver 1 2
deliver 1 2
deliver 2 1

schedule 2
step 1
step 2
step 1
step 1
deliver 1 2
deliver 1 2
step 2
deliver 2 1

schedule 3
step 1
step 1
deliver 1 2
step 1
deliver 1 2
step 2
deliver 2 1
step 2

schedule 4
step 1
step 1
deliver 1 2
step 2
step 2
step 1
deliver 1 2
deliver 2 1
end
";

const MOVES_FROM_SEVEN: &str = "\
histories 50
events 10
some 3
facts 14
1 4/4 answer 1 1 post 1:1:0 port 1.p.1 plain =a
1 4/4 answer 1 2 depart 1.p.1 2 2.a.1
1 4/4 answer 1 3 post 1:2:0 port 1.p.1 plain =b
1 2/4 answer 2 1 not-here 1.p.1
3 2/4 answer 2 1 take 1.p.1 1:1:0
1 1/4 answer 2 2 not-here 1.p.1
2 1/4 answer 2 2 take 1.p.1 1:1:0
3 1/4 answer 2 2 take 1.p.1 1:2:0
4 1/4 answer 2 2 empty 1.p.1
1 4/4 verdict 1:1:0 accepted
1 4/4 verdict 1:2:0 accepted
1 1/4 port 1.p.1 2.a.1 1:1:0 1:2:0
2 2/4 port 1.p.1 2.a.1 1:2:0
3 1/4 port 1.p.1 2.a.1
outcomes 4
always 5
answer 1 1 post 1:1:0 port 1.p.1 plain =a
answer 1 2 depart 1.p.1 2 2.a.1
answer 1 3 post 1:2:0 port 1.p.1 plain =b
verdict 1:1:0 accepted
verdict 1:2:0 accepted

outcome 1
histories 16
answer 2 1 not-here 1.p.1
answer 2 2 not-here 1.p.1
port 1.p.1 2.a.1 1:1:0 1:2:0

outcome 2
histories 21
answer 2 1 not-here 1.p.1
answer 2 2 take 1.p.1 1:1:0
port 1.p.1 2.a.1 1:2:0

outcome 3
histories 10
answer 2 1 take 1.p.1 1:1:0
answer 2 2 take 1.p.1 1:2:0
port 1.p.1 2.a.1

outcome 4
histories 3
answer 2 1 take 1.p.1 1:1:0
answer 2 2 empty 1.p.1
port 1.p.1 2.a.1 1:2:0

schedule 1
step 1
step 2
step 2
step 1
deliver 1 2
step 1
deliver 1 2
deliver 2 1

schedule 2
step 2
step 1
step 1
deliver 1 2
step 2
step 1
deliver 1 2
deliver 2 1

schedule 3
step 1
step 1
deliver 1 2
step 1
deliver 1 2
step 2
step 2
deliver 2 1

schedule 4
step 1
step 1
deliver 1 2
step 2
step 1
step 2
deliver 1 2
deliver 2 1
end
";

/// The program's word `explore` prints what is told of a race where it meets its limit of events, by schedules that are drawn from 1, or
/// from what its words say.
#[test]
fn explore_prints_what_is_told_within_its_limit(rt: HostRuntime) {
    let rows: [(&[&str], &str); 2] = [
        (&["explore", "10"], MOVES_WITH_TEN_EVENTS),
        (&["explore", "10", "7"], MOVES_FROM_SEVEN),
    ];
    for (words, wanted) in rows {
        assert_prints(&rt, rt.alloc(), words, MOVES, wanted);
    }
}
