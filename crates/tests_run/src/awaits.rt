//! Scenarios with awaits, replayed and explored. What explorations tell of them was worked out by an explorer that was written apart.

use crate::exploring::{MANY, told};
use crate::running::{assert_prints, assert_same, sixteen};

/// Scenarios, each with its name, and what their replays print.
const REPLAYS: [(&str, &str, &str); 3] = [
    // the step finds no message, and does nothing; the await is done behind the schedule
    (
        "a_step_in_vain",
        "\
chorus 3
sites 2
port 1.p.1 1.a.1 1
script 1.a.1
await 1.p.1
send 2.p.1 =thanks
script 2.a.1
send 1.p.1 =hello
schedule
step 1
step 2
deliver 2 1
end
",
        "\
journal 10
1 1 0 make 1.p.1 1.a.1 1
2 2 2 post 2:1:0 port 1.p.1 plain =hello
3 2 2 try 2:1:0 1.p.1 1 0
4 1 0 accept 2:1:0 1.p.1 0
5 1 1 take 1.p.1 0 2:1:0
5 2 0 told 2:1:0 accepted 0
6 1 1 post 1:1:0 port 2.p.1 plain =thanks
7 1 1 try 1:1:0 2.p.1 2 0
8 2 0 no-port 1:1:0 2.p.1
9 1 0 told 1:1:0 no-port
summary
posted 2
accepted 1
taken 1
queued 0
moving 0
refused 1
stale 0
departs 0
end
",
    ),
    // four wait for what another has
    (
        "each_has_a_fork",
        "\
chorus 3
sites 1
port 1.p.1 1.a.1 1
port 1.p.2 1.a.1 1
port 1.p.3 1.a.1 1
port 1.p.4 1.a.1 1
script 1.a.1
await 1.p.1
await 1.p.2
send 1.p.1 =fork
send 1.p.2 =fork
script 1.a.1
await 1.p.2
await 1.p.3
send 1.p.2 =fork
send 1.p.3 =fork
script 1.a.1
await 1.p.3
await 1.p.4
send 1.p.3 =fork
send 1.p.4 =fork
script 1.a.1
await 1.p.4
await 1.p.1
send 1.p.4 =fork
send 1.p.1 =fork
script 1.a.1
send 1.p.1 =fork
send 1.p.2 =fork
send 1.p.3 =fork
send 1.p.4 =fork
schedule
step 5
step 1
step 5
step 2
step 5
step 3
step 5
step 4
end
",
        "\
journal 16
1 1 0 make 1.p.1 1.a.1 1
2 1 0 make 1.p.2 1.a.1 1
3 1 0 make 1.p.3 1.a.1 1
4 1 0 make 1.p.4 1.a.1 1
5 1 5 post 5:1:0 port 1.p.1 plain =fork
6 1 5 accept 5:1:0 1.p.1 0
7 1 1 take 1.p.1 0 5:1:0
8 1 5 post 5:2:0 port 1.p.2 plain =fork
9 1 5 accept 5:2:0 1.p.2 0
10 1 2 take 1.p.2 0 5:2:0
11 1 5 post 5:3:0 port 1.p.3 plain =fork
12 1 5 accept 5:3:0 1.p.3 0
13 1 3 take 1.p.3 0 5:3:0
14 1 5 post 5:4:0 port 1.p.4 plain =fork
15 1 5 accept 5:4:0 1.p.4 0
16 1 4 take 1.p.4 0 5:4:0
summary
posted 4
accepted 4
taken 4
queued 0
moving 0
refused 0
stale 0
departs 0
stuck 1 2
stuck 2 2
stuck 3 2
stuck 4 2
end
",
    ),
    // with an empty schedule the script that lays the table comes last in the first round
    (
        "the_table_is_laid_last",
        "\
chorus 3
sites 1
port 1.p.1 1.a.1 1
port 1.p.2 1.a.1 1
port 1.p.3 1.a.1 1
port 1.p.4 1.a.1 1
script 1.a.1
await 1.p.1
await 1.p.2
send 1.p.1 =fork
send 1.p.2 =fork
script 1.a.1
await 1.p.2
await 1.p.3
send 1.p.2 =fork
send 1.p.3 =fork
script 1.a.1
await 1.p.3
await 1.p.4
send 1.p.3 =fork
send 1.p.4 =fork
script 1.a.1
await 1.p.4
await 1.p.1
send 1.p.4 =fork
send 1.p.1 =fork
script 1.a.1
send 1.p.1 =fork
send 1.p.2 =fork
send 1.p.3 =fork
send 1.p.4 =fork
schedule
end
",
        "\
journal 36
1 1 0 make 1.p.1 1.a.1 1
2 1 0 make 1.p.2 1.a.1 1
3 1 0 make 1.p.3 1.a.1 1
4 1 0 make 1.p.4 1.a.1 1
5 1 5 post 5:1:0 port 1.p.1 plain =fork
6 1 5 accept 5:1:0 1.p.1 0
7 1 5 post 5:2:0 port 1.p.2 plain =fork
8 1 5 accept 5:2:0 1.p.2 0
9 1 5 post 5:3:0 port 1.p.3 plain =fork
10 1 5 accept 5:3:0 1.p.3 0
11 1 5 post 5:4:0 port 1.p.4 plain =fork
12 1 5 accept 5:4:0 1.p.4 0
13 1 1 take 1.p.1 0 5:1:0
14 1 1 take 1.p.2 0 5:2:0
15 1 1 post 1:1:0 port 1.p.1 plain =fork
16 1 1 accept 1:1:0 1.p.1 1
17 1 1 post 1:2:0 port 1.p.2 plain =fork
18 1 1 accept 1:2:0 1.p.2 1
19 1 2 take 1.p.2 1 1:2:0
20 1 2 take 1.p.3 0 5:3:0
21 1 2 post 2:1:0 port 1.p.2 plain =fork
22 1 2 accept 2:1:0 1.p.2 2
23 1 2 post 2:2:0 port 1.p.3 plain =fork
24 1 2 accept 2:2:0 1.p.3 1
25 1 3 take 1.p.3 1 2:2:0
26 1 3 take 1.p.4 0 5:4:0
27 1 3 post 3:1:0 port 1.p.3 plain =fork
28 1 3 accept 3:1:0 1.p.3 2
29 1 3 post 3:2:0 port 1.p.4 plain =fork
30 1 3 accept 3:2:0 1.p.4 1
31 1 4 take 1.p.4 1 3:2:0
32 1 4 take 1.p.1 1 1:1:0
33 1 4 post 4:1:0 port 1.p.4 plain =fork
34 1 4 accept 4:1:0 1.p.4 2
35 1 4 post 4:2:0 port 1.p.1 plain =fork
36 1 4 accept 4:2:0 1.p.1 2
summary
posted 12
accepted 12
taken 8
queued 4
moving 0
refused 0
stale 0
departs 0
end
",
    ),
];

/// A step of a script whose await may not come does nothing; then scripts go on in rounds, and each that is left has a line.
#[test]
fn scripts_wait(rt: HostRuntime) {
    for (name, text, printed) in REPLAYS {
        assert_prints(&rt, rt.alloc(), sixteen(&rt), name, text, printed);
    }
}

/// Two wait for one message, and who receives it says thanks to a port that is not there.
const ONE: &str = "\
chorus 3
sites 1
port 1.p.1 1.a.1 1
script 1.a.1
await 1.p.1
send 1.p.2 =thanks
script 1.a.1
await 1.p.1
script 1.a.1
send 1.p.1 =hello
schedule
end
";

const ONE_TOLD: &str = "\
histories 2
events 4
all
facts 9
1 1/2 answer 2 1 take 1.p.1 3:1:0
1 2/2 answer 3 1 post 3:1:0 port 1.p.1 plain =hello
1 2/2 verdict 3:1:0 accepted
1 2/2 port 1.p.1 1.a.1
1 1/2 stuck 1 1
2 1/2 answer 1 1 take 1.p.1 3:1:0
2 1/2 answer 1 2 post 1:1:0 port 1.p.2 plain =thanks
2 1/2 verdict 1:1:0 no-port
2 1/2 stuck 2 1
outcomes 2
always 3
answer 3 1 post 3:1:0 port 1.p.1 plain =hello
verdict 3:1:0 accepted
port 1.p.1 1.a.1

outcome 1
histories 1
answer 2 1 take 1.p.1 3:1:0
stuck 1 1

outcome 2
histories 1
answer 1 1 take 1.p.1 3:1:0
answer 1 2 post 1:1:0 port 1.p.2 plain =thanks
verdict 1:1:0 no-port
stuck 2 1

schedule 1
step 3
step 2

schedule 2
step 3
step 1
step 1
end
";

/// An await may come only where it receives, and who is left at the end is told as stuck.
#[test]
fn awaits_are_explored(rt: HostRuntime) {
    let text = told(&rt, rt.alloc(), MANY, ONE);
    assert_same(&rt, text.as_str(), ONE_TOLD, ONE);
}

/// A script receives its own message or the one that came first: whenever its await is next a message waits.
const NONE_WAITS: &str = "\
chorus 3
sites 2
port 1.p.1 1.a.1 2
script 1.a.1
send 1.p.1 =a
await 1.p.1
script 2.a.1
send 1.p.1 =b
schedule
end
";

/// The same with a take, which does not wait.
const NONE_MAY_WAIT: &str = "\
chorus 3
sites 2
port 1.p.1 1.a.1 2
script 1.a.1
send 1.p.1 =a
take 1.p.1
script 2.a.1
send 1.p.1 =b
schedule
end
";

/// Where no script ever waits an await is a take.
#[test]
fn awaits_that_come_at_once_are_takes(rt: HostRuntime) {
    let alloc = rt.alloc();
    let awaited = told(&rt, alloc, MANY, NONE_WAITS);
    let taken = told(&rt, alloc, MANY, NONE_MAY_WAIT);
    assert_same(&rt, awaited.as_str(), taken.as_str(), NONE_WAITS);
}
