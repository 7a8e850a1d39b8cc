//! What the program prints for worked scenarios: replayed, and one of one script also run on threads; and of scripts that wait by each word.

use crate::ground::assert_prints;
use tests_rows::FULL_THEN_TAKEN_THEN_EMPTY;

/// A port of site 16 is sent to from site 1, and moves to site 1.
const ON_SIXTEEN_SITES: &str = "\
chorus 2
sites 16
port 16.p.1 16.a.1 2
script 1.a.1
send 16.p.1 =a
script 16.a.1
move 16.p.1 1.a.1
script 1.a.1
take 16.p.1
schedule
step 1
drain
step 2
drain
end
";

/// What is printed for it.
const ON_SIXTEEN_SITES_PRINTED: &str = "\
journal 8
1 16 0 make 16.p.1 16.a.1 2
2 1 1 post 1:1:0 port 16.p.1 plain =a
3 1 1 try 1:1:0 16.p.1 16 0
4 16 0 accept 1:1:0 16.p.1 0
5 1 0 told 1:1:0 accepted 0
5 16 2 depart 16.p.1 1 1.a.1 1
6 1 0 arrive 16.p.1 1
7 1 3 take 16.p.1 0 1:1:0
summary
posted 1
accepted 1
taken 1
queued 0
moving 0
refused 0
stale 0
departs 1
end
";

/// The program prints a scenario on sixteen sites as it is replayed, and a worked one of one script the same by `run` as by `replay`.
#[test]
fn worked_scenarios_are_printed(rt: HostRuntime) {
    let row = FULL_THEN_TAKEN_THEN_EMPTY;
    let each: [(&[&str], &str, &str); 6] = [
        (&["replay"], ON_SIXTEEN_SITES, ON_SIXTEEN_SITES_PRINTED),
        (&["replay"], row.text, row.printed),
        (&["run"], row.text, row.printed),
        (&["run", "1"], row.text, row.printed),
        (&["run", "2"], row.text, row.printed),
        (&["run", "4"], row.text, row.printed),
    ];
    for (words, scenario, printed) in each {
        assert_prints(&rt, rt.alloc(), words, scenario, printed);
    }
}

/// A script waits for a message that does not come.
const WAITS: &str = "\
chorus 3
sites 1
script 1.a.1
await 1.p.1
schedule
end
";

/// What is printed for its replay.
const WAITS_PRINTED: &str = "\
journal 0
summary
posted 0
accepted 0
taken 0
queued 0
moving 0
refused 0
stale 0
departs 0
stuck 1 1
end
";

/// A scenario that waits is replayed.
#[test]
fn awaits_are_replayed(rt: HostRuntime) {
    assert_prints(&rt, rt.alloc(), &["replay"], WAITS, WAITS_PRINTED);
}

/// Script 1 asks and waits for the answer; script 2 waits for the question, answers, and waits for one more. Each waits for what the other
/// does, so whatever threads do, one journal comes of it.
const ANSWERED: &str = "\
chorus 3
sites 1
port 1.p.1 1.a.1 1
port 1.p.2 1.a.1 1
script 1.a.1
send 1.p.1 =why
await 1.p.2
script 1.a.1
await 1.p.1
send 1.p.2 =so
await 1.p.1
schedule
end
";

/// What is printed for it.
const ANSWERED_PRINTED: &str = "\
journal 8
1 1 0 make 1.p.1 1.a.1 1
2 1 0 make 1.p.2 1.a.1 1
3 1 1 post 1:1:0 port 1.p.1 plain =why
4 1 1 accept 1:1:0 1.p.1 0
5 1 2 take 1.p.1 0 1:1:0
6 1 2 post 2:1:0 port 1.p.2 plain =so
7 1 2 accept 2:1:0 1.p.2 0
8 1 1 take 1.p.2 0 2:1:0
summary
posted 2
accepted 2
taken 2
queued 0
moving 0
refused 0
stale 0
departs 0
stuck 2 3
end
";

/// Scenarios that wait are run on threads: who is left is told as by a replay.
#[test]
fn awaits_are_run(rt: HostRuntime) {
    let each: [(&[&str], &str, &str); 6] = [
        (&["replay"], ANSWERED, ANSWERED_PRINTED),
        (&["run"], ANSWERED, ANSWERED_PRINTED),
        (&["run", "1"], ANSWERED, ANSWERED_PRINTED),
        (&["run"], WAITS, WAITS_PRINTED),
        (&["run", "2"], WAITS, WAITS_PRINTED),
        (&["run", "4"], WAITS, WAITS_PRINTED),
    ];
    for (words, scenario, printed) in each {
        assert_prints(&rt, rt.alloc(), words, scenario, printed);
    }
}

/// What is told of all that may come of it: nothing may.
const WAITS_EXPLORED: &str = "\
histories 1
events 0
all
facts 1
1 1/1 stuck 1 1
outcomes 1
always 1
stuck 1 1

outcome 1
histories 1

schedule 1
end
";

/// It is explored, and checked, also by drawn schedules.
#[test]
fn awaits_are_explored(rt: HostRuntime) {
    let each: [(&[&str], &str); 4] = [
        (&["explore"], WAITS_EXPLORED),
        (&["explore", "10"], WAITS_EXPLORED),
        (&["check"], "events 0\nclaims 0\nend\n"),
        (&["drawn", "9", "7"], "drawn 9 7\nevents 0\nclaims 0\nend\n"),
    ];
    for (words, printed) in each {
        assert_prints(&rt, rt.alloc(), words, WAITS, printed);
    }
}
