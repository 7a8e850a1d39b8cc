//! How the program ends by what the words `check` and `drawn` find of a scenario's claims; `tests_run` has what is written of them.

use crate::ground::{assert_same, run_on, sink_of, text_in};
use chorus_program::ended;
use chorus_show::Status;

/// One message is sent, and nothing is claimed that is not so.
const HOLDS: &str = "\
chorus 3
sites 1
port 1.p.1 1.a.1 1
script 1.a.1
send 1.p.1 =a
claim nothing refused
claim never verdict 1:1:0 full *
schedule
end
";

/// The same, but for the second claim.
const FAILS: &str = "\
chorus 3
sites 1
port 1.p.1 1.a.1 1
script 1.a.1
send 1.p.1 =a
claim nothing refused
claim never verdict 1:1:0 accepted
schedule
end
";

/// The exit status, and the line on standard error, of checks whose claims hold, of which one fails, and that end before anything is known.
#[test]
fn checks_and_their_exit_status(rt: HostRuntime) {
    let alloc = rt.alloc();
    let each: [(&[&str], &str, u8, &str); 6] = [
        (&["check"], HOLDS, 0, ""),
        (&["check"], FAILS, 7, "chorus: claim 2 fails\n"),
        (&["check", "0"], HOLDS, 8, "chorus: claim 1 open\n"),
        (&["drawn", "9", "7"], HOLDS, 8, "chorus: claim 1 open\n"),
        (&["drawn", "9", "7"], FAILS, 7, "chorus: claim 2 fails\n"),
        (&["explore"], FAILS, 0, ""),
    ];
    for (words, scenario, number, line) in each {
        let run = run_on(&rt, alloc, words, scenario);
        assert_same(&rt, run.status, Status::Done, words);
        let mut errors = sink_of(&rt, alloc, 64, &[]);
        let told = ended(run.status, run.verdict, &mut errors);
        assert_same(&rt, told, number, words);
        let said = text_in(&rt, alloc, &errors);
        assert_same(&rt, said.as_str(), line, words);
    }
}
