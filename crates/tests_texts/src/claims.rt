//! Claims of scenarios that are read and printed back, or refused, each worked out by hand from the grammar, as rows (see
//! [`crate::rows`]).

use crate::rows::{assert_rows, layout_of};
use crate::scenarios::{assert_printed_back, assert_prints};
use std::alloc::Global;
use std::process::Abort;

/// The front of a text of two sites, of which script 1 has two commands and script 2 has one; a claim stands on line 9.
const TWO_SCRIPTS: &str =
    "chorus 3\nsites 2\nport 1.p.1 1.a.1 4\nscript 2.a.1\nsend 1.p.1 =a\nsend 1.p.1 =b\nscript 1.a.1\ntake 1.p.1\n";

/// Claims that are taken: each form, each fact, and each word that may stand for others.
const TAKEN: &str = "\
claim nothing refused;claim nothing lost;claim nothing left;claim requests replied;schedule;end|read
claim never verdict 1:1:0 full ..;schedule;end|read
claim always verdict 1:1:0 accepted ! verdict 1:1:0 full *;schedule;end|read
claim answer 2 1 take 1.p.1 X => verdict X accepted;schedule;end|read
claim possible stale 1:2:0;schedule;end|read
claim never port 1.p.1 * & port .. 1:1:0 & stale A & answer * 2 *;schedule;end|read
claim never verdict * A ..;# a note;;claim never stale *;schedule;end|read
claim never port 2.p.40 2.a.8 1:1:0 2:1:4 ..;schedule;end|read
claim port P A .. => port P A;claim nothing left;schedule;end|read
";

/// Claims that are asked at each moment, and what is told of moments.
const AT_MOMENTS: &str = "\
claim nothing late;claim calls settled;schedule;end|read
claim throughout never open *;claim throughout always port 1.p.1 .. ! moving 1.p.1 *;schedule;end|read
claim throughout nothing lost;claim throughout stale A => stale A;schedule;end|read
claim answer 1 1 .. before answer 2 1 ..;claim nothing lost;claim throughout nothing lost;schedule;end|read
claim never accepted 1.p.1 .. 1:2:0 .. 1:1:0 .. & copy * P & members 1.g.1 .. P ..;schedule;end|read
claim never outstanding 1 1 & hand 2 1 1 & next 1 2 & moving 1.p.1 2.a.1;schedule;end|read
claim answer 2 1 take * X .. => answer 2 1 take * X done 1 ! answer 2 1 take * X late *;schedule;end|read
claim never members 1.g.1 & accepted 1.p.1;claim never hand 1 1 3;claim never outstanding 1 0;schedule;end|read
claim never answer 1 1 post 1:1:0 port 1.p.1 plain =before;schedule;end|read
claim throughout|9 2
claim throughout possible stale *|9 2
claim throughout stale A before stale B|9 2
claim throughout throughout never stale *|9 2
claim throughout  nothing lost|9 2
claim throughout nothing forgotten|9 2
claim throughout nothing lost;claim throughout nothing lost|10 5
claim throughout never stale 3:1:0|9 4
claim stale A before|9 2
claim before stale A|9 2
claim stale A & stale B before stale C|9 2
claim stale A before stale B ! stale C|9 2
claim stale A before stale B => stale C|9 2
claim never stale A before stale B|9 2
claim stale A before stale B before stale C|9 2
claim never stale A & stale before|9 2
claim stale 3:1:0 before stale 1:1|9 3
claim possible calls settled|9 2
";

/// Facts of moments with too few words or too many, with words of another kind, and with what there is not.
const FAULTY_FACTS: &str = "\
claim never open|9 2
claim never open A B|9 2
claim never copy A|9 2
claim never copy A B C|9 2
claim never accepted|9 2
claim never members|9 2
claim never moving A|9 2
claim never outstanding 1|9 2
claim never hand 1 1|9 2
claim never next 1|9 2
claim never next 1 1 1|9 2
claim never settled A|9 2
claim never members 1.p.1 ..|9 3
claim never accepted 1.g.1 ..|9 3
claim never accepted 1.p.1 1.p.1|9 3
claim never moving 1.p.1 1.p.2|9 3
claim never copy 1:1:1 1.a.1|9 3
claim never outstanding 1 x|9 3
claim never hand 1 x 1|9 3
claim never next x 1|9 3
claim never outstanding 1 18446744073709551616|9 6
claim never next 3 1|9 4
claim never next 1 3|9 4
claim never next 1 0|9 4
claim never hand 3 1 1|9 4
claim never hand 1 3 1|9 4
claim never outstanding 3 1|9 4
claim never open 3:1:0|9 4
claim never copy 1:1:1 3.p.1|9 4
claim never members 3.g.1|9 4
claim never members 1.g.1 3.p.1|9 4
claim never accepted 1.p.1 3:1:0|9 4
claim never moving 1.p.1 3.a.1|9 4
";

/// A claim stands behind the scripts and in front of the schedule.
const OUT_OF_PLACE: &str = "\
claim nothing lost;script 1.a.2|10 7
claim nothing lost;take 1.p.1|10 7
claim nothing lost;port 1.p.2 1.a.1 4|10 7
claim nothing lost;step 1|10 7
claim nothing lost;end|10 7
claim nothing lost;sites 2|10 7
schedule;claim nothing lost|10 7
schedule;step 1;claim nothing lost|11 7
schedule;end;claim nothing lost|11 7
claim nothing lost|10 9
claim never stale $|9 8
";

/// What is no claim: spaces, marks, words, and facts with too few words or too many.
const NO_CLAIMS: &str = "\
claim|9 2
claim |9 2
claim  nothing lost|9 2
claim nothing lost |9 2
claim never  stale *|9 2
claim nothing forgotten|9 2
claim never|9 2
claim stale *|9 2
claim stale * => & stale *|9 2
claim stale * => |9 2
claim stale * ! stale A => stale *|9 2
claim stale * => stale A & stale *|9 2
claim always stale * & stale A|9 2
claim never stale * ! stale A|9 2
claim stale A => stale A => stale A|9 2
claim never verdct 1:1:0 full *|9 2
claim never verdict 1:1:0 lost|9 2
claim never answer 1 1 accept ..|9 2
claim never stale|9 2
claim never stale 1:1:0 2|9 2
claim never port 1.p.1|9 2
claim never answer 1 1|9 2
claims nothing lost|9 2
";

/// Decimals, messages and names that are not spelled as said, what is beyond its limit, and what there is not.
const FAULTY_WORDS: &str = "\
claim never answer one 1 take ..|9 3
claim never answer 01 1 take ..|9 3
claim never answer 1 a take ..|9 3
claim never stale 1:1|9 3
claim never stale 1:1:00|9 3
claim never port 1.a.1 ..|9 3
claim never port * 1.p.1 ..|9 3
claim never port * * 1.p.1|9 3
claim never stale A & stale B & stale C & stale D & stale E|9 6
claim stale A => stale B ! stale C ! stale D ! stale E ! stale F|9 6
claim never answer 18446744073709551616 1 take ..|9 6
claim never stale 1:1:18446744073709551616|9 6
claim never answer 3 1 take ..|9 4
claim never answer 0 1 take ..|9 4
claim never answer 2 2 take ..|9 4
claim never answer * 3 take ..|9 4
claim never answer 1 0 take ..|9 4
claim never stale 3:1:0|9 4
claim never stale 0:1:0|9 4
claim never stale 1:3:0|9 4
claim never stale 1:0:0|9 4
claim never port 3.p.1 ..|9 4
claim never port 1.p.1 1.a.9 ..|9 4
claim never port 1.p.1 3.a.1 ..|9 4
claim nothing lost;claim nothing lost|10 5
claim nothing lost;claim nothing left;claim nothing lost|11 5
claim nothing left;claim nothing  left|10 2
";

/// Each claim is refused by the first of its tests.
const IN_THEIR_ORDER: &str = "\
claim never stale 1:1 & verdct 1:1:0 full|9 2
claim never stale 3:1:0 & stale 1:1|9 3
claim never stale 1:1 & stale A & stale B & stale C & stale D|9 3
claim never stale 3:1:0 & stale A & stale B & stale C & stale D|9 6
";

/// Versions 1 and 2 have no claims, and version 3 has all that version 2 has. Claims may stand where there is no script.
const VERSIONS: &str = "\
chorus 1;sites 1;script 1.a.1;claim nothing lost|4 2
chorus 2;sites 1;script 1.a.1;claim nothing lost|4 2
chorus 2;sites 1;schedule;claim nothing lost|4 2
chorus 2;claim nothing lost|2 2
chorus 3;claim nothing lost|2 7
chorus 3;sites 1;claim nothing lost;schedule;end|read
chorus 3;sites 1;claim never stale 1:1:0|3 4
chorus 3;sites 1;claim nothing lost;script 1.a.1|4 7
chorus 3;sites 1;schedule;end|read
chorus 3;sites 16;schedule;end|read
chorus 3;sites 17|2 6
chorus 3;sites 1;script 1.a.1;delete 1.p.1;reply x00;schedule;end|read
chorus 3;sites 1;script 1.a.1;reply x0|4 3
chorus 3 |1 1
chorus 03|1 1
chorus 4|1 1
";

/// A claim of a scenario text is read, or refused with its line and the reason of the first test that it fails.
#[test]
fn claims_are_read_or_refused(rt: HostRuntime) {
    let alloc = rt.alloc();
    let sixteen = layout_of(&rt, 16, 1);
    assert_rows(&rt, alloc, "taken", sixteen, TWO_SCRIPTS, TAKEN);
    assert_rows(&rt, alloc, "moments", sixteen, TWO_SCRIPTS, AT_MOMENTS);
    assert_rows(&rt, alloc, "facts", sixteen, TWO_SCRIPTS, FAULTY_FACTS);
    assert_rows(&rt, alloc, "order", sixteen, TWO_SCRIPTS, OUT_OF_PLACE);
    assert_rows(&rt, alloc, "no claims", sixteen, TWO_SCRIPTS, NO_CLAIMS);
    assert_rows(&rt, alloc, "words", sixteen, TWO_SCRIPTS, FAULTY_WORDS);
    assert_rows(&rt, alloc, "tests", sixteen, TWO_SCRIPTS, IN_THEIR_ORDER);
    assert_rows(&rt, alloc, "versions", sixteen, "", VERSIONS);
}

/// The front of a text with 64 claims, of which the last stands on line 72.
fn many_claims(rt: &impl Abort, alloc: Global) -> String {
    let mut text = String::new(alloc);
    text.push_str(TWO_SCRIPTS).expect(rt, "memory");
    for first in ["A", "B", "C", "D", "E", "F", "G", "H"] {
        for second in ["A", "B", "C", "D", "E", "F", "G", "H"] {
            writeln!(text, "claim never stale {first} & stale {second}").expect(rt, "memory");
        }
    }
    text
}

/// The 65th claim is one too many, which is tested behind how it is spelled and in front of what it names.
const BEHIND_CLAIMS: &str = "\
schedule;end|read
claim nothing lost|73 6
claim nothing forgotten|73 2
claim never stale 1:1|73 3
claim never stale 3:1:0|73 6
claim never stale A & stale A|73 6
";

/// A scenario text is read with 64 claims, and refused with a 65th.
#[test]
fn the_last_claim_is_taken_and_the_next_refused(rt: HostRuntime) {
    let alloc = rt.alloc();
    let many = many_claims(&rt, alloc);
    let sixteen = layout_of(&rt, 16, 1);
    assert_rows(&rt, alloc, "claims", sixteen, many.as_str(), BEHIND_CLAIMS);
}

/// Scenarios with claims that are already as they are printed.
const SCENARIOS: &str = "\
sites 1;schedule
sites 1;claim nothing lost;schedule;drain
sites 2;port 1.p.1 1.a.1 4;script 2.a.1;send 1.p.1 =a;send 1.p.1 x0a;delete 1.p.1;script 1.a.1;take 1.p.1;claim answer 2 1 take 1.p.1 X .. => verdict X accepted ! verdict X full *;claim nothing lost;claim possible stale 1:2:0;schedule;step 2;drain
";

/// A scenario text with claims is printed back as it is, with each claim as it is spelled, and without the lines that say nothing.
#[test]
fn claims_are_printed_back(rt: HostRuntime) {
    let alloc = rt.alloc();
    let sixteen = layout_of(&rt, 16, 1);
    for scenario in SCENARIOS.lines() {
        assert_printed_back(&rt, alloc, sixteen, "chorus 3\n", scenario);
    }
    let text =
        "chorus 3\n# a\nsites 1\n\nclaim never stale A\n# claim nothing lost\nclaim nothing left\n#\nschedule\nend\n";
    let want = "chorus 3\nsites 1\nclaim never stale A\nclaim nothing left\nschedule\nend";
    assert_prints(&rt, alloc, sixteen, text.as_bytes(), want.as_bytes());
}
