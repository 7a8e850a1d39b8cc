//! Texts of scenarios that are refused with a line and a reason, each worked out by hand from the grammar, as rows (see
//! [`crate::rows`]), and how such a fault is told in words and as a program's line.

use crate::rows::{assert_rows, behind, fault_of, layout_of};
use chorus_scene::SceneFault;
use chorus_show::{Status, fault_text};
use std::alloc::Global;
use std::process::Abort;

/// The first two lines of a text of version 1 with two sites.
const TWO_SITES: &str = "chorus 1\nsites 2\n";

/// The first row begins with the mark of an order of bytes.
const HEADS: &str = "\
\u{feff}chorus 1|1 8
# $;chorus 1|1 8
  ;chorus 1|1 1
chorus 1 |1 1
sites 1;chorus 1|1 1
chorus 1;sites 2;chorus 1|3 7
chorus 1;chorus|2 7
chorus 1;;;|4 9
chorus 1;sites 00|2 3
chorus 1;sites 0|2 6
chorus 1;sites +1|2 3
chorus 1;sites|2 2
chorus 1;sites |2 2
chorus 1;sites 1 2|2 2
chorus 1;sites 9|2 6
chorus 2;sites 16|3 9
chorus 2;sites 17|2 6
chorus 2;sites 2;sites 2|3 7
chorus 1;port 1.p.1 1.a.1 1|2 7
chorus 1;delete 1.p.1|2 2
chorus 2;delete 1.p.1|2 7
chorus 1;sites 2;schedule\r;end|3 8
";

const SETUPS: &str = "\
take 1.p.1|3 7
script 1.a.1;port 1.p.1 1.a.1 1|4 7
end|3 7
step 1|3 7
foo|3 2
port 65536.p.1 1.a.1 1|3 3
port 11111111111111111111111.p.1 1.a.1 1|3 3
port 1.p.1099511627776 1.a.1 1|3 3
port 1.p.01 1.a.1 1|3 3
port 9.p.1 9.a.1 0|3 6
port 1.p.1 1.a.1 18446744073709551616|3 6
port 1.p.1 1.a.1 0000000000000000000000001|3 3
port 2.p.1 1.a.1 1|3 7
port 1.p.1 1.a.1 1;port 1.p.1 1.a.2 1|4 5
group 1.g.2|3 7
port 1.p.1 1.a.1 1;member 1.g.1 1.p.1|4 4
group 1.g.1;group 1.g.1|4 5
";

const COMMANDS: &str = "\
script 1.a.1;reply x00|4 2
script 1.a.1;at 1.g.1 0 =x|4 4
script 1.a.1;at 1.g.1 18446744073709551616 =x|4 6
script 1.a.1;at 1.g.1 18446744073709551615 =x|4 4
script 1.a.1;newgroup 0|4 4
script 1.a.1;newgroup 18446744073709551616|4 6
script 1.a.1;newport 9.a.1 65|4 6
script 1.a.1;send 1.p.1  =x|4 2
script 1.a.1;send 1.p.1|4 2
script 1.a.1;retry |4 2
script 1.a.1;call 1.p.1 1.p.1|4 2
script 1.a.9|3 4
";

/// An await is a line of version 3, in a script.
const AWAITS: &str = "\
chorus 1;sites 2;script 1.a.1;await 1.p.1|4 2
chorus 2;sites 2;script 1.a.1;await 1.p.1|4 2
chorus 3;sites 2;await 1.p.1|3 7
chorus 3;sites 2;script 1.a.1;schedule;await 1.p.1|5 7
chorus 3;sites 2;script 1.a.1;claim nothing lost;await 1.p.1|5 7
chorus 3;sites 2;script 1.a.1;await|4 2
chorus 3;sites 2;script 1.a.1;await |4 2
chorus 3;sites 2;script 1.a.1;await 1.p.1 2.p.1|4 2
chorus 3;sites 2;script 1.a.1;await 1.a.1|4 3
chorus 3;sites 2;script 1.a.1;await 1.p.01|4 3
chorus 3;sites 2;script 1.a.1;await 3.p.1|4 4
chorus 3;sites 2;script 1.a.1;await 2.p.9;schedule;step 1;step 1|7 10
";

const SCHEDULES: &str = "\
script 1.a.1;take 1.p.1;schedule;step 0|6 10
script 1.a.1;take 1.p.1;schedule;step 1;step 1|7 10
script 1.a.1;schedule;step 1|5 10
schedule;step 18446744073709551615|4 10
schedule;step 18446744073709551616|4 6
schedule;deliver 2 3|4 10
schedule;deliver 0 1|4 10
schedule;deliver 1 18446744073709551616|4 6
schedule;end;take 1.p.1|5 7
schedule;end;foo|5 2
schedule;end;#$|5 8
schedule;end;end|5 7
schedule;end |4 2
";

const CAPACITIES: &str = "\
chorus 1;sites 1;port 1.p.1 1.a.1 0|3 6
chorus 1;sites 1;port 1.p.1 1.a.1 65|3 6
";

/// A fault in each section.
const IN_EACH_SECTION: &str = "\
|1 9
chorus 2|2 9
chorus 1;|2 9
chorus 1\r;|1 8
chorus 1;chorus 1|2 7
chorus 1;sites 9|2 6
chorus 1;sites 01|2 3
chorus 1;sites 99999999999999999999999|2 6
chorus 1;sites  1|2 2
chorus 1;sites 1;port 1.g.1 1.a.1 4|3 3
chorus 1;sites 1;port 1.p.2 1.a.1 4|3 7
chorus 1;sites 1;port 1.p.1 1.a.1 4;port 1.p.1 1.a.1 4|4 5
chorus 1;sites 1;script 1.a.1;send 1.p.1 x|4 2
chorus 1;sites 1;schedule;deliver 1 1|4 10
";

/// Each line is refused in the place where it stands, by the first of its tests: worked out from the table by hand.
const IN_THEIR_ORDER: &str = "\
;# a$;chorus 1|2 8
;  ;chorus 1|2 1
# a;;chorus 4|3 1
chorus 1;sites 2;  |3 2
chorus 1;sites 2;port 9.p.1 9.a.9 65|3 6
chorus 1;sites 2;port 1.g.1 1.a.1 65|3 3
chorus 1;sites 2;port 1.p.1 1.a.33 4|3 4
chorus 1;sites 2;port 1.p.33 9.a.1 4|3 6
chorus 1;sites 2;group 1.g.5|3 6
chorus 1;sites 2;group 2.g.2|3 7
chorus 1;sites 2;group 2.g.1;member 2.g.1 2.p.1|4 4
chorus 1;sites 2;group 2.g.1;port 2.p.1 2.a.8 1;member 2.g.1 2.p.1;member 2.g.1 2.p.1|6 5
chorus 1;sites 2;script 1.a.1;at 1.g.1 =x y|4 2
chorus 1;sites 2;script 1.a.1;at 1.g.1 =x =y|4 3
chorus 1;sites 2;script 1.a.1;send 1.p.1 |4 2
chorus 1;sites 2;schedule;end;;#;foo|7 2
chorus 1;sites 2;schedule;end;delete 1.p.1|5 2
chorus 2;sites 2;schedule;end;delete 1.p.1|5 7
";

const TWO_TURNS: &str = "\
schedule;deliver 4 1;end|read
schedule;deliver 5 1;end|4 10
port 1.p.1 1.a.2 1|3 7
";

const FOUR_TURNS: &str = "\
schedule;deliver 8 1;end|read
schedule;deliver 9 9;end|4 10
port 1.p.3 1.a.7 1;schedule;end|read
port 1.p.3 1.a.7 1;port 1.p.7 1.a.3 1;schedule;end|read
port 1.p.3 1.a.7 1;port 1.p.4 1.a.7 1|4 7
";

/// Rows under the name of what they are refused for, with the sites of the layout, the places of each, and the front of the rows' texts.
const REFUSED: [(&str, u16, u16, &str, &str); 12] = [
    ("heads_and_sites", 16, 1, "", HEADS),
    ("heads_and_sites", 2, 1, "", "chorus 2;sites 3|2 6"),
    ("setup_lines", 16, 1, TWO_SITES, SETUPS),
    ("commands", 16, 1, TWO_SITES, COMMANDS),
    (
        "commands",
        16,
        1,
        "",
        "chorus 2;sites 2;script 1.a.1;reply y|4 2",
    ),
    ("awaits", 16, 1, "", AWAITS),
    ("schedules", 16, 1, TWO_SITES, SCHEDULES),
    (
        "limits_are_refused_with_line_and_reason",
        16,
        1,
        "",
        CAPACITIES,
    ),
    ("refused_texts", 8, 1, "", IN_EACH_SECTION),
    ("tests_in_their_order", 8, 1, "", IN_THEIR_ORDER),
    ("places_and_ports_of_two_turns", 16, 2, TWO_SITES, TWO_TURNS),
    (
        "places_and_ports_of_four_turns",
        16,
        4,
        TWO_SITES,
        FOUR_TURNS,
    ),
];

/// A scenario text is refused with the line and the reason of its first fault.
#[test]
fn texts_are_refused_with_line_and_reason(rt: HostRuntime) {
    for (name, sites, turns, front, rows) in REFUSED {
        let layout = layout_of(&rt, sites, turns);
        assert_rows(&rt, rt.alloc(), name, layout, front, rows);
    }
}

/// Texts that are unfinished or name an unknown actor or step, each with the line in which a program tells how it is refused.
const UNFINISHED_AND_UNKNOWN: [(&str, &str); 3] = [
    (
        "chorus 1;sites 1;schedule;",
        "chorus: scenario line 4 reason 9\n",
    ),
    (
        "chorus 1;sites 2;script 3.a.1;schedule;end",
        "chorus: scenario line 3 reason 4\n",
    ),
    (
        "chorus 1;sites 1;script 1.a.1;schedule;step 1;end",
        "chorus: scenario line 5 reason 10\n",
    ),
];

/// Asserts the line in which a program tells how the text of a scenario is refused.
fn assert_fault_line(rt: &impl Abort, alloc: Global, text: &str, line: &str) {
    let whole = behind(rt, alloc, "", text);
    let fault = fault_of(rt, alloc, layout_of(rt, 16, 1), &whole).expect(rt, "a fault");
    let status = Status::Scenario {
        line: fault.line,
        reason: fault.reason,
    };
    let mut told = Vec::new(alloc);
    fault_text(status, &mut told).expect(rt, "memory");
    assert!(rt; told.as_slice() == line.as_bytes(), "{text}");
    assert!(rt; status.number() == 2);
}

/// A scenario text is refused that is unfinished, or names an unknown actor or step, and a line tells where and why.
#[test]
fn unfinished_and_unknown_texts(rt: HostRuntime) {
    for (text, line) in UNFINISHED_AND_UNKNOWN {
        assert_fault_line(&rt, rt.alloc(), text, line);
    }
}

/// The fault of a refused scenario text tells its line and reason in words.
#[test]
fn a_fault_is_told_in_words(rt: HostRuntime) {
    let fault = SceneFault { line: 3, reason: 6 };
    let alloc = rt.alloc();
    let told = format!(in alloc; "{fault}").expect(&rt, "memory");
    assert_eq!(rt;
        told.as_str(),
        "line 3: a number or a count is beyond its limit (reason 6)"
    );
}
