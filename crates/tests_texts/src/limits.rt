//! The last that is taken and the first that is not, of all that is counted, as rows (see [`crate::rows`]).

use crate::rows::{assert_rows, layout_of, repeated};
use std::alloc::Global;
use std::process::Abort;

/// The text of a scenario of two sites with the 32 ports of the first.
fn all_ports(rt: &impl Abort, alloc: Global) -> String {
    let mut text = String::new(alloc);
    text.push_str("chorus 1\nsites 2\n").expect(rt, "memory");
    for number in 1..=32_u64 {
        writeln!(text, "port 1.p.{number} 1.a.1 1").expect(rt, "memory");
    }
    text
}

/// The text of a scenario with the 32 ports of the first site, the first port of the second site, and a group of which
/// the ports of the first are members.
fn all_members(rt: &impl Abort, alloc: Global) -> String {
    let mut text = all_ports(rt, alloc);
    text.push_str("port 2.p.1 2.a.1 1\ngroup 1.g.1\n")
        .expect(rt, "memory");
    for number in 1..=32_u64 {
        writeln!(text, "member 1.g.1 1.p.{number}").expect(rt, "memory");
    }
    text
}

const BEHIND_PORTS: &str = "\
schedule;end|read
port 1.p.33 1.a.1 1|35 6
port 1.p.1 1.a.1 1|35 5
";

const BEHIND_MEMBERS: &str = "\
schedule;end|read
member 1.g.1 2.p.1|69 6
member 1.g.1 1.p.1|69 6
member 1.g.1 9.p.1|69 6
";

/// A scenario text is read with 32 ports or members, and refused with a 33rd.
#[test]
fn the_last_port_and_member_are_taken_and_the_next_refused(rt: HostRuntime) {
    let alloc = rt.alloc();
    let eight = layout_of(&rt, 8, 1);
    let ports = all_ports(&rt, alloc);
    assert_rows(&rt, alloc, "ports", eight, ports.as_str(), BEHIND_PORTS);
    let members = all_members(&rt, alloc);
    let front = members.as_str();
    assert_rows(&rt, alloc, "members", eight, front, BEHIND_MEMBERS);
}

const BEHIND_SCRIPTS: &str = "\
schedule;end|read
script 1.a.9|19 6
";

const BEHIND_COMMANDS: &str = "\
schedule;end|read
take 9.p.1|4100 6
take 1.p.01|4100 3
";

const BEHIND_STEPS: &str = "\
end|read
drain|131076 6
step 9|131076 6
";

/// Rows under the name of what is counted, with the sites of the layout, the front of the rows' texts, what follows it, and how often.
const COUNTED: [(&str, u16, &str, &str, usize, &str); 14] = [
    (
        "scripts",
        8,
        "chorus 1\nsites 2\n",
        "script 1.a.1\n",
        16,
        BEHIND_SCRIPTS,
    ),
    (
        "commands",
        8,
        "chorus 1\nsites 2\nscript 1.a.1\n",
        "take 1.p.1\n",
        4_096,
        BEHIND_COMMANDS,
    ),
    (
        "steps",
        8,
        "chorus 1\nsites 2\nschedule\n",
        "drain\n",
        131_072,
        BEHIND_STEPS,
    ),
    // the bytes of a text
    ("refused_texts", 8, "", "\n", 4_194_304, "|4194305 9"),
    ("refused_texts", 8, "", "\n", 4_194_305, "|0 6"),
    // the bytes of a body of version 1
    (
        "limits_are_refused_with_line_and_reason",
        16,
        "chorus 1\nsites 1\nport 1.p.1 1.a.1 1\nscript 1.a.1\nsend 1.p.1 =",
        "x",
        240,
        "|6 9",
    ),
    (
        "limits_are_refused_with_line_and_reason",
        16,
        "chorus 1\nsites 1\nport 1.p.1 1.a.1 1\nscript 1.a.1\nsend 1.p.1 =",
        "x",
        241,
        "|5 6",
    ),
    // a name that is no group's, and a site that there is not, come before a body that is too long
    (
        "a body to one",
        16,
        "chorus 1\nsites 2\nscript 1.a.1\none 1.p.1 =",
        "x",
        241,
        "|4 3",
    ),
    (
        "a body to one at a site",
        16,
        "chorus 1\nsites 2\nscript 1.a.1\nat 1.g.1 3 =",
        "x",
        241,
        "|4 6",
    ),
    // the bytes of a body of version 2, as text and as digits
    (
        "a body",
        16,
        "chorus 2\nsites 2\nscript 1.a.1\nsend 1.p.1 =",
        "x",
        4_096,
        "|5 9",
    ),
    (
        "a body to a site that there is not",
        16,
        "chorus 2\nsites 2\nscript 1.a.1\nsend 9.p.1 =",
        "x",
        4_097,
        "|4 6",
    ),
    (
        "a body in digits",
        16,
        "chorus 2\nsites 2\nscript 1.a.1\nsend 1.p.1 x",
        "0",
        8_192,
        "|5 9",
    ),
    (
        "a body in digits",
        16,
        "chorus 2\nsites 2\nscript 1.a.1\nsend 1.p.1 x",
        "0",
        8_193,
        "|4 3",
    ),
    (
        "a body in digits",
        16,
        "chorus 2\nsites 2\nscript 1.a.1\nsend 1.p.1 x",
        "0",
        8_194,
        "|4 6",
    ),
];

/// A scenario text is read with as many of a thing as may be, and refused with one more.
#[test]
fn the_last_is_taken_and_the_next_refused(rt: HostRuntime) {
    let alloc = rt.alloc();
    for (name, sites, front, line, count, rows) in COUNTED {
        let layout = layout_of(&rt, sites, 1);
        let front = repeated(&rt, alloc, front, line, count);
        assert_rows(&rt, alloc, name, layout, front.as_str(), rows);
    }
}
