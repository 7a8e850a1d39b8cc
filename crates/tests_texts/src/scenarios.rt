//! Texts of scenarios that are read and printed back.

use crate::rows::{assert_rows, behind, layout_of, repeated};
use chorus_print::print;
use chorus_scene::read;
use chorus_ui::Layout;
use std::alloc::Global;
use std::process::Abort;

/// What is printed of the scenario that the text says.
fn printed(rt: &impl Abort, alloc: Global, layout: Layout, text: &[u8]) -> Vec<u8> {
    let Ok(scenario) = read(alloc, text, layout) else {
        panic!(rt; "a scenario")
    };
    let mut out = Vec::new(alloc);
    print(&scenario, &mut out).expect(rt, "memory");
    out
}

/// Asserts that the text is read, and the scenario that it says is printed as the other.
pub(crate) fn assert_prints(
    rt: &impl Abort,
    alloc: Global,
    layout: Layout,
    text: &[u8],
    want: &[u8],
) {
    let out = printed(rt, alloc, layout, text);
    assert!(rt; out.as_slice() == want);
}

/// Asserts that a scenario, written as in a row between its head and its end, is printed as it is.
pub(crate) fn assert_printed_back(
    rt: &impl Abort,
    alloc: Global,
    layout: Layout,
    head: &str,
    scenario: &str,
) {
    let whole = format!(in alloc; "{scenario};end").expect(rt, "memory");
    let text = behind(rt, alloc, head, whole.as_str());
    assert_prints(rt, alloc, layout, &text, &text);
}

/// A scenario text's body in hexadecimal digits is read and printed back in version 2, and refused with an odd or a capital one.
#[test]
fn binary_bodies(rt: HostRuntime) {
    let alloc = rt.alloc();
    let sixteen = layout_of(&rt, 16, 1);
    let scenario = "sites 1;port 1.p.1 1.a.1 1;script 1.a.1;send 1.p.1 x00ff;schedule";
    assert_printed_back(&rt, alloc, sixteen, "chorus 2\n", scenario);
    let front = "chorus 2\nsites 1\nport 1.p.1 1.a.1 1\nscript 1.a.1\nsend 1.p.1 ";
    let rows = "x|6 9\nx0|5 3\nx0F|5 3\n";
    assert_rows(&rt, alloc, "binary_bodies", sixteen, front, rows);
}

const DELETES: &str =
    "sites 3;port 1.p.1 1.a.1 4;script 3.a.1;send 1.p.1 =x;script 1.a.1;move 1.p.1 2.a.1;script 2.a.1;delete 1.p.1;schedule;step 2;deliver 1 2;step 3;step 1;deliver 3 1;deliver 1 3;deliver 3 2;deliver 2 3";

/// A scenario text's `delete` is printed back in version 2, and refused in version 1.
#[test]
fn delete_in_scenarios(rt: HostRuntime) {
    let alloc = rt.alloc();
    let sixteen = layout_of(&rt, 16, 1);
    assert_printed_back(&rt, alloc, sixteen, "chorus 2\n", DELETES);
    let row = format!(in alloc; "{DELETES};end|9 2").expect(&rt, "memory");
    let name = "delete_in_scenarios";
    assert_rows(&rt, alloc, name, sixteen, "chorus 1\n", row.as_str());
}

/// Scenarios of version 3, with awaits.
const AWAITS: &str = "\
sites 2;script 1.a.1;await 2.p.1;take 2.p.1;await 2.p.1;script 2.a.1;send 2.p.1 =x;schedule;step 1;step 2
sites 1;port 1.p.1 1.a.1 1;script 1.a.1;take 1.p.1;await 1.p.1;await 1.p.40;claim nothing lost;schedule
";

/// Scenarios that are already as they are printed.
const SCENARIOS: &str = "\
sites 1;script 1.a.1;schedule
sites 1;port 1.p.1 1.a.1 1;script 1.a.1;send 1.p.1 =a;send 1.p.1 =b;take 1.p.1;take 1.p.1;take 1.p.1;schedule
sites 2;port 2.p.1 2.a.1 4;script 1.a.1;send 2.p.1 =hi;script 2.a.1;send 2.p.1 =yo;schedule;step 1;step 2;deliver 1 2;deliver 2 1
sites 2;port 1.p.1 1.a.1 4;script 1.a.1;send 1.p.1 =a;send 1.p.1 =b;send 1.p.1 =c;move 1.p.1 2.a.1;script 2.a.1;take 1.p.1;take 1.p.1;take 1.p.1;schedule;step 1;step 1;step 1;step 1;deliver 1 2;step 2;step 2;step 2
sites 3;port 1.p.1 1.a.1 4;script 3.a.1;send 1.p.1 =x;script 1.a.1;move 1.p.1 2.a.1;schedule;step 2;step 1;deliver 3 1;deliver 1 3;deliver 1 2;deliver 3 2;deliver 2 3
sites 3;port 1.p.1 1.a.1 4;script 3.a.1;send 1.p.1 =x;send 1.p.1 =x;script 1.a.1;move 1.p.1 2.a.1;schedule;step 2;step 1;deliver 3 1;deliver 1 3;deliver 3 2;deliver 2 3;deliver 1 2;step 1;deliver 3 2;deliver 2 3
sites 4;port 1.p.1 1.a.1 4;script 4.a.1;send 1.p.1 =x;script 1.a.1;move 1.p.1 2.a.1;move 1.p.1 3.a.1;script 2.a.1;move 1.p.1 1.a.1;schedule;step 2;deliver 1 2;step 3;deliver 2 1;step 2;deliver 1 3;step 1;deliver 4 1;deliver 1 4;deliver 4 3;deliver 3 4
sites 1;port 1.p.1 1.a.1 2;script 1.a.1;send 1.p.1 =a;move 1.p.1 1.a.2;take 1.p.1;script 1.a.2;take 1.p.1;schedule
sites 1;port 1.p.1 1.a.1 2;script 1.a.1;send 1.p.9 =x;send 1.p.1 =y;schedule
sites 1;port 1.p.1 1.a.1 1;port 1.p.2 1.a.1 1;port 1.p.3 1.a.1 1;group 1.g.1;group 1.g.2;member 1.g.1 1.p.1;member 1.g.1 1.p.2;member 1.g.1 1.p.3;script 1.a.1;one 1.g.2 =z;one 1.g.1 =z;one 1.g.1 =z;one 1.g.1 =z;one 1.g.1 =z;schedule
sites 3;port 2.p.1 2.a.1 4;group 1.g.1;member 1.g.1 2.p.1;script 1.a.1;at 1.g.1 2 =x;script 2.a.1;move 2.p.1 3.a.1;schedule;step 1;step 2;deliver 1 2;drain
sites 2;port 2.p.1 2.a.1 4;group 1.g.1;member 1.g.1 2.p.1;script 1.a.1;at 1.g.1 2 =x;at 1.g.1 2 =y;script 2.a.1;move 2.p.1 1.a.1;schedule;step 1;step 1;step 2;deliver 2 1;deliver 1 2;deliver 2 1
sites 3;port 1.p.1 1.a.1 4;script 3.a.1;send 1.p.1 =x;send 1.p.1 =y;script 1.a.1;move 1.p.1 2.a.1;schedule;step 2;step 1;step 1;deliver 3 1;deliver 1 3;deliver 1 2;deliver 3 2;deliver 2 3;deliver 3 2
sites 1;port 1.p.1 1.a.1 2;port 1.p.2 1.a.1 1;port 1.p.3 1.a.1 2;group 1.g.1;member 1.g.1 1.p.1;member 1.g.1 1.p.2;member 1.g.1 1.p.3;script 1.a.1;send 1.p.2 =f;all 1.g.1 =b;schedule
sites 3;port 1.p.1 1.a.1 4;port 2.p.1 2.a.1 4;script 2.a.1;call 1.p.1 2.p.1 =q;retry;cancel;call 1.p.1 2.p.1 =r;take 2.p.1;script 1.a.1;move 1.p.1 3.a.1;script 3.a.1;take 1.p.1;reply =ans;schedule;step 1;deliver 2 1;deliver 1 2;step 2;deliver 1 3;step 1;deliver 2 1;deliver 1 2;deliver 2 3;deliver 3 2;step 3;step 1;step 1;step 3;drain
sites 2;port 2.p.1 2.a.1 4;group 1.g.1;member 1.g.1 2.p.1;script 2.a.1;one 1.g.1 =k;schedule
sites 1;port 1.p.1 1.a.1 4;script 1.a.1;send 1.p.1 =100%;schedule
sites 1;port 1.p.1 1.a.1 4;script 1.a.1;call 1.p.1 1.p.1 =q;call 1.p.1 1.p.1 =r;take 1.p.1;reply =s;take 1.p.1;retry;reply =t;schedule
sites 8;script 8.a.8;newport 8.a.8 64;newgroup 8;join 8.g.1 8.p.1;leave 8.g.1 8.p.1;send 1.p.1 =;reply = two  spaces ;schedule;drain
";

/// Asserts that each scenario of the list is printed exactly as it was read.
fn assert_scenarios(rt: &impl Abort, alloc: Global) {
    let sixteen = layout_of(rt, 16, 1);
    for scenario in SCENARIOS.lines() {
        assert_printed_back(rt, alloc, sixteen, "chorus 1\n", scenario);
    }
}

/// Asserts that awaits are printed as they were read, and takes beside them as takes.
fn assert_awaits(rt: &impl Abort, alloc: Global) {
    let sixteen = layout_of(rt, 16, 1);
    for scenario in AWAITS.lines() {
        assert_printed_back(rt, alloc, sixteen, "chorus 3\n", scenario);
    }
}

/// Asserts that a scenario with a port of capacity 64, and 65 sends of 240 bytes to it, is printed as it is.
fn assert_sends(rt: &impl Abort, alloc: Global) {
    let mut send = repeated(rt, alloc, "send 1.p.1 =", "x", 240);
    send.push('\n').expect(rt, "memory");
    let front = "chorus 1\nsites 1\nport 1.p.1 1.a.1 64\nscript 1.a.1\n";
    let sends = repeated(rt, alloc, front, send.as_str(), 65);
    assert_printed_back(rt, alloc, layout_of(rt, 16, 1), sends.as_str(), "schedule");
}

/// Asserts that a scenario's actors with two places on their site are as they are printed, and refused where there is one.
fn assert_turns(rt: &impl Abort, alloc: Global) {
    let scenario =
        "sites 1;port 1.p.2 1.a.2 4;port 1.p.1 1.a.3 1;port 1.p.4 1.a.4 2;script 1.a.1;send 1.p.2 =x;schedule";
    let two_turns = layout_of(rt, 16, 2);
    assert_printed_back(rt, alloc, two_turns, "chorus 1\n", scenario);
    let row = format!(in alloc; "{scenario};end|3 7").expect(rt, "memory");
    let one_turn = layout_of(rt, 16, 1);
    let name = "two places on a site";
    assert_rows(rt, alloc, name, one_turn, "chorus 1\n", row.as_str());
}

/// A scenario text in its printed form is read and printed back as it is.
#[test]
fn texts_are_read_and_printed_back(rt: HostRuntime) {
    assert_scenarios(&rt, rt.alloc());
    assert_awaits(&rt, rt.alloc());
    assert_sends(&rt, rt.alloc());
    assert_turns(&rt, rt.alloc());
}

/// A scenario text that is spelled in another form is printed in the one: without skipped lines and a last LF, and as text where the
/// digits of a body are text.
#[test]
fn other_forms_are_printed_in_the_one(rt: HostRuntime) {
    let text =
        "# c\n\nchorus 2\nsites 1\n# d\nscript 1.a.1\nreply x6869\nreply x\nreply x0a\nschedule\nend\n\n#";
    let want = "chorus 2\nsites 1\nscript 1.a.1\nreply =hi\nreply =\nreply x0a\nschedule\nend";
    let sixteen = layout_of(&rt, 16, 1);
    assert_prints(&rt, rt.alloc(), sixteen, text.as_bytes(), want.as_bytes());
}
