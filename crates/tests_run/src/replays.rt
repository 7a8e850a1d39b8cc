//! What scenarios print that are no worked rows.

use crate::running::{assert_prints, assert_same, replayed, sixteen};
use chorus_show::Status;
use std::alloc::Global;
use std::fmt::Write;
use std::process::Abort;

pub(crate) const NOTHING: &str = "chorus 1\nsites 1\nscript 1.a.1\nschedule\nend";

pub(crate) const PRINTS_NOTHING: &str =
    "journal 0\nsummary\nposted 0\naccepted 0\ntaken 0\nqueued 0\nmoving 0\nrefused 0\nstale 0\ndeparts 0\nend\n";

/// Scenarios, each with its name, and what their replays print.
const REPLAYS: [(&str, &str, &str); 5] = [
    ("empty_scenario", NOTHING, PRINTS_NOTHING),
    // a `%` is printed as `%25`
    (
        "percent_is_escaped",
        "chorus 1\nsites 1\nport 1.p.1 1.a.1 1\nscript 1.a.1\nsend 1.p.1 =100%\nschedule\nend",
        "\
journal 3
1 1 0 make 1.p.1 1.a.1 1
2 1 1 post 1:1:0 port 1.p.1 plain =100%25
3 1 1 accept 1:1:0 1.p.1 0
summary
posted 1
accepted 1
taken 0
queued 1
moving 0
refused 0
stale 0
departs 0
end
",
    ),
    // the bytes of a body in hexadecimal digits are printed escaped
    (
        "binary_bodies",
        "chorus 2\nsites 1\nport 1.p.1 1.a.1 1\nscript 1.a.1\nsend 1.p.1 x00ff\nschedule\nend\n",
        "\
journal 3
1 1 0 make 1.p.1 1.a.1 1
2 1 1 post 1:1:0 port 1.p.1 plain =%00%ff
3 1 1 accept 1:1:0 1.p.1 0
summary
posted 1
accepted 1
taken 0
queued 1
moving 0
refused 0
stale 0
departs 0
end
",
    ),
    // three scripts of two actors, whose steps the schedule interleaves; the commands that it leaves come script by script
    (
        "scripts_are_interleaved",
        "\
chorus 2
sites 1
port 1.p.1 1.a.1 2
script 1.a.1
send 1.p.2 =a
newport 1.a.2 1
take 1.p.1
take 1.p.1
script 1.a.2
take 1.p.2
send 1.p.1 =b
script 1.a.2
send 1.p.2 =c
take 1.p.2
take 1.p.1
schedule
step 1
step 3
step 1
drain
step 2
step 3
step 2
step 1
end
",
        "\
journal 13
1 1 0 make 1.p.1 1.a.1 2
2 1 1 post 1:1:0 port 1.p.2 plain =a
3 1 1 no-port 1:1:0 1.p.2
4 1 3 post 3:1:0 port 1.p.2 plain =c
5 1 3 no-port 3:1:0 1.p.2
6 1 1 make 1.p.2 1.a.2 1
7 1 2 empty 1.p.2
8 1 3 empty 1.p.2
9 1 2 post 2:1:0 port 1.p.1 plain =b
10 1 2 accept 2:1:0 1.p.1 0
11 1 1 take 1.p.1 0 2:1:0
12 1 1 empty 1.p.1
13 1 3 not-here 1.p.1
summary
posted 3
accepted 1
taken 1
queued 0
moving 0
refused 2
stale 0
departs 0
end
",
    ),
    // the port of another actor, and one that there is not
    (
        "another_actor_holds_the_port",
        "chorus 1\nsites 1\nport 1.p.1 1.a.1 1\nscript 1.a.2\ntake 1.p.1\ntake 1.p.2\nschedule\nend",
        "\
journal 3
1 1 0 make 1.p.1 1.a.1 1
2 1 1 not-here 1.p.1
3 1 1 not-here 1.p.2
summary
posted 0
accepted 0
taken 0
queued 0
moving 0
refused 0
stale 0
departs 0
end
",
    ),
];

/// The replay of each scenario prints its journal and summary.
#[test]
fn scenarios_are_replayed(rt: HostRuntime) {
    for (name, text, printed) in REPLAYS {
        assert_prints(&rt, rt.alloc(), sixteen(&rt), name, text, printed);
    }
}

/// A text that has this letter so many times, for a scenario that is replayed.
pub(crate) fn letters(rt: &impl Abort, alloc: Global, letter: char, count: usize) -> String {
    let mut text = String::new(alloc);
    for _ in 0..count {
        text.push(letter).expect(rt, "memory");
    }
    text
}

/// A scenario to be replayed, with a port of capacity 64, and 65 sends of 240 bytes to it.
fn sixty_five_sends(rt: &impl Abort, alloc: Global) -> String {
    let body = letters(rt, alloc, 'b', 240);
    let mut text = String::new(alloc);
    text.push_str("chorus 1\nsites 1\nport 1.p.1 1.a.1 64\nscript 1.a.1\n")
        .expect(rt, "memory");
    for _ in 0..65 {
        writeln!(text, "send 1.p.1 ={body}").expect(rt, "memory");
    }
    text.push_str("schedule\nend\n").expect(rt, "memory");
    text
}

/// Asserts that in what a replay printed the first 64 sends are accepted in their order.
fn assert_sixty_four_accepted(rt: &impl Abort, alloc: Global, printed: &str) {
    for pos in 0..64_u64 {
        let clock = 2 * pos + 3;
        let number = pos + 1;
        let line = format!(in alloc; "\n{clock} 1 1 accept 1:{number}:0 1.p.1 {pos}\n").expect(
            rt, "memory",
        );
        assert!(rt; printed.contains(line.as_str()), "{line}");
    }
}

const ENDS_SIXTY_FIVE_SENDS: &str = "
131 1 1 full 1:65:0 1.p.1 64
summary
posted 65
accepted 64
taken 0
queued 64
moving 0
refused 1
stale 0
departs 0
end
";

/// The replay of 65 sends to a port of 64 accepts 64 in their order, and prints the last as full.
#[test]
fn fills_to_capacity(rt: HostRuntime) {
    let alloc = rt.alloc();
    let text = sixty_five_sends(&rt, alloc);
    let run = replayed(&rt, alloc, sixteen(&rt), text.as_bytes(), &[], 4096, &[]);
    let printed = run.written.as_str();
    assert_same(&rt, run.status, Status::Done, "65 sends");
    assert_sixty_four_accepted(&rt, alloc, printed);
    assert_same(
        &rt,
        printed.ends_with(ENDS_SIXTY_FIVE_SENDS),
        true,
        "65 sends",
    );
}

/// A scenario to be replayed, with a port of capacity 1, and a send to it by each of 16 scripts.
fn sixteen_senders(rt: &impl Abort, alloc: Global) -> String {
    let mut text = String::new(alloc);
    text.push_str("chorus 1\nsites 1\nport 1.p.1 1.a.1 1\n")
        .expect(rt, "memory");
    for _ in 0..16 {
        text.push_str("script 1.a.1\nsend 1.p.1 =x\n")
            .expect(rt, "memory");
    }
    text.push_str("schedule\nend\n").expect(rt, "memory");
    text
}

/// Asserts that in what a replay printed the posts of the scripts stand in their order, each by the seat of its script.
fn assert_sixteen_posts(rt: &impl Abort, alloc: Global, printed: &str) {
    for seat in 1..=16_u64 {
        let clock = 2 * seat;
        let line = format!(in alloc;
            "\n{clock} 1 {seat} post {seat}:1:0 port 1.p.1 plain =x\n"
        ).expect(rt, "memory");
        assert!(rt; printed.contains(line.as_str()), "{line}");
    }
}

const ENDS_SIXTEEN_SENDERS: &str = "
33 1 16 full 16:1:0 1.p.1 1
summary
posted 16
accepted 1
taken 0
queued 1
moving 0
refused 15
stale 0
departs 0
end
";

/// The replay of 16 scripts that send to a port of 1 prints each post by its own seat, and accepts one.
#[test]
fn sixteen_scripts_are_replayed(rt: HostRuntime) {
    let alloc = rt.alloc();
    let text = sixteen_senders(&rt, alloc);
    let run = replayed(&rt, alloc, sixteen(&rt), text.as_bytes(), &[], 4096, &[]);
    let printed = run.written.as_str();
    assert_same(&rt, run.status, Status::Done, "16 scripts");
    assert_sixteen_posts(&rt, alloc, printed);
    assert_same(&rt, printed.starts_with("journal 33\n"), true, "16 scripts");
    assert_same(
        &rt,
        printed.ends_with(ENDS_SIXTEEN_SENDERS),
        true,
        "16 scripts",
    );
}
