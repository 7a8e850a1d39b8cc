//! What the program prints is audited, judged and drawn by the program.

use crate::ground::{assert_prints, assert_same, run_on, sink_of};
use chorus_program::ended;
use chorus_show::Status;
use tests_rows::RETRY_ACROSS_A_MOVE_IS_ACCEPTED_ONCE;

/// A port is made on the last site, at its first place: the last but three of 64, and of no place where each site has one.
const MADE_AT_PLACE_61: &str = "\
journal 1
1 61 0 make 16.p.1 16.a.1 4
summary
posted 0
accepted 0
taken 0
queued 0
moving 0
refused 0
stale 0
departs 0
end
";

/// Script 2 is stuck at its first command.
const STUCK: &str = "\
journal 1
1 1 0 make 1.p.1 1.a.1 4
summary
posted 0
accepted 0
taken 0
queued 0
moving 0
refused 0
stale 0
departs 0
stuck 2 1
end
";

/// It gave none, and so is not stuck at its second one.
const STUCK_BEYOND: &str = "\
journal 1
1 1 0 make 1.p.1 1.a.1 4
summary
posted 0
accepted 0
taken 0
queued 0
moving 0
refused 0
stale 0
departs 0
stuck 2 2
end
";

/// What the program's word `audit` finds in journals as the program prints them.
#[test]
fn audit_of_real_outputs(rt: HostRuntime) {
    let moved = RETRY_ACROSS_A_MOVE_IS_ACCEPTED_ONCE.printed;
    for (turns, journal, verdict) in [
        ("1", moved, "legal 27\n"),
        ("4", MADE_AT_PLACE_61, "legal 1\n"),
        ("1", MADE_AT_PLACE_61, "wrong line 2 rule 0\n"),
        ("1", STUCK, "legal 1\n"),
        ("1", STUCK_BEYOND, "wrong line 12 rule 99\n"),
    ] {
        assert_prints(&rt, rt.alloc(), &["audit", "16", turns], journal, verdict);
    }
}

/// A message is posted to another place, and nothing more is told of it.
pub(crate) const LEFT_OPEN: &str = "\
journal 2
1 2 0 make 2.p.1 2.a.1 4
2 1 1 post 1:1:0 port 2.p.1 plain =a
summary
posted 1
accepted 0
taken 0
queued 0
moving 0
refused 0
stale 0
departs 0
end
";

/// What `judge` writes of it.
pub(crate) const WHAT_IS_LEFT_OPEN: &str = "\
run 2
open 1
line 3 message 1:1:0 without verdict
seat 0 2.a.1
seat 1 1.a.1
";

/// What the program's words `judge` and `promises` find in journals, and the exit status with which it ends.
#[test]
fn judgements_and_their_exit_status(rt: HostRuntime) {
    let alloc = rt.alloc();
    let moved = RETRY_ACROSS_A_MOVE_IS_ACCEPTED_ONCE.printed;
    let each: [(&[&str], &str, &str, u8); 11] = [
        (
            &["judge"],
            moved,
            "run 27\nopen 0\nseat 0 1.a.1\nseat 1 2.a.1\nseat 2 1.a.1\nseat 3 3.a.1\n",
            0,
        ),
        (
            &["judge", "16", "4"],
            MADE_AT_PLACE_61,
            "run 1\nopen 0\nseat 0 16.a.1\n",
            0,
        ),
        (
            &["judge"],
            MADE_AT_PLACE_61,
            "wrong line 2 rule 0 condition 1\nopen 0\n",
            7,
        ),
        (&["judge"], LEFT_OPEN, WHAT_IS_LEFT_OPEN, 8),
        (
            &["promises", "16", "4"],
            MADE_AT_PLACE_61,
            "kept 1\nopen 0\n",
            0,
        ),
        (
            &["promises"],
            MADE_AT_PLACE_61,
            "wrong line 2 rule 0 condition 1\nopen 0\n",
            7,
        ),
        (
            &["promises"],
            LEFT_OPEN,
            "kept 2\nopen 1\nline 3 message 1:1:0 without verdict\n",
            8,
        ),
        (&["audit", "16", "1"], LEFT_OPEN, "legal 2\n", 0),
        (&["judge"], STUCK, "run 1\nopen 0\nseat 0 1.a.1\n", 0),
        (&["promises"], STUCK, "kept 1\nopen 0\n", 0),
        (
            &["judge"],
            STUCK_BEYOND,
            "wrong line 12 rule 99\nopen 0\n",
            7,
        ),
    ];
    for (words, journal, printed, number) in each {
        let run = run_on(&rt, alloc, words, journal);
        assert_same(&rt, run.status, Status::Done, words);
        assert_same(&rt, run.written.as_str(), printed, words);
        let mut errors = sink_of(&rt, alloc, 64, &[]);
        assert_same(
            &rt,
            ended(run.status, run.verdict, &mut errors),
            number,
            words,
        );
        assert!(rt; errors.bytes().is_empty(), "{words:?}");
    }
}

/// The program's word `picture` ends well on what is printed, and so has drawn it; `tests_audit` has what stands in a picture.
#[test]
fn a_real_output_is_drawn(rt: HostRuntime) {
    let moved = RETRY_ACROSS_A_MOVE_IS_ACCEPTED_ONCE.printed;
    for journal in [moved, STUCK] {
        let run = run_on(&rt, rt.alloc(), &["picture", "16", "1"], journal);
        assert_same(&rt, run.status, Status::Done, "picture");
    }
}
