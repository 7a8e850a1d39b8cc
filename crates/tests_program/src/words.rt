//! What the program reads in its words, how it ends for words that it has not, and what it prints for `load` and `lossy`.

use crate::ground::{assert_prints, assert_same, run_on};
use chorus_show::Status;
use chorus_words::{Words, read_words};
use std::alloc::Global;
use std::process::Abort;
use std::sync::Wait;
use std::thread::Threads;

/// What the program's words ask for; none where they are not in the list of its uses.
fn asked_by(rt: &impl Abort, alloc: Global, words: &[&str]) -> Option<Words> {
    read_words(alloc, words).expect(rt, "memory")
}

/// Asserts what the program reads in its words, or that it reads nothing in them.
fn assert_reads(rt: &impl Abort, alloc: Global, words: &[&str], asked: Option<Words>) {
    let read = asked_by(rt, alloc, words);
    assert!(rt; read == asked, "{words:?}");
}

/// The greatest number of a first draw.
const MOST: &str = "18446744073709551615";

/// Asserts what is read in words that the list of the program's uses has.
fn assert_listed(rt: &impl Abort, alloc: Global) {
    let first = u64::MAX;
    let commands = 65_536;
    let count = u32::MAX;
    let listed: [(&[&str], Words); 22] = [
        (&["replay"], Words::Replay),
        (&["run"], Words::Run),
        (&["run", "1"], Words::RunOn { turns: 1 }),
        (&["run", "2"], Words::RunOn { turns: 2 }),
        (&["run", "4"], Words::RunOn { turns: 4 }),
        (&["load", "0", "65536"], Words::Load { first: 0, commands }),
        (&["load", "7", "65536"], Words::Load { first: 7, commands }),
        (&["load", MOST, "65536"], Words::Load { first, commands }),
        (&["crew", MOST, "65536"], Words::Crew { first, commands }),
        (&["check"], Words::Check),
        (&["check", "0"], Words::CheckMost { most: 0 }),
        (
            &["drawn", "4294967295", MOST],
            Words::CheckDrawn { count, first },
        ),
        (&["judge"], Words::Judge),
        (
            &["judge", "16", "4"],
            Words::JudgeFor {
                sites: 16,
                turns: 4,
            },
        ),
        (&["promises"], Words::Promises),
        (
            &["promises", "16", "4"],
            Words::PromisesFor {
                sites: 16,
                turns: 4,
            },
        ),
        (
            &["picture", "16", "4"],
            Words::Picture {
                sites: 16,
                turns: 4,
            },
        ),
        (&["lossy", MOST], Words::Lossy { first }),
        (&["explore"], Words::Explore),
        (
            &["explore", "4294967295"],
            Words::ExploreMost { most: u32::MAX },
        ),
        (
            &["explore", "5", "7"],
            Words::ExploreFrom { most: 5, first: 7 },
        ),
        (
            &["explore", "4294967295", MOST],
            Words::ExploreFrom {
                most: u32::MAX,
                first,
            },
        ),
    ];
    for (words, asked) in listed {
        assert_reads(rt, alloc, words, Some(asked));
    }
}

/// Asserts that nothing is read in words that the list of the program's uses has not: too few, too many, and numbers beyond a limit.
fn assert_unlisted(rt: &impl Abort, alloc: Global) {
    let unlisted: [&[&str]; 30] = [
        &["run", "0"],
        &["run", "3"],
        &["run", "8"],
        &["run", "02"],
        &["run", ""],
        &["run", "1", "1"],
        &["1", "run"],
        &["load", "7", "65537"],
        &["load", "7", "1", "1"],
        &["crew", "7", "65537"],
        &["crew", "7", "1", "1"],
        &["check", "4294967296"],
        &["drawn", "4294967296", "7"],
        &["drawn", "1"],
        &["check", "1", "1"],
        &["judge", "16"],
        &["judge", "17", "1"],
        &["judge", "16", "3"],
        &["promises", "16"],
        &["promises", "16", "3"],
        &["picture", "16"],
        &["picture", "17", "1"],
        &["picture", "16", "3"],
        &["lossy"],
        &["lossy", "7", "1"],
        &["explore", "4294967296"],
        &["explore", "4294967296", "7"],
        &["explore", "5", "18446744073709551616"],
        &["explore", "5", "07"],
        &["explore", "5", "7", "1"],
    ];
    for words in unlisted {
        assert_reads(rt, alloc, words, None);
    }
}

/// Asserts that nothing is read in the program's words where a number has a sign, a leading zero, a blank or a letter, or is too great.
fn assert_no_numbers(rt: &impl Abort, alloc: Global) {
    for text in [
        "",
        "-1",
        "+1",
        "01",
        "00",
        " 1",
        "1 ",
        "x",
        "18446744073709551616",
    ] {
        assert_reads(rt, alloc, &["load", text, "1"], None);
        assert_reads(rt, alloc, &["load", "1", text], None);
        assert_reads(rt, alloc, &["lossy", text], None);
    }
}

/// The program's words are read as the list of its uses has them, and others not.
#[test]
fn the_list_and_nothing_else(rt: HostRuntime) {
    let alloc = rt.alloc();
    assert_listed(&rt, alloc);
    assert_unlisted(&rt, alloc);
    assert_no_numbers(&rt, alloc);
}

const LOADS_NOTHING: &str =
    "summary\nposted 0\naccepted 0\ntaken 0\nqueued 0\nmoving 0\nrefused 0\nstale 0\ndeparts 0\nend\n";

/// What a load of one command from 7 prints.
pub(crate) const LOADS_ONE_COMMAND: &str =
    "summary\nposted 1\naccepted 1\ntaken 0\nqueued 1\nmoving 0\nrefused 0\nstale 0\ndeparts 0\nend\n";

/// Asserts that the program, started with these words, ends with the usage fault and writes nothing.
fn assert_usage(rt: &(impl Abort + Threads + Wait + Sync), alloc: Global, words: &[&str]) {
    let run = run_on(rt, alloc, words, "");
    assert_same(rt, run.status, Status::Usage, words);
    assert!(rt; run.written.is_empty(), "{words:?}");
}

/// The program refuses words that it has not, and performs `load`.
#[test]
fn words_of_the_program(rt: HostRuntime) {
    let alloc = rt.alloc();
    let unlisted: [&[&str]; 5] = [
        &[],
        &["load", "7"],
        &["load", "07", "1"],
        &["replay", "x"],
        &["--help"],
    ];
    for words in unlisted {
        assert_usage(&rt, alloc, words);
    }
    for (commands, printed) in [("0", LOADS_NOTHING), ("1", LOADS_ONE_COMMAND)] {
        assert_prints(&rt, alloc, &["load", "7", commands], "", printed);
    }
}

/// The program's word `lossy` prints what it carried, how often a chunk was emitted, and how much was lost.
#[test]
fn lossy_line_carries_hello(rt: HostRuntime) {
    for (input, printed) in [("", "\nwire 0 0\n"), ("hello", "hello\nwire 1 0\n")] {
        assert_prints(&rt, rt.alloc(), &["lossy", "7"], input, printed);
    }
}
