//! How the program ended, with what was found of a text.

ghost use Rattle.std.specs.Prelude.{◌≡◌, None};
ghost use Rattle.chorus_program.specs.Concluding.{end_as, verdict_number};

use crate::one_thread::closed_nothing;
use chorus_check::Checked;
use chorus_judge::Judgement;
use chorus_report::Finished;
use chorus_show::Status;

/// How the program ended, and what it found of a text that it was asked about.
#[derive(Drop)]
pub struct Conclusion {
    /// Whether it did all, or why it did not, and what was closed.
    pub finished: Finished,
    /// What was found: Some exactly where the word `judge`, `promises`, `check` or `drawn` did all. With any other word it is None.
    pub verdict: Option<Verdict>,
}

/// What the program found of a text that it was asked about.
#[derive(Clone, Copy, Debug, PartialEq, Eq)]
pub enum Verdict {
    /// What a journal was judged to be.
    Judged(Judgement),
    /// What the check of a scenario's claims came to.
    Checked(Checked),
}

impl Verdict {
    /// The number by which the program ends: 0 where nothing is to be said against the text, 7 where a line of the journal is wrong or a
    /// claim fails, and 8 where something is open.
    pub fn number(self) -> u8
        ensures { result ≡ verdict_number self }
    {
        match self {
            Verdict::Judged(judgement) => judgement.number(),
            Verdict::Checked(checked) => checked.number(),
        }
    }
}

/// The end of the program by words that find nothing.
pub(crate) fn without_verdict(finished: Finished) -> Conclusion
    ensures { result ≡ record { finished = finished; verdict = None } }
{
    Conclusion {
        finished,
        verdict: None,
    }
}

/// The end of the program with this status, where nothing was found or closed.
pub(crate) fn end_as(status: Status) -> Conclusion
    ensures { result ≡ end_as status }
{
    without_verdict(closed_nothing(status))
}
