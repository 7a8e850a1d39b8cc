//! What a journal was judged to be.

ghost use Rattle.std.specs.Prelude.{◌≡◌, length};
ghost use Rattle.chorus_judge.specs.Judgements.{judgement_of, judgement_number};

use chorus_audit::Audit;
use law_judge::OpenAt;

/// What a journal was judged to be.
#[derive(Clone, Copy, Debug, PartialEq, Eq)]
pub enum Judgement {
    /// It is lawful, and nothing is open.
    Quiet,
    /// It is lawful, and something is open.
    Open,
    /// A line of it is wrong.
    Wrong,
}

impl Judgement {
    /// The number by which a program ends that judged a journal to be this: 0, 8 and 7.
    pub fn number(self) -> u8
        ensures { result ≡ judgement_number self }
    {
        match self {
            Judgement::Quiet => 0,
            Judgement::Open => 8,
            Judgement::Wrong => 7,
        }
    }
}

/// What a journal is judged to be of which an audit finds this, and in which this is open.
pub(crate) fn judgement_of(audit: Audit, opens: &[OpenAt]) -> Judgement
    ensures { result ≡ judgement_of audit opens.now }
{
    match audit {
        Audit::Wrong { .. } => Judgement::Wrong,
        Audit::Legal { .. } => match opens {
            [] => Judgement::Quiet,
            [_, ..] => Judgement::Open,
        },
    }
}
