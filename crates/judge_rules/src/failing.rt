//! A condition that fails.

ghost use Rattle.std.specs.Prelude.{◌≡◌};

use crate::about::About;

/// The condition of a rule that is the first to fail.
#[derive(Clone, Copy)]
pub(crate) struct Failed {
    /// Its number in the rule, from 1.
    pub number: u8,
    /// The earlier entry that it is about.
    pub about: About,
}

/// The condition with this number fails, which is about this entry.
pub(crate) fn fails_at(number: u8, about: About) -> Failed
    ensures { result ≡ record { number = number; about = about } }
{
    Failed { number, about }
}
