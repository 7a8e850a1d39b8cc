//! Names, and lists of names and ids.

ghost use Rattle.std.specs.Prelude.{◌≡◌, true};

use chorus_entry::MsgId;
use chorus_ui::{Layout, Ui};

/// Whether the names are the same.
pub(crate) fn is_same_name(one: Ui, other: Ui) -> bool
    ensures { result ≡ true → one ≡ other }
{
    one == other
}

/// Whether the names of two routes are the same, or none is there.
pub(crate) fn is_same_route(one: Option<Ui>, other: Option<Ui>) -> bool
    ensures { result ≡ true → one ≡ other }
{
    match one {
        Some(group) => match other {
            Some(same) => is_same_name(group, same),
            None => false,
        },
        None => other.is_none(),
    }
}

/// Whether two numbers, of a site or of a place, are the same, or none is there.
pub(crate) fn is_same_number(one: Option<u16>, other: Option<u16>) -> bool
    ensures { result ≡ true → one ≡ other }
{
    match one {
        Some(number) => match other {
            Some(same) => number == same,
            None => false,
        },
        None => other.is_none(),
    }
}

/// Whether the names are the same, in one order.
pub(crate) fn are_same_names(one: &[Ui], other: &[Ui]) -> bool
    ensures { result ≡ true → one.now ≡ other.now }
{
    one == other
}

/// Whether the ids are the same, in one order.
pub(crate) fn are_same_ids(one: &[MsgId], other: &[MsgId]) -> bool
    ensures { result ≡ true → one.now ≡ other.now }
{
    one == other
}

/// Whether the layouts are the same.
pub(crate) fn is_same_layout(one: Layout, other: Layout) -> bool
    ensures { result ≡ true → one ≡ other }
{
    one.sites() == other.sites() && one.turns() == other.turns()
}
