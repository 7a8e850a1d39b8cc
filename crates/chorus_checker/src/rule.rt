//! The numbers of the rules.

ghost use Rattle.std.specs.Prelude.{◌≡◌};
ghost use Rattle.chorus_checker.specs.Rules.{act_number};

use chorus_entry::Act;

/// The number of the act, which is that of the rule that the checker names.
pub(crate) fn act_number(act: &Act) -> u8
    ensures { result ≡ act_number act.now }
{
    match act {
        Act::Make { .. } => 1,
        Act::MakeFull { .. } => 2,
        Act::NoActor { .. } => 3,
        Act::NoSite { .. } => 4,
        Act::Post { .. } => 5,
        Act::Accept { .. } => 6,
        Act::Full { .. } => 7,
        Act::Already { .. } => 8,
        Act::ClientsFull { .. } => 9,
        Act::Stale { .. } => 10,
        Act::Early { .. } => 11,
        Act::NoPort { .. } => 12,
        Act::Elsewhere { .. } => 13,
        Act::NoMember { .. } => 14,
        Act::Choose { .. } => 15,
        Act::Try { .. } => 16,
        Act::Told { .. } => 17,
        Act::Heard { .. } => 18,
        Act::Take { .. } => 19,
        Act::Done { .. } => 20,
        Act::Late { .. } => 21,
        Act::Empty { .. } => 22,
        Act::NotHere { .. } => 23,
        Act::Rehome { .. } => 24,
        Act::Depart { .. } => 25,
        Act::Arrive { .. } => 26,
        Act::GroupMake { .. } => 27,
        Act::GroupsFull { .. } => 28,
        Act::Join { .. } => 29,
        Act::Leave { .. } => 30,
        Act::NoGroup { .. } => 31,
        Act::There { .. } => 32,
        Act::NotThere { .. } => 33,
        Act::MembersFull { .. } => 34,
        Act::Outstanding { .. } => 35,
        Act::NoCall => 36,
        Act::NoRequest => 37,
        Act::Cancel { .. } => 38,
        Act::Delete { .. } => 39,
        Act::Gone { .. } => 40,
    }
}
