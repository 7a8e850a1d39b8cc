//! Tables of scenarios, played over places.

use crate::groups::GROUPS;
use crate::messages::MESSAGES;
use crate::migration::MOVES;
use crate::names::NAMES;
use crate::playing::assert_rows;

/// Each scenario of the tables is played over places that are handed packets, and leaves its journals.
#[test]
fn scenarios_are_played(rt: HostRuntime) {
    for table in [GROUPS, MESSAGES, MOVES, NAMES] {
        assert_rows(&rt, rt.alloc(), table);
    }
}
