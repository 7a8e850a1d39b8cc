//! What worked rows print.

use crate::running::{assert_prints, assert_refused};
use chorus_ui::Layout;
use std::alloc::Global;
use std::process::Abort;
use tests_rows::{
    BROADCAST_MEETS_FULL, CALL_AND_REPLY_ON_ONE_SITE, DELETE_AFTER_A_MOVE, DELETE_DISCARDS,
    EARLY_THEN_ARRIVE, FULL_THEN_TAKEN_THEN_EMPTY, FUNCTIONAL_AT_A_SITE, FUNCTIONAL_SEND_ROTATES,
    FUNCTIONAL_WHERE_THE_PORT_COMES_HOME, MIGRATION_KEEPS_WAITING_MESSAGES, NO_PORT,
    ONE_MESSAGE_UNDER_WAY_PER_ROUTE, REHOME_ON_ONE_SITE, REPORT_REACHES_THE_HOME_PLACE,
    RETRY_ACROSS_A_MOVE_IS_ACCEPTED_ONCE, STALE_JUMPS_OVER_HOPS, STALE_PLACE_NAMES_THE_NEWER_ONE,
    TWO_SITES_SEND_TO_ONE_PORT, TWO_TURNS_AND_A_MOVE, TWO_TURNS_PER_SITE, WorkedRow,
};

/// Asserts that the row is replayed on its sites and printed, whatever a write takes.
fn assert_row(rt: &impl Abort, alloc: Global, row: &WorkedRow<'_>) {
    let layout = Layout::new(row.sites, row.turns).expect(rt, "a layout");
    assert_prints(rt, alloc, layout, row.name, row.text, row.printed);
}

/// The replay of each worked row prints its journal.
#[test]
fn worked_rows_are_replayed(rt: HostRuntime) {
    for row in [
        BROADCAST_MEETS_FULL,
        CALL_AND_REPLY_ON_ONE_SITE,
        EARLY_THEN_ARRIVE,
        FULL_THEN_TAKEN_THEN_EMPTY,
        FUNCTIONAL_AT_A_SITE,
        FUNCTIONAL_SEND_ROTATES,
        FUNCTIONAL_WHERE_THE_PORT_COMES_HOME,
        MIGRATION_KEEPS_WAITING_MESSAGES,
        NO_PORT,
        ONE_MESSAGE_UNDER_WAY_PER_ROUTE,
        REHOME_ON_ONE_SITE,
        REPORT_REACHES_THE_HOME_PLACE,
        RETRY_ACROSS_A_MOVE_IS_ACCEPTED_ONCE,
        STALE_JUMPS_OVER_HOPS,
        STALE_PLACE_NAMES_THE_NEWER_ONE,
        TWO_SITES_SEND_TO_ONE_PORT,
        TWO_TURNS_AND_A_MOVE,
        TWO_TURNS_PER_SITE,
    ] {
        assert_row(&rt, rt.alloc(), &row);
    }
}

/// Asserts that the replay of the row as a text of version 1 is refused for its delete.
fn assert_version_one_refuses_delete(rt: &impl Abort, alloc: Global) {
    let text = DELETE_AFTER_A_MOVE.text;
    let lines = text.strip_prefix("chorus 2").expect(rt, "version 2");
    let text = format!(in alloc; "chorus 1{lines}").expect(rt, "memory");
    assert_refused(rt, alloc, "version 1", text.as_str(), 9, 2);
}

/// The replay of the worked rows of `delete` prints their journals; version 1 refuses it.
#[test]
fn delete_in_scenarios(rt: HostRuntime) {
    for row in [DELETE_AFTER_A_MOVE, DELETE_DISCARDS] {
        assert_row(&rt, rt.alloc(), &row);
    }
    assert_version_one_refuses_delete(&rt, rt.alloc());
}
