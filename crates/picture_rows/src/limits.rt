//! What a picture has at most.

/// The most entries that are drawn.
pub const ENTRIES_LIMIT: u32 = 10_000;
