//! How much of a text is shown.

/// The most characters of a text that are shown.
pub(crate) const SHOWN_LIMIT: usize = 72;

/// The most characters of a body that are shown.
pub const SHOWN_BODY_LIMIT: usize = 24;

/// The most characters of an act that is never cut: its body, if it has one, begins behind its `=`.
pub(crate) const SHORT_ACT_LIMIT: usize = 1 + SHOWN_BODY_LIMIT;
