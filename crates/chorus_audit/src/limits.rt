//! What the audit has at most.

/// The most bytes of a text that is audited.
pub const AUDIT_LIMIT: usize = 268_435_456;

/// The rule of a line that is none that may stand there. The rules of the entries are below it.
pub const NO_LINE: u8 = 99;
