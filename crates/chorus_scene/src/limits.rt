//! The limits of a text and of what it says. Those of actors, ports, members and bodies are the nucleus's.

/// The most bytes of a text: 4 MiB.
pub const TEXT_LIMIT: usize = 4_194_304;

/// The most sites in version 1.
pub const VERSION_ONE_SITES: u16 = 8;

/// The most bytes of a body in version 1.
pub const VERSION_ONE_BODY: usize = 240;

/// The most scripts of a scenario.
pub const SCRIPTS_LIMIT: usize = 16;

/// The most commands of a script.
pub const COMMANDS_LIMIT: usize = 4_096;

/// The most claims of a scenario.
pub const CLAIMS_LIMIT: usize = 64;

/// The most steps of a schedule.
pub const STEPS_LIMIT: usize = 131_072;
