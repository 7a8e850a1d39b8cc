//! The limits of a nucleus, each named once.

/// The most sites of a layout.
pub const SITES_LIMIT: u16 = 16;

/// The most places per site. A site has 1, 2 or 4.
pub const PLACES_PER_SITE_LIMIT: u16 = 4;

/// The most places of a layout.
pub const PLACES_LIMIT: u16 = SITES_LIMIT * PLACES_PER_SITE_LIMIT;

/// The actors of each site, numbered from 1. They are there from the start.
pub const ACTORS_PER_SITE_LIMIT: u64 = 8;

/// The most ports that a site makes.
pub const PORTS_PER_SITE_LIMIT: u64 = 32;

/// The most groups that a site makes.
pub const GROUPS_PER_SITE_LIMIT: u64 = 4;

/// The most members that a group has, and so the most copies of a post.
pub const MEMBERS_LIMIT: usize = 32;

/// The most messages that wait in a port, and so the greatest capacity of one.
pub const PENDING_LIMIT: usize = 64;

/// The most clients that a port remembers.
pub const CLIENTS_LIMIT: usize = 64;

/// The most bytes that a message carries.
pub const BODY_LIMIT: usize = 4_096;

/// The most callers that enter a network, each by a seat of its own.
pub const SEATS_LIMIT: u32 = 1_048_576;

/// The most packets that wait on one link.
pub const LINK_LIMIT: usize = 32;

/// A clock that has come to this is worn, and stamps no further entry.
pub const CLOCK_LIMIT: u64 = 1 << 62;
