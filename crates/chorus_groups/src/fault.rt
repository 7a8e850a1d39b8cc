//! Why a port does not join or leave a group.

use thiserror::Error;

/// Why a port does not join a group, each before those below it. It leaves the groups as they were.
#[derive(Clone, Copy, Debug, PartialEq, Eq, Error)]
pub enum JoinFault {
    /// The group is not made.
    #[error("the group is not made")]
    NoGroup,
    /// The port is a member already.
    #[error("the port is a member already")]
    There,
    /// The group has 32 members.
    #[error("the group has as many members as it may have")]
    MembersFull,
}

/// Why a port does not leave a group, each before those below it. It leaves the groups as they were.
#[derive(Clone, Copy, Debug, PartialEq, Eq, Error)]
pub enum LeaveFault {
    /// The group is not made.
    #[error("the group is not made")]
    NoGroup,
    /// The port is no member.
    #[error("the port is no member")]
    NotThere,
}
