//! The one error of a read or a write.
use thiserror::Error;

/// The call failed. The count of faults of its source or sink rose, or stands at its end.
#[derive(Clone, Copy, Debug, PartialEq, Eq, Error)]
#[error("the call failed")]
pub struct Failed;
