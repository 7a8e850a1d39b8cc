//! Why a port is not enabled or disabled.

use thiserror::Error;

/// Why a port is not enabled; the first that applies. The chooser is then as it was.
#[derive(Clone, Copy, Debug, PartialEq, Eq, Error)]
pub enum EnableFault {
    /// The port is enabled already.
    #[error("the port is enabled already")]
    There,
    /// 32 ports are enabled, the most.
    #[error("32 ports are enabled, the most")]
    EnabledFull,
}

/// The port is not enabled. The chooser is then as it was.
#[derive(Clone, Copy, Debug, PartialEq, Eq, Error)]
#[error("the port is not enabled")]
pub struct NotEnabled;
