//! Requests in hand.

use chorus_ui::Ui;

/// The request that a caller took last and has not replied to: what its reply answers.
#[derive(Clone, Copy, PartialEq, Eq)]
pub struct Hand {
    /// The caller that posted the request.
    pub client: u32,
    /// The client's call number, from 1.
    pub number: u32,
    /// The port to which the reply goes.
    pub back: Ui,
}
