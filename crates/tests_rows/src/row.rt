//! What a worked row is.

/// A worked row: a scenario, and what comes of it, worked out by hand.
#[derive(Clone, Copy)]
pub struct WorkedRow<'a> {
    /// Its name.
    pub name: &'a str,
    /// How many sites there are.
    pub sites: u16,
    /// How many places a site has.
    pub turns: u16,
    /// The text of the scenario.
    pub text: &'a str,
    /// What a replay of it prints: the lines of all journals, by clock and then by place, and the summary.
    pub printed: &'a str,
}
