//! What the program's words ask.

/// The most commands that the words of a load, or of a crew, ask.
pub const LOAD_LIMIT: u32 = 65_536;

/// The most events that the word `explore` alone asks to be carried out.
pub const EXPLORE_MOST: u32 = 1_000_000;

/// The state from which the words `explore` and `explore MOST` have schedules drawn, where a limit is met.
pub const EXPLORE_FIRST: u64 = 1;

/// The most events that the word `check` alone asks to be carried out.
pub const CHECK_MOST: u32 = 1_000_000;

/// What the program's words ask.
#[derive(Clone, Copy, Debug, PartialEq, Eq)]
pub enum Words {
    /// `replay`: a scenario is replayed.
    Replay,
    /// `run`: a scenario is performed on running threads.
    Run,
    /// `run TURNS`: so it is on sites with so many places each: 1, 2 or 4.
    RunOn { turns: u16 },
    /// `load FIRST COMMANDS`: so many commands, at most [`LOAD_LIMIT`], are drawn from the first state on.
    Load { first: u64, commands: u32 },
    /// `audit SITES TURNS`: a printed journal is audited, for so many sites with so many places each: a layout that exists.
    Audit { sites: u16, turns: u16 },
    /// `judge`: a printed journal is judged, for 16 sites of one place each.
    Judge,
    /// `judge SITES TURNS`: so it is for a layout as of an audit.
    JudgeFor { sites: u16, turns: u16 },
    /// `promises`: a printed journal is judged by promises, for the layout of a judgement.
    Promises,
    /// `promises SITES TURNS`: so it is for a layout as of an audit.
    PromisesFor { sites: u16, turns: u16 },
    /// `picture SITES TURNS`: a printed journal is drawn, for a layout as of an audit.
    Picture { sites: u16, turns: u16 },
    /// `lossy FIRST`: the input is carried over a line whose losses are drawn from the first state on.
    Lossy { first: u64 },
    /// `crew FIRST COMMANDS`: of so many commands, at most [`LOAD_LIMIT`], that are drawn from the first state on, those that send to a
    /// port are performed, and a crew handles what was sent.
    Crew { first: u64, commands: u32 },
    /// `explore`: what may come of a scenario is told, with at most [`EXPLORE_MOST`] events carried out; where that limit is met,
    /// also what schedules come to that are drawn from [`EXPLORE_FIRST`] on.
    Explore,
    /// `explore MOST`: so it is with so many events at most.
    ExploreMost { most: u32 },
    /// `explore MOST FIRST`: and schedules are drawn from this first state on.
    ExploreFrom { most: u32, first: u64 },
    /// `check`: each claim of a scenario is checked over every schedule, with at most [`CHECK_MOST`] events carried out.
    Check,
    /// `check MOST`: so it is with so many events at most.
    CheckMost { most: u32 },
    /// `drawn COUNT FIRST`: each claim of a scenario is asked of so many schedules, which are drawn from the first state on.
    CheckDrawn { count: u32, first: u64 },
}
