//! The words that lines begin with, and where they may stand.

ghost use Rattle.std.specs.Prelude.{◌≡◌};
ghost use Rattle.chorus_lines.specs.Words.{word_of, verb_of, may_stand};

/// What a message is posted to, where the line says only that.
#[derive(Clone, Copy, PartialEq, Eq)]
pub enum Target {
    /// To a port.
    Port,
    /// To each member of a group.
    All,
    /// To one member of a group.
    One,
}

/// The word of a command.
#[derive(Clone, Copy, PartialEq, Eq)]
pub enum Verb {
    /// `send`, `all` or `one`: sends to the target.
    Send(Target),
    /// `at`: sends to one member of a group that is on a site.
    At,
    /// `call`: calls a port.
    Call,
    /// `retry`: sends the outstanding call again.
    Retry,
    /// `cancel`: ends the outstanding call.
    Cancel,
    /// `reply`: replies to the request in hand.
    Reply,
    /// `take`: receives from a port.
    Take,
    /// `move`: moves a port to an actor.
    Move,
    /// `delete`: deletes a port.
    Delete,
    /// `newport`: makes a port.
    NewPort,
    /// `newgroup`: makes a group.
    NewGroup,
    /// `join`: a port joins a group.
    Join,
    /// `leave`: a port leaves a group.
    Leave,
}

/// The first field of a line.
#[derive(Clone, Copy, PartialEq, Eq)]
pub enum Word {
    /// `chorus`: says the version.
    Chorus,
    /// `sites`: says how many sites there are.
    Sites,
    /// `port`: a setup line that makes a port.
    Port,
    /// `group`: a setup line that makes a group.
    Group,
    /// `member`: a setup line by which a port joins a group.
    Member,
    /// `script`: begins the script of a caller.
    Script,
    /// The word of a command.
    Command(Verb),
    /// `await`: a command that waits for a message in a port, and receives it.
    Await,
    /// `claim`: says what is to be checked.
    Claim,
    /// `schedule`: ends the scripts and the claims.
    Schedule,
    /// `step`: the next command of a script is done.
    Step,
    /// `deliver`: the first packet that waits to go from one place to another is worked off there.
    Deliver,
    /// `drain`: packets are worked off until none is left.
    Drain,
    /// `end`: ends the text.
    End,
}

/// How far a text has come, which decides what may follow.
#[derive(Clone, Copy, PartialEq, Eq)]
pub enum Section {
    /// Before the head.
    Head,
    /// Before the line `sites`.
    Sites,
    /// In the setup.
    Setup,
    /// In the scripts.
    Scripts,
    /// In the claims.
    Claims,
    /// In the schedule.
    Schedule,
    /// Behind the end.
    Ended,
}

/// Why a line is refused, in the order of the numbers from 1.
#[derive(Clone, Copy, Debug, PartialEq, Eq)]
pub enum Reason {
    /// It is the first that says something, and is not the head.
    Header,
    /// Its word is none of the version, or its fields are too few, too many, one of them empty, or a body without its mark; or
    /// what stands behind `claim` is no claim.
    Word,
    /// A decimal, a name or the digits of a body are not spelled as said, or a name is of another kind.
    Number,
    /// It names a site or an actor that there is not, in a `member` line what no earlier line made, or in a claim a script or a
    /// command that there is not.
    Unknown,
    /// A setup line makes what an earlier one made, a member is one already, or an earlier line has the same claim.
    Twice,
    /// A number or a count is beyond its limit.
    Limit,
    /// Its word may not stand there, or a setup line says another name than the making gives.
    Order,
    /// It has a byte outside 0x20 to 0x7E.
    Text,
    /// The text ends before its line `end`.
    Unfinished,
    /// A `step` names no script with a command left, or a `deliver` no two different places of the sites.
    Schedule,
}

/// The word that a line begins with. None exactly where it is no word of the version; `claim` and `await` are from version 3
/// on.
#[tactic(auto, unfolding(crate::specs::Words::word_of))]
pub fn word_of(version: u8, text: &[u8]) -> Option<Word>
    ensures { result ≡ word_of version text.now }
{
    if text == b"chorus".as_slice() {
        Some(Word::Chorus)
    } else if text == b"sites".as_slice() {
        Some(Word::Sites)
    } else if text == b"port".as_slice() {
        Some(Word::Port)
    } else if text == b"group".as_slice() {
        Some(Word::Group)
    } else if text == b"member".as_slice() {
        Some(Word::Member)
    } else if text == b"script".as_slice() {
        Some(Word::Script)
    } else if text == b"schedule".as_slice() {
        Some(Word::Schedule)
    } else if text == b"step".as_slice() {
        Some(Word::Step)
    } else if text == b"deliver".as_slice() {
        Some(Word::Deliver)
    } else if text == b"drain".as_slice() {
        Some(Word::Drain)
    } else if text == b"end".as_slice() {
        Some(Word::End)
    } else if text == b"claim".as_slice() {
        if version >= 3 {
            Some(Word::Claim)
        } else {
            None
        }
    } else if text == b"await".as_slice() {
        if version >= 3 {
            Some(Word::Await)
        } else {
            None
        }
    } else {
        Some(Word::Command(verb_of(version, text)?))
    }
}

/// The word of a command. `delete` is one from version 2 on.
#[tactic(auto, unfolding(crate::specs::Words::verb_of))]
fn verb_of(version: u8, text: &[u8]) -> Option<Verb>
    ensures { result ≡ verb_of version text.now }
{
    if text == b"send".as_slice() {
        Some(Verb::Send(Target::Port))
    } else if text == b"all".as_slice() {
        Some(Verb::Send(Target::All))
    } else if text == b"one".as_slice() {
        Some(Verb::Send(Target::One))
    } else if text == b"at".as_slice() {
        Some(Verb::At)
    } else if text == b"call".as_slice() {
        Some(Verb::Call)
    } else if text == b"retry".as_slice() {
        Some(Verb::Retry)
    } else if text == b"cancel".as_slice() {
        Some(Verb::Cancel)
    } else if text == b"reply".as_slice() {
        Some(Verb::Reply)
    } else if text == b"take".as_slice() {
        Some(Verb::Take)
    } else if text == b"move".as_slice() {
        Some(Verb::Move)
    } else if text == b"newport".as_slice() {
        Some(Verb::NewPort)
    } else if text == b"newgroup".as_slice() {
        Some(Verb::NewGroup)
    } else if text == b"join".as_slice() {
        Some(Verb::Join)
    } else if text == b"leave".as_slice() {
        Some(Verb::Leave)
    } else if text == b"delete".as_slice() {
        if version >= 2 {
            Some(Verb::Delete)
        } else {
            None
        }
    } else {
        None
    }
}

/// Whether the word may follow the lines of the section.
pub fn may_stand(section: Section, word: Word) -> bool
    ensures { result ≡ may_stand section word }
{
    match section {
        Section::Head | Section::Ended => false,
        Section::Sites => matches!(word, Word::Sites),
        Section::Setup => matches!(
            word,
            Word::Port | Word::Group | Word::Member | Word::Script | Word::Claim | Word::Schedule
        ),
        Section::Scripts => matches!(
            word,
            Word::Script | Word::Command(_) | Word::Await | Word::Claim | Word::Schedule
        ),
        Section::Claims => matches!(word, Word::Claim | Word::Schedule),
        Section::Schedule => matches!(word, Word::Step | Word::Deliver | Word::Drain | Word::End),
    }
}
