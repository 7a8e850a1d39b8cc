//! What is compared of an exploration: how many histories there are, how many single facts and how many outcomes, the latter two each with a
//! sum over their lines that does not depend on their order. The lines that are in each outcome are summed once, as those of an outcome of
//! their own. To the lines of an outcome belongs how many histories come to it. Where there are more than 64 outcomes the exploration tells
//! none of them.

use chorus_io::{Failed, Sink, write_all};
use chorus_ui::parse_decimal;

/// What is compared of an exploration.
#[derive(Clone, Copy)]
pub(crate) struct Digest {
    histories: u64,
    facts: u64,
    facts_sum: u64,
    outcomes: u64,
    outcomes_sum: u64,
    /// That of the outcome which is gone through.
    outcome_sum: u64,
    /// Whether all that may come is told.
    is_whole: bool,
    part: Part,
}

/// The part of the text that is gone through.
#[derive(Clone, Copy)]
enum Part {
    Head,
    Facts,
    Outcomes,
    Schedules,
}

/// The digest of the text of an exploration.
pub(crate) fn digest_of(text: &[u8]) -> Digest {
    let mut digest = Digest {
        histories: 0,
        facts: 0,
        facts_sum: 0,
        outcomes: 0,
        outcomes_sum: 0,
        outcome_sum: 0,
        is_whole: false,
        part: Part::Head,
    };
    for line in text.split(|byte| *byte == b'\n') {
        digest = digest.with_line(line);
    }
    digest
}

impl Digest {
    /// Prints the digest. Where the text of the exploration does not tell of all that may come, only that.
    pub(crate) fn say<K: Sink>(&self, output: &mut K) -> Result<(), Failed> {
        if !self.is_whole {
            return write_all(output, b"not explored\n");
        }
        say_number(b"", self.histories, output)?;
        say_number(b" ", self.facts, output)?;
        say_number(b" ", self.facts_sum, output)?;
        say_number(b" ", self.outcomes, output)?;
        say_number(b" ", self.outcomes_sum, output)?;
        write_all(output, b"\n")
    }

    /// The digest with one line more of the exploration's text.
    fn with_line(self, line: &[u8]) -> Digest {
        if line.is_empty() {
            self
        } else if line.starts_with(b"facts ") {
            Digest {
                part: Part::Facts,
                ..self
            }
        } else if let Some(outcomes) = number_behind(b"outcomes ", line) {
            Digest {
                part: Part::Outcomes,
                outcomes,
                ..self
            }
        } else if begins_outcome(line) {
            self.with_outcome(line)
        } else {
            self.with_line_of_part(line)
        }
    }

    /// The digest with the outcome that was gone through, where another one or a schedule begins.
    fn with_outcome(self, line: &[u8]) -> Digest {
        let is_schedule = line.starts_with(b"schedule ");
        Digest {
            outcomes_sum: self.outcomes_sum.wrapping_add(self.outcome_sum),
            outcome_sum: 0,
            part: if is_schedule {
                Part::Schedules
            } else {
                self.part
            },
            ..self
        }
    }

    /// The digest with a line of the part that is gone through: in front, a fact, or one of an outcome.
    fn with_line_of_part(self, line: &[u8]) -> Digest {
        match self.part {
            Part::Head => self.with_front(line),
            Part::Facts => Digest {
                facts: self.facts.wrapping_add(1),
                facts_sum: self
                    .facts_sum
                    .wrapping_add(sum_on(0, behind_space(behind_space(line)))),
                ..self
            },
            Part::Outcomes => Digest {
                outcome_sum: sum_on(self.outcome_sum, line),
                ..self
            },
            Part::Schedules => self,
        }
    }

    /// The digest with a line in front of the facts.
    fn with_front(self, line: &[u8]) -> Digest {
        if let Some(histories) = number_behind(b"histories ", line) {
            Digest { histories, ..self }
        } else {
            Digest {
                is_whole: self.is_whole || line == b"all".as_slice(),
                ..self
            }
        }
    }
}

/// Whether an outcome or a schedule begins with the line of an exploration, or the lines that are in each outcome.
fn begins_outcome(line: &[u8]) -> bool {
    line.starts_with(b"always ") || line.starts_with(b"outcome ") || line.starts_with(b"schedule ")
}

/// What stands behind the first space in a line of an exploration, all of it where there is none.
fn behind_space(line: &[u8]) -> &[u8] {
    match line.iter().position(|byte| *byte == b' ') {
        Some(index) => &line[index + 1..],
        None => line,
    }
}

/// The number that follows the word in a line of an exploration. None where it is another line.
fn number_behind(word: &[u8], line: &[u8]) -> Option<u64> {
    parse_decimal(line.strip_prefix(word)?)
}

/// A digest's sum of the line and its LF in which their places count, from what the lines before gave.
fn sum_on(before: u64, line: &[u8]) -> u64 {
    let mut sum = before;
    for byte in line {
        sum = sum.wrapping_mul(31).wrapping_add(u64::from(*byte));
    }
    sum.wrapping_mul(31).wrapping_add(u64::from(b'\n'))
}

/// Prints the text and the number, of a digest or of how a case ended.
pub(crate) fn say_number<K: Sink>(text: &[u8], number: u64, output: &mut K) -> Result<(), Failed> {
    write_all(output, text)?;
    let mut buffer = itoa::Buffer::new();
    write_all(output, buffer.format(number).as_bytes())
}
