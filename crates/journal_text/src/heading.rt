//! The first lines of a text of journals.

ghost use Rattle.std.specs.Prelude.{◌≡◌};
ghost use Rattle.journal_text.specs.Headings.{number_after, heading_after};

use crate::fields::one;

/// Which line may come next.
#[derive(Clone, Copy, Debug, PartialEq, Eq)]
pub enum Stage {
    Version,
    Cpus,
    Tasks,
    Seats,
    FirstSeat,
    Entries,
    Done,
}

/// What the first lines have said so far.
#[derive(Clone, Copy, Debug, PartialEq, Eq)]
pub struct Heading {
    pub stage: Stage,
    pub cpus: u32,
    pub tasks: u32,
    pub seats: u32,
}

/// The number behind this very word, and nothing behind it.
fn number_behind(expected: &str, word: &[u8], rest: &[u8]) -> Option<u64>
    ensures { result ≡ number_after expected.now word.now rest.now }
{
    if word == expected.as_bytes() {
        one(rest)
    } else {
        None
    }
}

/// The heading with one more line, if the line may come next.
#[tactic(auto, unfolding(crate::specs::Headings::heading_after))]
pub fn next_heading(heading: Heading, word: &[u8], rest: &[u8]) -> Option<Heading>
    ensures { result ≡ heading_after heading word.now rest.now }
{
    let Heading {
        stage,
        cpus,
        tasks,
        seats,
    } = heading;
    match stage {
        Stage::Version => {
            if number_behind("journal", word, rest)? != 1 {
                return None;
            }
            Some(Heading {
                stage: Stage::Cpus,
                cpus,
                tasks,
                seats,
            })
        }
        Stage::Cpus => {
            let n = number_behind("cpus", word, rest)?;
            if n < 1 || n > 16 {
                return None;
            }
            Some(Heading {
                stage: Stage::Tasks,
                cpus: n as u32,
                tasks,
                seats,
            })
        }
        Stage::Tasks => {
            let n = number_behind("tasks", word, rest)?;
            if n > 200 {
                return None;
            }
            Some(Heading {
                stage: Stage::Seats,
                cpus,
                tasks: n as u32,
                seats,
            })
        }
        Stage::Seats => {
            let n = number_behind("seats", word, rest)?;
            if n < u64::from(cpus) || n > u64::from(cpus) + 4 || n > 20 {
                return None;
            }
            Some(Heading {
                stage: Stage::FirstSeat,
                cpus,
                tasks,
                seats: n as u32,
            })
        }
        Stage::FirstSeat => {
            if number_behind("seat", word, rest)? != 0 {
                return None;
            }
            Some(Heading {
                stage: Stage::Entries,
                cpus,
                tasks,
                seats,
            })
        }
        Stage::Entries | Stage::Done => None,
    }
}
