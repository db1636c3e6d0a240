//! Reading a whole text.

ghost use Rattle.std.specs.Prelude.{◌≡◌, ◌<◌, ◌^◌, Ok, MatchResult};
ghost use Rattle.journal_text.specs.Text.{reading, last_of, history_of, blank_progress, IsFault};
ghost use Rattle.journal_text.specs.Lines.{progress};

use crate::draft::{Draft, take_line};
use crate::fields::find_byte;
use crate::heading::{Heading, Stage};
use handoff_data::{Journals, NoMemory};
use std::alloc::Global;
use std::error::Error;
use std::fmt;

/// How many bytes a text may have.
pub const TEXT_LIMIT: usize = 268_435_456;

/// Why bytes are no text of journals: the first line that may not stand where it does, counted from 1. Or memory
/// was refused.
#[derive(Clone, Copy, Debug, PartialEq, Eq)]
pub enum JournalError {
    Text { line: u64 },
    NoMemory,
}

impl fmt::Display for JournalError {
    fn fmt<W: fmt::Write>(&self, f: &mut fmt::Formatter<W>) -> fmt::Result {
        match self {
            JournalError::Text { line } => write!(f, "line {line} may not stand here"),
            JournalError::NoMemory => write!(f, "no memory"),
        }
    }
}

impl Error for JournalError {}

impl From<NoMemory> for JournalError {
    ghost use Rattle.std.specs.Prelude.{◌≡◌};
    ghost use Rattle.journal_text.specs.declared.reading.JournalError.TheVariants.{NoMemory as refused};

    ghost from_gives = { λ _ e. e ≡ refused };

    fn from(_refused: NoMemory) -> JournalError {
        JournalError::NoMemory
    }
}

/// A draft before the first line.
fn new_draft(alloc: Global) -> Draft
    ensures { progress result ≡ blank_progress }
{
    Draft {
        heading: Heading {
            stage: Stage::Version,
            cpus: 0,
            tasks: 0,
            seats: 0,
        },
        whole: Vec::new(alloc),
        entries: Vec::new(alloc),
    }
}

/// The journals that the lines have said, or the line on which `end` is missing.
#[tactic(auto, unfolding(crate::specs::Text::history_of))]
fn finish(draft: Draft, line: u64) -> Result<Journals, JournalError>
    ensures { MatchResult result (λ j. history_of (progress draft) line ≡ Ok j)
        (λ e. IsFault e (history_of (progress draft) line)) }
{
    let Draft {
        heading,
        whole,
        entries: _,
    } = draft;
    if heading.stage == Stage::Done {
        Ok(Journals {
            cpus: heading.cpus,
            tasks: heading.tasks,
            seats: whole,
        })
    } else {
        Err(JournalError::Text { line })
    }
}

/// Reads the last line, which has no line feed. No byte is no line.
#[tactic(auto, unfolding(crate::specs::Text::last_of))]
fn finish_with(
    alloc: Global,
    mut draft: Draft,
    text: &[u8],
    line: u64,
    room: usize,
) -> Result<Journals, JournalError>
    requires { line < 2 ^ 63 }
    ensures { MatchResult result (λ j. last_of line room (progress draft) text.now ≡ Ok j)
        (λ e. IsFault e (last_of line room (progress draft) text.now)) }
{
    if text.is_empty() {
        return finish(draft, line);
    }
    if text.len() > room {
        return Err(JournalError::Text { line });
    }
    if !take_line(alloc, &mut draft, text)? {
        return Err(JournalError::Text { line });
    }
    finish(draft, line + 1)
}

/// Reads a text of journals. `Text` names the first line that may not stand where it does.
pub fn read_journal(alloc: Global, bytes: &[u8]) -> Result<Journals, JournalError>
    ensures { MatchResult result (λ j. reading bytes.now ≡ Ok j) (λ e. IsFault e (reading bytes.now)) }
{
    let mut draft = new_draft(alloc);
    let mut rest = bytes;
    let mut line = 1u64;
    let mut room = TEXT_LIMIT;
    'lines: loop {
        let (text, others) = rest.split_at(find_byte(rest, b'\n'));
        let Some((_feed, more)) = others.split_first() else {
            return finish_with(alloc, draft, text, line, room);
        };
        if text.len() >= room {
            return Err(JournalError::Text { line });
        }
        if !take_line(alloc, &mut draft, text)? {
            return Err(JournalError::Text { line });
        }
        room -= text.len() + 1;
        line += 1;
        rest = more;
    }
}
