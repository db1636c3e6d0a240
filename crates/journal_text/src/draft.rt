//! What the lines of a text have said so far.

ghost use Rattle.std.specs.Prelude.{◌≡◌, ◌≤◌, length, IfOk, OnOk};
ghost use Rattle.journal_text.specs.Lines.{content_len, progress, closed, with_said, is_next, is_last, body_by};
ghost use Rattle.journal_text.specs.Lines.{body_after, words_after, line_after, Takes};
ghost use Rattle.journal_text.specs.Fields.{one_of};

use crate::entries::entry_behind;
use crate::fields::{gap_length, one, word_length};
use crate::heading::{Heading, Stage, next_heading};
use crate::keyword::{Keyword, find_keyword};
use handoff_data::{Entry, Journal, NoMemory};
use std::alloc::Global;
use std::mem;

/// What the lines of a text have said so far: the heading, the journals that are whole, and the entries of the
/// journal that is being read.
#[derive(Drop)]
pub struct Draft {
    pub heading: Heading,
    pub whole: Vec<Journal>,
    pub entries: Vec<Entry>,
}

/// How long the line is without the carriage returns at its end.
#[tactic(auto, unfolding(crate::specs::Lines::content_len))]
fn content_length(line: &[u8]) -> usize
    ensures value { result ≡ content_len line.now }
    ensures within { result ≤ length line.now }
{
    let mut n = line.len();
    while n > 0 && line[n - 1] == b'\r' {
        n -= 1;
    }
    n
}

/// The journal that is being read is whole.
fn close(alloc: Global, draft: &mut Draft) -> Result<(), NoMemory>
    ensures { OnOk result (progress draft.new ≡ closed (progress draft.old)) }
{
    let entries = mem::replace(&mut draft.entries, Vec::new(alloc));
    draft.whole.push(Journal { entries })?;
    Ok(())
}

/// Whether the number behind `seat` is that of the next seat.
fn is_next_seat(draft: &Draft, rest: &[u8]) -> bool
    ensures { result ≡ is_next (one_of rest.now) (progress draft.now) }
{
    let heading = draft.heading;
    match one(rest) {
        None => false,
        Some(i) => i > 0 && i - 1 == draft.whole.len() as u64 && i < u64::from(heading.seats),
    }
}

/// Whether the journal that is being read is that of the last seat, and nothing stands behind `end`.
fn is_last_seat(draft: &Draft, rest: &[u8]) -> bool
    ensures { result ≡ is_last rest.now (progress draft.now) }
{
    let heading = draft.heading;
    rest.is_empty() && heading.seats > 0 && draft.whole.len() as u64 == u64::from(heading.seats) - 1
}

/// Takes an entry, if the line says one.
fn take_entry(draft: &mut Draft, entry: Option<Entry>) -> Result<bool, NoMemory>
    ensures { IfOk result (λ fits. Takes fits (with_said (progress draft.old) entry) (progress draft.new)) }
{
    match entry {
        None => Ok(false),
        Some(entry) => {
            draft.entries.push(entry)?;
            Ok(true)
        }
    }
}

/// Takes a line behind the first `seat` line, if it may come next.
#[tactic(auto, unfolding(crate::specs::Lines::body_after))]
fn take_body(alloc: Global, draft: &mut Draft, word: &[u8], rest: &[u8]) -> Result<bool, NoMemory>
    ensures { IfOk result
        (λ fits. Takes fits (body_after (progress draft.old) word.now rest.now) (progress draft.new)) }
{
    let Some(keyword) = find_keyword(word) else {
        return Ok(false);
    };
    match keyword {
        Keyword::Seat => {
            if !is_next_seat(draft, rest) {
                return Ok(false);
            }
            close(alloc, draft)?;
            Ok(true)
        }
        Keyword::End => {
            if !is_last_seat(draft, rest) {
                return Ok(false);
            }
            close(alloc, draft)?;
            draft.heading.stage = Stage::Done;
            Ok(true)
        }
        _ => take_entry(draft, entry_behind(keyword, rest)),
    }
}

/// Takes a line that isn't blank, if it may come next.
#[tactic(auto, unfolding(crate::specs::Lines::words_after))]
fn take_words(alloc: Global, draft: &mut Draft, word: &[u8], rest: &[u8]) -> Result<bool, NoMemory>
    ensures { IfOk result
        (λ fits. Takes fits (words_after (progress draft.old) word.now rest.now) (progress draft.new)) }
{
    if draft.heading.stage == Stage::Entries {
        return take_body(alloc, draft, word, rest);
    }
    match next_heading(draft.heading, word, rest) {
        None => Ok(false),
        Some(heading) => {
            draft.heading = heading;
            Ok(true)
        }
    }
}

/// Takes a line, if it may come next. One that may not changes nothing. Answers `NoMemory` where memory runs out.
#[tactic(auto, unfolding(crate::specs::Lines::line_after))]
pub fn take_line(alloc: Global, draft: &mut Draft, line: &[u8]) -> Result<bool, NoMemory>
    ensures { IfOk result (λ fits. Takes fits (line_after (progress draft.old) line.now) (progress draft.new)) }
{
    let text = &line[..content_length(line)];
    if gap_length(text) == text.len() {
        return Ok(true);
    }
    let (word, rest) = text.split_at(word_length(text));
    take_words(alloc, draft, word, rest)
}
