//! Lists of events as text. A list is lines, parted by `;`, of these sorts:
//!
//! - `0 take_task 1`: an event, by its seat. It has to be possible where it stands.
//! - `not 0 take_task 1 -- why`: an event that has to be impossible there.
//! - `journal 0 new 1 1 0 , pick 1 1 0`: the journal of a seat, whole.
//! - `owes 0 1` and `owes_not 0 1`: whether a seat owes a condition a walk of its wait queue.
//! - `cond 0 1`: the value of a condition.
//! - what `looks` says of what a seat has read, tested and noted.
//! - `opening`: what follows begins anew, with the opening core.
//!
//! A word that is the name of a part stands for that part.

use super::looks::is_so;
use super::parts::part;
use super::words::Word::*;
use super::words::{Word, entry_of, event_of, word_of};
use core_data::{Act, Core};
use handoff_core::{Event, law_run, start_core, step_core};
use handoff_data::{Entry, NoMemory, Shape};
use std::alloc::Global;
use std::process::Abort;
use step_data::pos;

/// Two processors, whose seats are 0 and 1, an agent, whose seat is 2, two tasks, and two conditions.
const MACHINE: Shape = Shape {
    cpus: 2,
    caches: 1,
    tasks: 2,
    conds: 2,
    agents: 1,
};

/// The words of a list, with those of the parts that it names.
fn words_of<'a>(alloc: Global, text: &'a str) -> Result<Vec<Word<'a>>, NoMemory> {
    let mut words = Vec::new(alloc);
    for word in text.split_whitespace() {
        match part(word) {
            Some(steps) => add_words(&mut words, steps)?,
            None => words.push(word_of(word))?,
        }
    }
    Ok(words)
}

fn add_words<'a>(words: &mut Vec<Word<'a>>, text: &'a str) -> Result<(), NoMemory> {
    for word in text.split_whitespace() {
        words.push(word_of(word))?;
    }
    Ok(())
}

/// What a list has come to: its events since the opening, and the core after them.
#[derive(Drop)]
struct Played {
    events: Vec<Event>,
    core: Core,
}

fn opening(alloc: Global) -> Result<Played, NoMemory> {
    Ok(Played {
        events: Vec::new(alloc),
        core: start_core(alloc, &MACHINE)?,
    })
}

/// Goes on by an event that is possible: `step_core` has a core after it. Whether it is.
fn go(played: &mut Played, event: Event) -> Result<bool, NoMemory> {
    let Some(core) = step_core(&played.core, &event)? else {
        return Ok(false);
    };
    played.core = core;
    played.events.push(event)?;
    Ok(true)
}

/// How many of the events `law_run` takes, and whether it comes to a core with the same journals.
fn run_of(alloc: Global, played: &Played) -> Result<(usize, bool), NoMemory> {
    let run = law_run(start_core(alloc, &MACHINE)?, played.events.as_slice())?;
    let same = (0..3).all(|seat| journal(&run.core, seat) == journal(&played.core, seat));
    Ok((run.taken, same))
}

/// Whether `law_run` takes all events, to a core with the same journals.
fn is_whole(alloc: Global, played: &Played) -> Result<bool, NoMemory> {
    Ok(run_of(alloc, played)? == (played.events.len(), true))
}

/// Whether an event isn't possible: `step_core` has no core after it, and `law_run` takes all events before it.
fn is_impossible(alloc: Global, played: &mut Played, event: Event) -> Result<bool, NoMemory> {
    if step_core(&played.core, &event)?.is_some() {
        return Ok(false);
    }
    let before = played.events.len();
    played.events.push(event)?;
    let stops = run_of(alloc, played)? == (before, true);
    let _ = played.events.pop();
    Ok(stops)
}

/// The journal of a seat.
fn journal(core: &Core, seat: usize) -> Option<&[Entry]> {
    let words = core.seats.get(seat)?;
    Some(words.journal.entries.as_slice())
}

/// Whether the journal of a seat is what is said.
fn is_journal(alloc: Global, core: &Core, seat: u32, words: &[Word<'_>]) -> Result<bool, NoMemory> {
    let mut entries = Vec::new(alloc);
    for said in words.split(|word| matches!(word, Name(","))) {
        match entry_of(said) {
            Some(entry) => entries.push(entry)?,
            None if words.is_empty() => {}
            None => return Ok(false),
        }
    }
    Ok(journal(core, seat as usize) == Some(entries.as_slice()))
}

/// Whether a seat owes a condition a walk, if there is such a seat.
fn owes(core: &Core, seat: u32, k: u32) -> Option<bool> {
    let words = core.seats.get(seat as usize)?;
    Some(pos::is_since(&words.pos, Act::Bumped { k }, Act::Walked { k }))
}

/// Whether a condition has this value.
fn is_cond(core: &Core, k: u32, value: u32) -> bool {
    match core.conds.get(k as usize) {
        Some(words) => words.cond == u64::from(value),
        None => false,
    }
}

/// Goes on by one line; whether it is as it should be.
fn play_line(alloc: Global, played: &mut Played, line: &[Word<'_>]) -> Result<bool, NoMemory> {
    match line {
        [] => Ok(true),
        [Name("opening")] => {
            let whole = is_whole(alloc, played)?;
            *played = opening(alloc)?;
            Ok(whole)
        }
        [Name("journal"), Number(seat), rest @ ..] => is_journal(alloc, &played.core, *seat, rest),
        [Name("owes"), Number(seat), Number(k)] => Ok(owes(&played.core, *seat, *k) == Some(true)),
        [Name("owes_not"), Number(seat), Number(k)] => Ok(
            owes(&played.core, *seat, *k) == Some(false),
        ),
        [Name("cond"), Number(k), Number(value)] => Ok(is_cond(&played.core, *k, *value)),
        [Name("not"), rest @ ..] => match rest.split(|word| matches!(word, Name("--"))).next() {
            Some(said) => match event_of(alloc, said)? {
                Some(event) => is_impossible(alloc, played, event),
                None => Ok(false),
            },
            None => Ok(false),
        },
        _ => match event_of(alloc, line)? {
            Some(event) => go(played, event),
            None => Ok(is_so(&played.core, line)),
        },
    }
}

/// Plays a list from the opening core, and answers the first line, from 0, that isn't as it should be: an event that
/// isn't possible, one that is and shouldn't be, something of the core that isn't so, or a word that means nothing.
/// Answers `NoMemory` where memory runs out.
pub fn wrong_line(alloc: Global, text: &str) -> Result<Option<usize>, NoMemory> {
    let words = words_of(alloc, text)?;
    let mut played = opening(alloc)?;
    let mut lines = 0;
    for line in words.split(|word| matches!(word, Name(";"))) {
        if !play_line(alloc, &mut played, line)? {
            return Ok(Some(lines));
        }
        lines = lines.saturating_add(1);
    }
    if is_whole(alloc, &played)? {
        return Ok(None);
    }
    Ok(Some(lines))
}

/// Plays a list, each line of which has to be as it should be. Answers `NoMemory` where memory runs out.
pub fn plays<R: Abort + AllocGlobal>(rt: &R, list: &str) -> Result<(), NoMemory> {
    assert_eq!(rt; wrong_line(rt.alloc(), list)?, None);
    Ok(())
}
