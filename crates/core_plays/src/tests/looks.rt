//! What a list may say of a seat's position. Seat 0, task 1, condition 2:
//!
//! - `tested 0 1 2 3`: it has 3 as the task's test of the condition; `untested 0 1 2`: it has none.
//! - `asleep 0 1 2` and `awake 0 1 2`: whether it has the task as put to sleep at the condition.
//! - `read 0 1 state TASK_RUNNING`, `read 0 1 rq 1 4`, `read 0 1 busy` or `read 0 1 idle`, `read 0 1 number 4`,
//!   `read 0 1 cpu 0`: what it read last of the task; `unread 0 1 state` and so on: it has no such read.
//! - `seen 0 TASK_RUNNING`: the state of its current task that it read under its own queue's lock; `seen 0 -`: none.
//! - `level 0 2`: the migrate-disable level of its current task, as it read it since it picked it; `level 0 -`: none.
//! - `rests 0 1 state`, `rests 0 1 rq`, `rests 0 1 busy`: whether it has read, since it last stored a word of the task,
//!   another state than TASK_WAKING; then `on_rq` as 0; then the busy word as clear. `rests_not` is the opposite.

use super::words::Word::*;
use super::words::{Word, state_of};
use core_data::{Act, Core, Pos, TaskReads};
use handoff_data::State;
use step_data::pos::is_since;

/// What a seat has as the test of a task at a condition, if it has one.
fn tested_of(pos: &Pos, t: u32, k: u32) -> Option<u64> {
    for test in pos.tests.as_slice() {
        if test.t == t && test.k == k {
            return Some(test.v);
        }
    }
    None
}

/// Whether a seat has a task as put to sleep at a condition.
fn sleeps_at(pos: &Pos, t: u32, k: u32) -> bool {
    pos.asleep.as_slice().iter().any(|x| x.t == t && x.k == k)
}

/// What a seat read last of a task, if anything.
fn last_reads_of(pos: &Pos, t: u32) -> Option<TaskReads> {
    for reads in pos.reads.as_slice() {
        if reads.t == t {
            return Some(*reads);
        }
    }
    None
}

fn is_state(state: Option<State>, name: &str) -> bool {
    match (state, state_of(name)) {
        (Some(state), Some(said)) => state.0 == said.0,
        (None, None) => name == "-",
        _ => false,
    }
}

/// Whether a read is as it is said.
fn is_read(reads: &TaskReads, said: &[Word<'_>]) -> bool {
    match said {
        [Name("state"), Name(name)] => is_state(reads.state, name),
        [Name("rq"), Number(on), Number(m)] => match reads.rq {
            Some(rq) => u32::from(rq.on) == *on && rq.m == u64::from(*m),
            None => false,
        },
        [Name("busy")] => reads.busy == Some(true),
        [Name("idle")] => reads.busy == Some(false),
        [Name("number"), Number(m)] => reads.number == Some(u64::from(*m)),
        [Name("cpu"), Number(c)] => reads.cpu == Some(*c),
        _ => false,
    }
}

/// Whether there is no such read.
fn is_unread(reads: Option<TaskReads>, name: &str) -> bool {
    match (reads, name) {
        (None, "state" | "rq" | "busy" | "number" | "cpu") => true,
        (Some(reads), "state") => reads.state.is_none(),
        (Some(reads), "rq") => reads.rq.is_none(),
        (Some(reads), "busy") => reads.busy.is_none(),
        (Some(reads), "number") => reads.number.is_none(),
        (Some(reads), "cpu") => reads.cpu.is_none(),
        _ => false,
    }
}

/// Whether a seat has noted that a task rests, as far as is said.
fn rests(pos: &Pos, t: u32, name: &str) -> Option<bool> {
    let end = Act::Renewed { t };
    match name {
        "state" => Some(is_since(pos, Act::SawRest { t }, end)),
        "rq" => Some(is_since(pos, Act::SawRestOff { t }, end)),
        "busy" => Some(is_since(pos, Act::SawRestIdle { t }, end)),
        _ => None,
    }
}

/// Whether a line says what is so of the position of a seat.
pub fn is_so(core: &Core, line: &[Word<'_>]) -> bool {
    let [Name(verb), Number(seat), said @ ..] = line else {
        return false;
    };
    let Some(words) = core.seats.get(*seat as usize) else {
        return false;
    };
    let pos = &words.pos;
    match (*verb, said) {
        ("tested", [Number(t), Number(k), Number(v)]) => tested_of(pos, *t, *k)
            == Some(u64::from(*v)),
        ("untested", [Number(t), Number(k)]) => tested_of(pos, *t, *k).is_none(),
        ("asleep", [Number(t), Number(k)]) => sleeps_at(pos, *t, *k),
        ("awake", [Number(t), Number(k)]) => !sleeps_at(pos, *t, *k),
        ("read", [Number(t), rest @ ..]) => match last_reads_of(pos, *t) {
            Some(reads) => is_read(&reads, rest),
            None => false,
        },
        ("unread", [Number(t), Name(name)]) => is_unread(last_reads_of(pos, *t), name),
        ("seen", [Name(name)]) => is_state(pos.seen, name),
        ("level", [Number(level)]) => pos.level_known == Some(*level),
        ("level", [Name("-")]) => pos.level_known.is_none(),
        ("rests", [Number(t), Name(name)]) => rests(pos, *t, name) == Some(true),
        ("rests_not", [Number(t), Name(name)]) => rests(pos, *t, name) == Some(false),
        _ => false,
    }
}
