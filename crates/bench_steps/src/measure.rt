//! Steps and plain operations, with the time that each took.
ghost use Rattle.std.specs.Prelude.{◌≡◌, ◌<◌};
ghost use Rattle.bench_steps.specs.Small.{IsSmall};
ghost use Rattle.task_words.specs.Seats.{IsBetween};
ghost use Rattle.task_words.specs.Views.{IsOf};

use crate::own::{Body, Match, OwnStep, SetRunning, SetState, Turn, begin_own, repeat_own};
use crate::placing::{Placing, Run, SetCpu, place_often};
use crate::plain::{OneAdd, OneBody, OneLoad, OneLock, OneRound, OneStart, OneStore, OneTurn};
use crate::starts::{Round, Start, Started, TASKS, start_all};
use crate::step::{Step, repeat};
use crate::steps::{Bump, Busy, Cond, Cpu, Level, Queue, Rq, State, Task, WaitQueue, Works};
use crate::table::{small_seat, small_table};
use std::rt::Runtime;
use std::sync::Wait;
use std::time::Instant;
use task_words::{Pass, Wk};
use uses_words::plain::{Plain, each, time_plain};

/// Nanoseconds of one step, and of the plain operations beside it.
#[derive(Clone, Copy, Drop)]
pub struct Took {
    pub step: f64,
    pub plain: f64,
}

const NAMES: [&str; 20] = [
    "load_state",
    "load_rq",
    "load_busy",
    "load_cpu",
    "load_count",
    "load_cond",
    "match_state",
    "set_state",
    "set_running",
    "make_runnable",
    "store_cpu",
    "bump_cond",
    "lock_task",
    "lock_queue",
    "lock_works",
    "lock_wait",
    "body",
    "turn",
    "start",
    "round",
];

/// Makes each step some times, and prints how many there are.
pub fn kinds<R: Runtime + AllocGlobal + Wait>(rt: &R) -> Option<()> {
    for name in NAMES {
        pick(rt, name, 3)?;
    }
    println!(rt; "{} kinds of step", NAMES.len()).ok()?;
    Some(())
}

/// Makes the step of this name at least so many times.
pub fn pick<R: Runtime + AllocGlobal + Wait>(rt: &R, name: &str, count: u32) -> Option<Took> {
    match name {
        "load_state" => time::<State, OneLoad, R>(rt, count),
        "load_rq" => time::<Rq, OneLoad, R>(rt, count),
        "load_busy" => time::<Busy, OneLoad, R>(rt, count),
        "load_cpu" => time::<Cpu, OneLoad, R>(rt, count),
        "load_count" => time::<Level, OneLoad, R>(rt, count),
        "load_cond" => time::<Cond, OneLoad, R>(rt, count),
        "bump_cond" => time::<Bump, OneAdd, R>(rt, count),
        "lock_task" => time::<Task, OneLock, R>(rt, count),
        "lock_queue" => time::<Queue, OneLock, R>(rt, count),
        "lock_works" => time::<Works, OneLock, R>(rt, count),
        "lock_wait" => time::<WaitQueue, OneLock, R>(rt, count),
        "match_state" => time_own::<Match, OneLoad, R>(rt, count, true),
        "set_state" => time_own::<SetState, OneStore, R>(rt, count, false),
        "set_running" => time_own::<SetRunning, OneStore, R>(rt, count, false),
        "body" => time_own::<Body, OneBody, R>(rt, count, false),
        "turn" => time_own::<Turn, OneTurn, R>(rt, count, false),
        "make_runnable" => time_placing::<Run, OneStore, R>(rt, count),
        "store_cpu" => time_placing::<SetCpu, OneStore, R>(rt, count),
        "start" => time_starts::<Started, OneStart, R>(rt, count),
        "round" => time_starts::<Round, OneRound, R>(rt, count),
        _ => None,
    }
}

// A step of a seat that holds nothing.
fn time<S: Step, P: Plain, R: Runtime + AllocGlobal + Wait>(rt: &R, count: u32) -> Option<Took> {
    let Ok((wk, mut passes)) = small_table(rt.alloc(), 1, 1) else {
        return None;
    };
    let mut pass = passes.pop()?;
    let begun = Instant::now(rt).ok()?;
    repeat::<S, R>(rt, &wk, &mut pass, count);
    let step = each(begun.elapsed(rt).ok()?, count);
    let plain = time_plain::<P, R>(rt, count)?;
    Some(Took { step, plain })
}

// A step of a seat that runs a task, in TASK_INTERRUPTIBLE if it `dozes`.
fn time_own<S: OwnStep, P: Plain, R: Runtime + AllocGlobal + Wait>(
    rt: &R,
    count: u32,
    dozes: bool,
) -> Option<Took> {
    let (wk, mut pass) = small_seat(rt.alloc())?;
    let step = time_own_steps::<S, R>(rt, &wk, &mut pass, count, dozes)?;
    let plain = time_plain::<P, R>(rt, count)?;
    Some(Took { step, plain })
}

// What such a step takes, made so many times; none where the seat stops running its task.
fn time_own_steps<S: OwnStep, R: Runtime + AllocGlobal + Wait>(
    rt: &R,
    wk: &Wk<()>,
    pass: &mut Pass,
    count: u32,
    dozes: bool,
) -> Option<f64>
    requires of { IsOf wk.now pass.old }
    requires small { IsSmall wk.now.shape }
    requires between { IsBetween pass.old }
{
    if pass.seat() != 0 || !begin_own(rt, wk, pass, dozes) {
        return None;
    }
    let begun = Instant::now(rt).ok()?;
    if !repeat_own::<S, R>(rt, wk, pass, count) {
        return None;
    }
    Some(each(begun.elapsed(rt).ok()?, count))
}

// A store of a seat that has the lock of a new task.
fn time_placing<S: Placing, P: Plain, R: Runtime + AllocGlobal + Wait>(
    rt: &R,
    count: u32,
) -> Option<Took> {
    let Ok((wk, mut passes)) = small_table(rt.alloc(), 1, 1) else {
        return None;
    };
    let mut pass = passes.pop()?;
    let begun = Instant::now(rt).ok()?;
    let done = place_often::<S, R>(rt, &wk, &mut pass, count);
    let step = each(begun.elapsed(rt).ok()?, count);
    let plain = time_plain::<P, R>(rt, count)?;
    if done {
        Some(Took { step, plain })
    } else {
        None
    }
}

// What a task allows once, with all tasks of as many tables as it takes.
fn time_starts<S: Start, P: Plain, R: Runtime + AllocGlobal + Wait>(
    rt: &R,
    count: u32,
) -> Option<Took> {
    let tables = count / TASKS + 1;
    let mut step = 0.0;
    for _ in 0..tables {
        step += time_table::<S, R>(rt)?;
    }
    let plain = time_plain::<P, R>(rt, count)?;
    Some(Took {
        step: step / f64::from(tables),
        plain,
    })
}

// .. with all tasks of one table.
fn time_table<S: Start, R: Runtime + AllocGlobal + Wait>(rt: &R) -> Option<f64> {
    let Ok((wk, mut passes)) = small_table(rt.alloc(), 1, TASKS) else {
        return None;
    };
    let mut pass = passes.pop()?;
    if pass.seat() != 0 {
        return None;
    }
    let begun = Instant::now(rt).ok()?;
    let done = start_all::<S, R>(rt, &wk, &mut pass);
    let took = begun.elapsed(rt).ok()?;
    if done { Some(each(took, TASKS)) } else { None }
}
