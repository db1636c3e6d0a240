//! Threads on one table: at one lock, and at words that lie side by side.
ghost use Rattle.std.specs.Prelude.{◌≡◌, ◌<◌, ◌≤◌};
ghost use Rattle.std.specs.List.{All};
ghost use Rattle.bench_steps.specs.Small.{IsSmall};
ghost use Rattle.task_words.specs.Seats.{IsBetween};
ghost use Rattle.task_words.specs.Views.{IsOf, IsSame, IsOneSeat};

use crate::step::{Step, repeat};
use crate::steps::{Queue, Task, Works};
use crate::table::small_table;
use std::rt::Runtime;
use std::sync::Wait;
use std::thread;
use std::thread::{Threads, join};
use std::time::Instant;
use task_words::{Pass, Wk};

/// So many seats, 1 to 16, each in a thread, take and give the lock of one processor's works so many times. Nanoseconds
/// of each time that the lock is taken and given.
pub fn crowd<R: Runtime + AllocGlobal + Threads + Wait + Sync>(
    rt: &R,
    seats: u32,
    count: u32,
) -> Option<f64> {
    if seats == 0 || seats > 16 {
        return None;
    }
    let Ok((wk, mut passes)) = small_table(rt.alloc(), seats, 1) else {
        return None;
    };
    let begun = Instant::now(rt).ok()?;
    all_repeat(rt, &wk, &mut passes, seats as usize, count);
    let took = begun.elapsed(rt).ok()?;
    Some(took.as_secs_f64() * 1e9 / (f64::from(count) * f64::from(seats)))
}

/// Two seats, each in a thread: one takes and gives the lock of a task, the other that of the queue of the processor
/// with the same number, whose words are the next ones. Nanoseconds of one turn of both.
pub fn beside<R: Runtime + AllocGlobal + Threads + Wait + Sync>(rt: &R, count: u32) -> Option<f64> {
    let Ok((wk, mut passes)) = small_table(rt.alloc(), 2, 1) else {
        return None;
    };
    let second = passes.pop()?;
    let first = passes.pop()?;
    let begun = Instant::now(rt).ok()?;
    both(rt, &wk, first, second, count);
    let took = begun.elapsed(rt).ok()?;
    Some(took.as_secs_f64() * 1e9 / f64::from(count))
}

fn both<R: Threads + Wait + Sync>(rt: &R, wk: &Wk<()>, first: Pass, second: Pass, count: u32)
    requires first { (IsOf wk.now first) × IsBetween first }
    requires second { (IsOf wk.now second) × IsBetween second }
    requires small { IsSmall wk.now.shape }
{
    join(
        rt,
        || alone::<Task, R>(rt, wk, first, count),
        || alone::<Queue, R>(rt, wk, second, count),
    );
}

fn alone<S: Step, R: Wait>(rt: &R, wk: &Wk<()>, mut pass: Pass, count: u32) -> Pass
    requires of { IsOf wk.now pass }
    requires small { IsSmall wk.now.shape }
    requires between { IsBetween pass }
{
    repeat::<S, R>(rt, wk, &mut pass, count);
    pass
}

fn all_repeat<R: Threads + Wait + Sync>(
    rt: &R,
    wk: &Wk<()>,
    passes: &mut Vec<Pass>,
    threads: usize,
    count: u32,
)
    requires of { All (IsOf wk.now) passes.old.items }
    requires between { All IsBetween passes.old.items }
    requires threads { 0 < threads }
    requires small { IsSmall wk.now.shape }
{
    thread::for_each_mut(
        rt,
        passes.as_mut_slice(),
        threads,
        &|_, pass| { repeat::<Works, R>(rt, wk, pass, count) },
    );
}
