//! Wake-ups of a task that is still queued.
ghost use Rattle.std.specs.Prelude.{◌≡◌, ◌<◌, true};
ghost use Rattle.task_words.specs.Seats.{IsBetween, IsRunning};
ghost use Rattle.task_words.specs.Views.{IsOf};

use crate::calls::{start_one, wake_one};
use crate::plain;
use crate::took::Took;
use handoff_data::State;
use std::rt::Runtime;
use std::sync::Wait;
use std::time::Instant;
use task_words::{Pass, Wk, set_state};
use ttwu_core::{How, Wake};
use uses_words::plain::{each, time_plain};
use uses_words::{pick, two_seats};

/// A task that another seat runs is woken so many times, each time after it has stored TASK_INTERRUPTIBLE as its own
/// state. The time of as many of these stores alone is taken off.
pub fn runnable<R: Runtime + AllocGlobal + Wait>(rt: &R, count: u32) -> Option<Took> {
    let (wk, mut waker, mut sleeper) = two_seats(rt.alloc(), 1, 0, ())?;
    if !begin(rt, &wk, &mut waker, &mut sleeper) {
        return None;
    }
    let begun = Instant::now(rt).ok()?;
    let done = repeat(rt, &wk, &mut waker, &mut sleeper, count);
    let both = each(begun.elapsed(rt).ok()?, count);
    let begun = Instant::now(rt).ok()?;
    repeat_stores(&wk, &mut sleeper, count);
    let wake = both - each(begun.elapsed(rt).ok()?, count);
    let plain = time_plain::<plain::Runnable, R>(rt, count)?;
    if done {
        Some(Took { wake, plain })
    } else {
        None
    }
}

// The first task is started on the processor 1, and picked there; whether it was.
fn begin<R: Wait>(rt: &R, wk: &Wk<()>, waker: &mut Pass, sleeper: &mut Pass) -> bool
    requires of { (IsOf wk.now waker.old) × (IsOf wk.now sleeper.old) }
    requires task { 0 < wk.now.shape.tasks }
    requires processors { 1 < wk.now.shape.cpus }
    requires processor { sleeper.old.seat < wk.now.shape.cpus }
    requires between { (IsBetween waker.old) × (IsBetween sleeper.old) }
    ensures of { (IsOf wk.now waker.new) × (IsOf wk.now sleeper.new) }
    ensures between { IsBetween waker.new }
    ensures running { result ≡ true → IsRunning 0 sleeper.new }
{
    if !start_one(rt, wk, waker, 0, 1) {
        return false;
    }
    sleeper.clear_turn();
    match pick(rt, wk, sleeper) {
        Some(0) => true,
        _ => false,
    }
}

// Whether each wake-up found the task queued.
fn repeat<R: Wait>(rt: &R, wk: &Wk<()>, waker: &mut Pass, sleeper: &mut Pass, count: u32) -> bool
    requires of { (IsOf wk.now waker.old) × (IsOf wk.now sleeper.old) }
    requires task { 0 < wk.now.shape.tasks }
    requires between { IsBetween waker.old }
    requires running { IsRunning 0 sleeper.old }
    ensures of { IsOf wk.now sleeper.new }
    ensures running { IsRunning 0 sleeper.new }
{
    for _ in 0..count {
        set_state(wk, sleeper, State::TASK_INTERRUPTIBLE);
        match wake_one(rt, wk, waker, 0) {
            Wake::Woke { how: How::Runnable } => {}
            _ => return false,
        }
    }
    true
}

fn repeat_stores(wk: &Wk<()>, sleeper: &mut Pass, count: u32)
    requires of { IsOf wk.now sleeper.old }
    requires running { IsRunning 0 sleeper.old }
{
    for _ in 0..count {
        set_state(wk, sleeper, State::TASK_INTERRUPTIBLE);
    }
}
