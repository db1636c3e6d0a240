//! Two threads, each with a task of its own, that wake each other in turn: no wake is missed.
ghost use Rattle.std.specs.Prelude.{◌≡◌, ◌<◌, true, IfNone, IfSome};
ghost use Rattle.std.specs.List.{All};
ghost use Rattle.task_words.specs.Seats.{IsBetween, IsRunning};
ghost use Rattle.task_words.specs.Views.{IsOf, IsOneSeat};

use crate::running::{bump_and_wake, finish, prepare};
use crossbeam_utils::Backoff;
use handoff_data::{CondNo, TaskNo};
use std::alloc::AllocError;
use std::sync::Wait;
use std::test::Fail;
use std::thread::{Threads, map_vec};
use task_words::{Kept, Pass, Wk, load_cond, load_rq};
use uses_words::{begin, pick, start, switch_out};

const ROUNDS: u64 = 1_000_000;

// Picks a task once t is queued, which is looked at without a lock.
fn pick_queued<B: Kept, R: Wait>(rt: &R, wk: &Wk<B>, pass: &mut Pass, t: TaskNo) -> Option<TaskNo>
    requires of { IsOf wk.now pass.old }
    requires processor { pass.old.seat < wk.now.shape.cpus }
    requires task { t < wk.now.shape.tasks }
    requires between { IsBetween pass.old }
    ensures same { IsOneSeat pass.old pass.new }
    ensures none { IfNone result (IsBetween pass.new) }
    ensures some { IfSome result (λ u. IsRunning u pass.new) }
{
    pass.clear_turn();
    if load_rq(wk, pass, t).on != 1 {
        return None;
    }
    pick(rt, wk, pass)
}

// Waits until t is queued, and picks a task; whether t runs.
fn resume<B: Kept, R: Wait>(rt: &R, wk: &Wk<B>, pass: &mut Pass, t: TaskNo) -> bool
    requires of { IsOf wk.now pass.old }
    requires processor { pass.old.seat < wk.now.shape.cpus }
    requires task { t < wk.now.shape.tasks }
    requires between { IsBetween pass.old }
    ensures same { IsOneSeat pass.old pass.new }
    ensures running { result ≡ true → IsRunning t pass.new }
{
    let backoff = Backoff::new();
    for _ in rt.forever() {
        if let Some(next) = pick_queued(rt, wk, pass, t) {
            return next == t;
        }
        backoff.snooze();
    }
    unreachable!()
}

// The current task leaves its processor, unless it was woken meanwhile, and comes back once it is woken; whether it
// runs.
fn leave<B: Kept, R: Wait>(rt: &R, wk: &Wk<B>, pass: &mut Pass, t: TaskNo) -> bool
    requires of { IsOf wk.now pass.old }
    requires processor { pass.old.seat < wk.now.shape.cpus }
    requires task { t < wk.now.shape.tasks }
    requires running { IsRunning t pass.old }
    ensures same { IsOneSeat pass.old pass.new }
    ensures running { result ≡ true → IsRunning t pass.new }
{
    pass.clear_turn();
    if !switch_out(rt, wk, pass, t) {
        return true;
    }
    resume(rt, wk, pass, t)
}

// The current task sleeps until a condition was raised more often than `count` times, as Linux's `wait_event`; whether
// it runs.
fn sleep_until<B: Kept, R: Wait>(
    rt: &R,
    wk: &Wk<B>,
    pass: &mut Pass,
    t: TaskNo,
    k: CondNo,
    count: u64,
) -> bool
    requires of { IsOf wk.now pass.old }
    requires processor { pass.old.seat < wk.now.shape.cpus }
    requires task { t < wk.now.shape.tasks }
    requires condition { k < wk.now.shape.conds }
    requires running { IsRunning t pass.old }
    ensures same { IsOneSeat pass.old pass.new }
    ensures running { result ≡ true → IsRunning t pass.new }
{
    for _ in rt.forever() {
        prepare(rt, wk, pass, t, k, false);
        if load_cond(wk, pass, k) > count {
            finish(rt, wk, pass, t, k);
            return true;
        }
        if !leave(rt, wk, pass, t) {
            return false;
        }
    }
    unreachable!()
}

// The current task goes on once a condition was raised more often than `count` times; whether it runs.
fn await_raised<B: Kept, R: Wait>(
    rt: &R,
    wk: &Wk<B>,
    pass: &mut Pass,
    t: TaskNo,
    k: CondNo,
    count: u64,
) -> bool
    requires of { IsOf wk.now pass.old }
    requires processor { pass.old.seat < wk.now.shape.cpus }
    requires task { t < wk.now.shape.tasks }
    requires condition { k < wk.now.shape.conds }
    requires running { IsRunning t pass.old }
    ensures same { IsOneSeat pass.old pass.new }
    ensures running { result ≡ true → IsRunning t pass.new }
{
    if load_cond(wk, pass, k) > count {
        return true;
    }
    sleep_until(rt, wk, pass, t, k, count)
}

// Raises a condition, and wakes who sleeps there.
fn raise<B: Kept, R: Wait>(rt: &R, wk: &Wk<B>, pass: &mut Pass, t: TaskNo, k: CondNo)
    requires of { IsOf wk.now pass.old }
    requires condition { k < wk.now.shape.conds }
    requires running { IsRunning t pass.old }
    ensures same { IsOneSeat pass.old pass.new }
    ensures running { IsRunning t pass.new }
{
    pass.clear_turn();
    bump_and_wake(rt, wk, pass, t, k);
}

// A round of one task: the first raises the other's condition and then awaits its own, the other does so the other way
// round. Whether the task runs.
fn round<B: Kept, R: Wait>(rt: &R, wk: &Wk<B>, pass: &mut Pass, t: TaskNo, count: u64) -> bool
    requires of { IsOf wk.now pass.old }
    requires processor { pass.old.seat < wk.now.shape.cpus }
    requires task { (t < 2) × (wk.now.shape.tasks ≡ 2) }
    requires conditions { wk.now.shape.conds ≡ 2 }
    requires running { IsRunning t pass.old }
    ensures same { IsOneSeat pass.old pass.new }
    ensures running { result ≡ true → IsRunning t pass.new }
{
    if t == 0 {
        raise(rt, wk, pass, t, 1);
        return await_raised(rt, wk, pass, t, 0, count);
    }
    if !await_raised(rt, wk, pass, t, 1, count) {
        return false;
    }
    raise(rt, wk, pass, t, 0);
    true
}

// How many rounds the task of a seat counted.
fn play<B: Kept, R: Wait>(rt: &R, wk: &Wk<B>, mut pass: Pass) -> u64
    requires of { IsOf wk.now pass }
    requires processors { wk.now.shape.cpus ≡ 2 }
    requires tasks { wk.now.shape.tasks ≡ 2 }
    requires conditions { wk.now.shape.conds ≡ 2 }
    requires between { IsBetween pass }
{
    let t = pass.seat();
    if t > 1 {
        return 0;
    }
    pass.clear_turn();
    start(rt, wk, &mut pass, t, t);
    if !resume(rt, wk, &mut pass, t) {
        return 0;
    }
    for count in 0..ROUNDS {
        if !round(rt, wk, &mut pass, t, count) {
            return count;
        }
    }
    ROUNDS
}

// How many rounds each of two tasks counted, each in a thread.
fn play_both<R: Threads + Wait + Sync>(
    rt: &R,
    wk: &Wk<()>,
    passes: Vec<Pass>,
) -> Result<Vec<u64>, AllocError>
    requires of { All (IsOf wk.now) passes.items }
    requires processors { wk.now.shape.cpus ≡ 2 }
    requires tasks { wk.now.shape.tasks ≡ 2 }
    requires conditions { wk.now.shape.conds ≡ 2 }
    requires between { All IsBetween passes.items }
{
    map_vec(
        rt,
        passes,
        &|pass: Pass| -> u64
            requires of { IsOf wk.now pass }
            requires processors { wk.now.shape.cpus ≡ 2 }
            requires tasks { wk.now.shape.tasks ≡ 2 }
            requires conditions { wk.now.shape.conds ≡ 2 }
            requires between { IsBetween pass }
        { play(rt, wk, pass) },
    )
}

#[test]
fn two_tasks_wake_each_other_a_million_times(rt: HostRuntime) -> Result<(), Fail> {
    let (wk, passes) = begin(rt.alloc(), 2, 2, 2, ())?;
    let counts = play_both(&rt, &wk, passes)?;
    assert_eq!(rt; counts.len(), 2);
    assert_eq!(rt; counts[0], ROUNDS);
    assert_eq!(rt; counts[1], ROUNDS);
    Ok(())
}
