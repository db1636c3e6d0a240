//! Two threads, each with a task of its own, that wake each other in turn: no wake is missed.
ghost use Rattle.std.specs.Prelude.{◌≡◌, ◌<◌, true, IfNone, IfSome};
ghost use Rattle.std.specs.List.{All};
ghost use Rattle.task_words.specs.Views.{IsOf, IsOneSeat};
ghost use Rattle.uses_switch.specs.Seated.{IsIdle, IsRunning};

use crate::bodies::Turns;
use crate::life::run_new;
use crate::opening::begin;
use crossbeam_utils::Backoff;
use handoff_data::{CondNo, TaskNo};
use sched_switch::{Next, Slept, Switch, schedule, sleep_on};
use std::alloc::AllocError;
use std::sync::Wait;
use std::test::Fail;
use std::thread::{Threads, map_vec};
use task_words::{Kept, Pass, Wk, load_cond, load_rq};
use wait_queue::bump_and_wake;

const ROUNDS: u64 = 1_000_000;

// Picks a task once t is queued, which is looked at without a lock.
fn pick_queued<B: Kept, R: Wait>(rt: &R, wk: &Wk<B>, pass: &mut Pass, t: TaskNo) -> Option<TaskNo>
    requires of { IsOf wk.now pass.old }
    requires processor { pass.old.seat < wk.now.shape.cpus }
    requires task { t < wk.now.shape.tasks }
    requires idle { IsIdle pass.old }
    ensures same { IsOneSeat pass.old pass.new }
    ensures none { IfNone result (IsIdle pass.new) }
    ensures some { IfSome result (λ u. IsRunning u pass.new) }
{
    pass.clear_turn();
    if load_rq(wk, pass, t).on != 1 {
        return None;
    }
    match schedule(rt, wk, pass, Next::Task) {
        Switch::Running(next) => Some(next),
        _ => None,
    }
}

// Waits until t is queued, and picks a task; whether t runs.
fn resume<B: Kept, R: Wait>(rt: &R, wk: &Wk<B>, pass: &mut Pass, t: TaskNo) -> bool
    requires of { IsOf wk.now pass.old }
    requires processor { pass.old.seat < wk.now.shape.cpus }
    requires task { t < wk.now.shape.tasks }
    requires idle { IsIdle pass.old }
    ensures same { IsOneSeat pass.old pass.new }
    ensures running { result ≡ true → IsRunning t pass.new }
{
    let backoff = Backoff::new();
    for _ in rt.forever() {
        if let Some(next) = pick_queued(rt, wk, pass, t) {
            return next == t;
        }
        backoff.snooze();
    }
    unreachable!()
}

// The current task sleeps unless a condition was raised, and runs again then; whether it runs.
fn sleep_once<B: Kept, R: Wait>(
    rt: &R,
    wk: &Wk<B>,
    pass: &mut Pass,
    t: TaskNo,
    k: CondNo,
    v: u64,
) -> bool
    requires of { IsOf wk.now pass.old }
    requires processor { pass.old.seat < wk.now.shape.cpus }
    requires task { t < wk.now.shape.tasks }
    requires condition { k < wk.now.shape.conds }
    requires running { IsRunning t pass.old }
    ensures same { IsOneSeat pass.old pass.new }
    ensures running { result ≡ true → IsRunning t pass.new }
{
    pass.clear_turn();
    match sleep_on(rt, wk, pass, k, v) {
        Slept::Changed { now: _ } => true,
        Slept::Slept { m: _ } => resume(rt, wk, pass, t),
        Slept::Woken => resume(rt, wk, pass, t),
    }
}

// The current task goes on once a condition was raised more often than `count` times; whether it runs.
fn await_raised<B: Kept, R: Wait>(
    rt: &R,
    wk: &Wk<B>,
    pass: &mut Pass,
    t: TaskNo,
    k: CondNo,
    count: u64,
) -> bool
    requires of { IsOf wk.now pass.old }
    requires processor { pass.old.seat < wk.now.shape.cpus }
    requires task { t < wk.now.shape.tasks }
    requires condition { k < wk.now.shape.conds }
    requires running { IsRunning t pass.old }
    ensures same { IsOneSeat pass.old pass.new }
    ensures running { result ≡ true → IsRunning t pass.new }
{
    for _ in rt.forever() {
        let now = load_cond(wk, pass, k);
        if now > count {
            return true;
        }
        if !sleep_once(rt, wk, pass, t, k, now) {
            return false;
        }
    }
    unreachable!()
}

// Raises a condition, and wakes who sleeps there.
fn raise<B: Kept, R: Wait>(rt: &R, wk: &Wk<B>, pass: &mut Pass, t: TaskNo, k: CondNo)
    requires of { IsOf wk.now pass.old }
    requires condition { k < wk.now.shape.conds }
    requires running { IsRunning t pass.old }
    ensures same { IsOneSeat pass.old pass.new }
    ensures running { IsRunning t pass.new }
{
    pass.clear_turn();
    bump_and_wake(rt, wk, pass, k);
}

// A round of one task: the first raises the other's condition and then awaits its own, the other does so the other way
// round. Whether the task runs.
fn round<B: Kept, R: Wait>(rt: &R, wk: &Wk<B>, pass: &mut Pass, t: TaskNo, count: u64) -> bool
    requires of { IsOf wk.now pass.old }
    requires processor { pass.old.seat < wk.now.shape.cpus }
    requires task { (t < 2) × (wk.now.shape.tasks ≡ 2) }
    requires conditions { wk.now.shape.conds ≡ 2 }
    requires running { IsRunning t pass.old }
    ensures same { IsOneSeat pass.old pass.new }
    ensures running { result ≡ true → IsRunning t pass.new }
{
    if t == 0 {
        raise(rt, wk, pass, t, 1);
        return await_raised(rt, wk, pass, t, 0, count);
    }
    if !await_raised(rt, wk, pass, t, 1, count) {
        return false;
    }
    raise(rt, wk, pass, t, 0);
    true
}

// How many rounds the task of a seat counted.
fn play<B: Kept, R: Wait>(rt: &R, wk: &Wk<B>, mut pass: Pass) -> u64
    requires of { IsOf wk.now pass }
    requires processors { wk.now.shape.cpus ≡ 2 }
    requires tasks { wk.now.shape.tasks ≡ 2 }
    requires conditions { wk.now.shape.conds ≡ 2 }
    requires idle { IsIdle pass }
{
    let t = pass.seat();
    if t > 1 || !run_new(rt, wk, &mut pass, t) {
        return 0;
    }
    for count in 0..ROUNDS {
        if !round(rt, wk, &mut pass, t, count) {
            return count;
        }
    }
    ROUNDS
}

// How many rounds each of two tasks counted, each in a thread.
fn play_both<R: Threads + Wait + Sync>(
    rt: &R,
    wk: &Wk<Turns>,
    passes: Vec<Pass>,
) -> Result<Vec<u64>, AllocError>
    requires of { All (IsOf wk.now) passes.items }
    requires processors { wk.now.shape.cpus ≡ 2 }
    requires tasks { wk.now.shape.tasks ≡ 2 }
    requires conditions { wk.now.shape.conds ≡ 2 }
    requires idle { All IsIdle passes.items }
{
    map_vec(
        rt,
        passes,
        &|pass: Pass| -> u64
            requires of { IsOf wk.now pass }
            requires processors { wk.now.shape.cpus ≡ 2 }
            requires tasks { wk.now.shape.tasks ≡ 2 }
            requires conditions { wk.now.shape.conds ≡ 2 }
            requires idle { IsIdle pass }
        { play(rt, wk, pass) },
    )
}

#[test]
fn two_tasks_wake_each_other_a_million_times(rt: HostRuntime) -> Result<(), Fail> {
    let (wk, passes) = begin(rt.alloc(), 2, 2, 2, 1)?;
    let counts = play_both(&rt, &wk, passes)?;
    assert_eq!(rt; counts.len(), 2);
    assert_eq!(rt; counts[0], ROUNDS);
    assert_eq!(rt; counts[1], ROUNDS);
    Ok(())
}
