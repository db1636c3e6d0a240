//! A task that is woken between its test and its sleep: another seat holds its queue meanwhile.
ghost use Rattle.std.specs.Prelude.{◌≡◌, ◌≢◌, ◌<◌, ◌≤◌, true, false, None, Some, IsSome};
ghost use Rattle.task_words.specs.Gives.{quiet_since};
ghost use Rattle.task_words.specs.Needs.{need_step};
ghost use Rattle.task_words.specs.Views.{IsOf, IsSame, IsSameSeat};
ghost use Rattle.uses_switch.specs.Looks.{HasLooked};
ghost use Rattle.uses_switch.specs.Seated.{IsIdle, IsRunning};
ghost use Rattle.word_steps.specs.Folds.{current_task, has_matched, has_stored, is_claimed, is_moving};
ghost use Rattle.word_steps.specs.Folds.{queue_held, task_held};

use crate::life::run_new;
use crate::seats::two_seats;
use handoff_data::{CpuNo, State, TaskNo, matches};
use sched_switch::{Slept, sleep_on};
use std::sync::Wait;
use std::sync::atomic::AtomicU64;
use std::sync::atomic::Ordering::SeqCst;
use std::test::Fail;
use std::thread::{Threads, join};
use task_words::{
    Kept, Pass, Wk, load_cpu, load_rq, load_state, lock_queue, lock_task, make_runnable,
    match_state,
};

// Waits until a word isn't 0.
fn await_set<R: Wait>(rt: &R, word: &AtomicU64) {
    for _ in rt.forever() {
        if word.load(SeqCst) != 0 {
            return;
        }
    }
    unreachable!()
}

// The current task sleeps at the condition 0 once the waker holds its queue.
fn sleep<B: Kept, R: Wait>(rt: &R, wk: &Wk<B>, mut pass: Pass, held: &AtomicU64) -> Slept
    requires of { IsOf wk.now pass }
    requires processor { pass.seat < wk.now.shape.cpus }
    requires condition { 0 < wk.now.shape.conds }
    requires running { IsRunning 0 pass }
{
    pass.clear_turn();
    await_set(rt, held);
    sleep_on(rt, wk, &mut pass, 0, 0)
}

// Waits until a task has stored TASK_INTERRUPTIBLE.
fn await_asleep<B: Kept, R: Wait>(rt: &R, wk: &Wk<B>, pass: &mut Pass, t: TaskNo)
    requires of { IsOf wk.now pass.old }
    requires task { t < wk.now.shape.tasks }
    requires idle { current_task pass.old.seat pass.old.trace ≡ None }
    ensures same { IsSame pass.old pass.new }
    ensures idle { current_task pass.new.seat pass.new.trace ≡ None }
    ensures looked { HasLooked pass.old.trace pass.new.trace }
{
    for _ in rt.forever() {
        if load_state(wk, pass, t) == State::TASK_INTERRUPTIBLE {
            return;
        }
    }
    unreachable!()
}

// Stores TASK_RUNNING of a task where it is still queued on the processor c; whether it is. The seat holds both locks,
// and has read a state that matches.
fn run_there<B: Kept>(wk: &Wk<B>, pass: &mut Pass, t: TaskNo, c: CpuNo) -> bool
    requires of { IsOf wk.now pass.old }
    requires task { t < wk.now.shape.tasks }
    requires locked { IsSome (task_held pass.old.trace t) }
    requires held { IsSome (queue_held pass.old.trace c) }
    requires matched { has_matched pass.old.trace t ≡ true }
    requires other { current_task pass.old.seat pass.old.trace ≢ Some t }
    requires stored { has_stored pass.old.trace t ≡ false }
    ensures same { IsSame pass.old pass.new }
    ensures quiet { quiet_since pass.new.trace ≡ quiet_since pass.old.trace }
    ensures tasks { task_held pass.new.trace ≡ task_held pass.old.trace }
    ensures queues { queue_held pass.new.trace ≡ queue_held pass.old.trace }
    ensures claimed { is_claimed pass.new.trace ≡ is_claimed pass.old.trace }
    ensures moving { is_moving pass.new.trace ≡ is_moving pass.old.trace }
    ensures matched { has_matched pass.new.trace t ≡ true }
    ensures left { result ≡ false → has_stored pass.new.trace t ≡ false }
{
    if load_cpu(wk, pass, t) != c {
        return false;
    }
    if load_rq(wk, pass, t).on != 1 {
        return false;
    }
    make_runnable(wk, pass, t);
    true
}

// Wakes a task that is still queued on the processor c; whether it was, in a state that TASK_NORMAL matches.
fn wake_there<B: Kept>(wk: &Wk<B>, pass: &mut Pass, t: TaskNo, c: CpuNo) -> bool
    requires of { IsOf wk.now pass.old }
    requires task { t < wk.now.shape.tasks }
    requires locked { IsSome (task_held pass.old.trace t) }
    requires held { IsSome (queue_held pass.old.trace c) }
    requires other { current_task pass.old.seat pass.old.trace ≢ Some t }
    requires spare { need_step ≤ pass.old.turn.spare }
    requires stored { has_stored pass.old.trace t ≡ false }
    ensures same { IsSameSeat pass.old pass.new }
    ensures quiet { quiet_since pass.new.trace ≡ quiet_since pass.old.trace }
    ensures tasks { task_held pass.new.trace ≡ task_held pass.old.trace }
    ensures queues { queue_held pass.new.trace ≡ queue_held pass.old.trace }
    ensures claimed { is_claimed pass.new.trace ≡ is_claimed pass.old.trace }
    ensures moving { is_moving pass.new.trace ≡ is_moving pass.old.trace }
    ensures woken { result ≡ true → has_matched pass.new.trace t ≡ true }
    ensures left { result ≡ false → has_stored pass.new.trace t ≡ false }
{
    let seen = match_state(wk, pass, t, State::TASK_NORMAL);
    if !matches(seen, State::TASK_NORMAL) {
        return false;
    }
    run_there(wk, pass, t, c)
}

// Wakes a task that is still queued on the processor c, whose queue it holds from before the task sleeps until it has
// stored TASK_RUNNING; whether the task was still there.
fn wake_held<B: Kept, R: Wait>(
    rt: &R,
    wk: &Wk<B>,
    mut pass: Pass,
    t: TaskNo,
    c: CpuNo,
    held: &AtomicU64,
) -> bool
    requires of { IsOf wk.now pass }
    requires task { t < wk.now.shape.tasks }
    requires processor { c < wk.now.shape.cpus }
    requires idle { IsIdle pass }
{
    pass.clear_turn();
    let task = lock_task(rt, wk, &mut pass, t);
    let queue = lock_queue(rt, wk, &mut pass, c);
    held.store(1, SeqCst);
    await_asleep(rt, wk, &mut pass, t);
    if wake_there(wk, &mut pass, t, c) {
        queue.give_as_taken(wk, &mut pass);
        task.give(wk, &mut pass);
        return true;
    }
    queue.give_as_taken(wk, &mut pass);
    task.give(wk, &mut pass);
    false
}

// What the sleeper answers, and whether its waker found it on its queue, each in a thread.
fn both<B: Kept, R: Threads + Wait + Sync>(
    rt: &R,
    wk: &Wk<B>,
    sleeper: Pass,
    waker: Pass,
    held: &AtomicU64,
) -> (Slept, bool)
    requires of { IsOf wk.now sleeper × IsOf wk.now waker }
    requires processor { sleeper.seat < wk.now.shape.cpus }
    requires processors { 0 < wk.now.shape.cpus }
    requires task { 0 < wk.now.shape.tasks }
    requires condition { 0 < wk.now.shape.conds }
    requires running { IsRunning 0 sleeper }
    requires idle { IsIdle waker }
{
    join(
        rt,
        || -> Slept
            requires of { IsOf wk.now sleeper }
            requires processor { sleeper.seat < wk.now.shape.cpus }
            requires condition { 0 < wk.now.shape.conds }
            requires running { IsRunning 0 sleeper }
        { sleep(rt, wk, sleeper, held) },
        || -> bool
            requires of { IsOf wk.now waker }
            requires processors { 0 < wk.now.shape.cpus }
            requires task { 0 < wk.now.shape.tasks }
            requires idle { IsIdle waker }
        { wake_held(rt, wk, waker, 0, 0, held) },
    )
}

#[test]
fn a_task_that_is_woken_before_it_leaves_is_put_back(rt: HostRuntime) -> Result<(), Fail> {
    let (wk, mut sleeper, waker) = two_seats(rt.alloc())?;
    assert!(rt; run_new(&rt, &wk, &mut sleeper, 0));
    let held = AtomicU64::new(0);
    let (slept, there) = both(&rt, &wk, sleeper, waker, &held);
    assert!(rt; there);
    assert_eq!(rt; slept, Slept::Woken);
    Ok(())
}
