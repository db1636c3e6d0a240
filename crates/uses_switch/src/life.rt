//! The life of a task: it is started, runs, sleeps, is woken by another seat, runs again, and dies.
ghost use Rattle.std.specs.Prelude.{◌≡◌, ◌<◌, ◌≤◌, true, Some};
ghost use Rattle.task_words.specs.Needs.{need_call};
ghost use Rattle.task_words.specs.Views.{IsOf, IsOneSeat, IsSameSeat};
ghost use Rattle.uses_switch.specs.Seated.{IsIdle, IsRunning};
ghost use Rattle.word_steps.specs.Folds.{ended_known};

use crate::bodies::{Turns, run_turn};
use handoff_data::{CondNo, State, TaskNo};
use run_queue::start;
use sched_switch::{Next, Slept, Switch, schedule, sleep_on};
use std::sync::Wait;
use task_words::{Kept, Pass, Wk, load_cond, lock_task, set_state};
use wait_queue::bump_and_wake;

/// Picks the next task; whether it is this one.
pub fn resume<B: Kept, R: Wait>(rt: &R, wk: &Wk<B>, pass: &mut Pass, t: TaskNo) -> bool
    requires of { IsOf wk.now pass.old }
    requires processor { pass.old.seat < wk.now.shape.cpus }
    requires idle { IsIdle pass.old }
    requires spare { need_call ≤ pass.old.turn.spare }
    ensures same { IsSameSeat pass.old pass.new }
    ensures running { result ≡ true → IsRunning t pass.new }
{
    schedule(rt, wk, pass, Next::Task) == Switch::Running(t)
}

/// Starts a task on the seat's own processor, and picks the next one; whether that is the new one.
pub fn run_new<B: Kept, R: Wait>(rt: &R, wk: &Wk<B>, pass: &mut Pass, t: TaskNo) -> bool
    requires of { IsOf wk.now pass.old }
    requires processor { pass.old.seat < wk.now.shape.cpus }
    requires task { t < wk.now.shape.tasks }
    requires idle { IsIdle pass.old }
    ensures same { IsOneSeat pass.old pass.new }
    ensures running { result ≡ true → IsRunning t pass.new }
{
    pass.clear_turn();
    let c = pass.seat();
    start(rt, wk, pass, t, c);
    resume(rt, wk, pass, t)
}

/// The current task sleeps at a condition, with the value that this has now; whether it sleeps.
pub fn sleep_new<B: Kept, R: Wait>(
    rt: &R,
    wk: &Wk<B>,
    pass: &mut Pass,
    t: TaskNo,
    k: CondNo,
) -> bool
    requires of { IsOf wk.now pass.old }
    requires processor { pass.old.seat < wk.now.shape.cpus }
    requires condition { k < wk.now.shape.conds }
    requires running { IsRunning t pass.old }
    ensures same { IsOneSeat pass.old pass.new }
    ensures idle { result ≡ true → IsIdle pass.new }
{
    pass.clear_turn();
    let v = load_cond(wk, pass, k);
    match sleep_on(rt, wk, pass, k, v) {
        Slept::Slept { m: _ } => true,
        _ => false,
    }
}

/// Ends the current task, whose body has ended, as Linux's `do_task_dead` (`kernel/sched/core.c`): it is TASK_DEAD,
/// which no other seat changes, and leaves its queue for good.
pub fn die<B: Kept, R: Wait>(rt: &R, wk: &Wk<B>, pass: &mut Pass, t: TaskNo)
    requires of { IsOf wk.now pass.old }
    requires processor { pass.old.seat < wk.now.shape.cpus }
    requires task { t < wk.now.shape.tasks }
    requires running { IsRunning t pass.old }
    requires ended { ended_known pass.old.trace t ≡ Some true }
    requires spare { need_call ≤ pass.old.turn.spare }
    ensures same { IsSameSeat pass.old pass.new }
    ensures idle { IsIdle pass.new }
{
    let task = lock_task(rt, wk, pass, t);
    set_state(wk, pass, State::TASK_DEAD);
    task.give(wk, pass);
    schedule(rt, wk, pass, Next::Nobody);
}

// Runs the last turn of the current task, which then dies; whether its body had ended.
fn end<R: Wait>(rt: &R, wk: &Wk<Turns>, pass: &mut Pass, t: TaskNo) -> bool
    requires of { IsOf wk.now pass.old }
    requires processor { pass.old.seat < wk.now.shape.cpus }
    requires task { t < wk.now.shape.tasks }
    requires running { IsRunning t pass.old }
    ensures same { IsOneSeat pass.old pass.new }
    ensures idle { result ≡ true → IsIdle pass.new }
{
    pass.clear_turn();
    if !run_turn(wk, pass, t) {
        return false;
    }
    die(rt, wk, pass, t);
    true
}

// Another seat raises the condition at which the task sleeps; how many tasks it woke.
fn raise<B: Kept, R: Wait>(rt: &R, wk: &Wk<B>, other: &mut Pass, k: CondNo) -> u32
    requires of { IsOf wk.now other.old }
    requires condition { k < wk.now.shape.conds }
    requires idle { IsIdle other.old }
    ensures same { IsOneSeat other.old other.new }
    ensures idle { IsIdle other.new }
{
    other.clear_turn();
    bump_and_wake(rt, wk, other, k)
}

/// The whole life of a new task on the processor of one seat: it runs, sleeps at a condition, is woken by the other
/// seat, runs the last turn of its body and dies. Whether it came so.
pub fn live<R: Wait>(
    rt: &R,
    wk: &Wk<Turns>,
    own: &mut Pass,
    other: &mut Pass,
    t: TaskNo,
    k: CondNo,
) -> bool
    requires of { IsOf wk.now own.old × IsOf wk.now other.old }
    requires processor { own.old.seat < wk.now.shape.cpus }
    requires task { t < wk.now.shape.tasks }
    requires condition { k < wk.now.shape.conds }
    requires idle { IsIdle own.old × IsIdle other.old }
    ensures same { IsOneSeat own.old own.new × IsOneSeat other.old other.new }
    ensures idle { result ≡ true → IsIdle own.new × IsIdle other.new }
{
    if !run_new(rt, wk, own, t) || !sleep_new(rt, wk, own, t, k) {
        return false;
    }
    if raise(rt, wk, other, k) != 1 {
        return false;
    }
    own.clear_turn();
    resume(rt, wk, own, t) && end(rt, wk, own, t)
}
