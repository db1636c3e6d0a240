//! A task's way through a processor: started, picked, put back.
ghost use Rattle.std.specs.Prelude.{◌≡◌, ◌≢◌, ◌<◌, ◌≤◌, true, None, Some, IfSome, IfNone};
ghost use Rattle.task_words.specs.Folds.{current_task, stays_queued, task_to_clear};
ghost use Rattle.task_words.specs.Needs.{need_call};
ghost use Rattle.task_words.specs.Seats.{IsBetween, IsRunning, HoldsNothing};
ghost use Rattle.task_words.specs.Views.{IsOf, IsSame, IsSameSeat};

use core_data::Rq;
use handoff_data::{CpuNo, State, TaskNo};
use run_queue::Start;
use std::sync::Wait;
use task_words::{
    Kept, Pass, Wk, body_home, body_out, clear_busy, load_count, load_cpu, load_rq, load_state,
    lock_queue, lock_task, queue_task,
};

/// Starts a new task on a processor, as Linux's `wake_up_new_task` (`kernel/sched/core.c`).
pub fn start<B: Kept, R: Wait>(rt: &R, wk: &Wk<B>, pass: &mut Pass, t: TaskNo, c: CpuNo) -> Start
    requires of { IsOf wk.now pass.old }
    requires task { t < wk.now.shape.tasks }
    requires processor { c < wk.now.shape.cpus }
    requires between { IsBetween pass.old }
    requires spare { need_call ≤ pass.old.turn.spare }
    ensures same { IsSameSeat pass.old pass.new }
    ensures between { IsBetween pass.new }
{
    run_queue::start(rt, wk, pass, t, c)
}

/// Puts a new task at the back of its processor's queue, step by step, but leaves it TASK_NEW; whether it was new.
pub fn start_new<B: Kept, R: Wait>(rt: &R, wk: &Wk<B>, pass: &mut Pass, t: TaskNo) -> bool
    requires of { IsOf wk.now pass.old }
    requires task { t < wk.now.shape.tasks }
    requires nothing { HoldsNothing pass.old.trace }
    requires other { current_task pass.old.seat pass.old.trace ≢ Some t }
    requires spare { need_call ≤ pass.old.turn.spare }
    ensures same { IsSameSeat pass.old pass.new }
    ensures nothing { HoldsNothing pass.new.trace }
    ensures current { current_task pass.new.seat pass.new.trace ≡ current_task pass.old.seat pass.old.trace }
    ensures clear { task_to_clear pass.new.seat pass.new.trace ≡ task_to_clear pass.old.seat pass.old.trace }
    ensures between { IsBetween pass.old → IsBetween pass.new }
{
    let task = lock_task(rt, wk, pass, t);
    let seen = load_rq(wk, pass, t);
    if seen.m != 0 {
        task.give(wk, pass);
        return false;
    }
    let c = load_cpu(wk, pass, t);
    let mut queue = lock_queue(rt, wk, pass, c);
    queue_task(rt, wk, pass, &queue, t, Rq { on: 0, m: 0 });
    queue.push(wk, pass, t);
    queue.give_put(wk, pass);
    task.give_queued(wk, pass);
    true
}

/// Picks the task that stands as the next of the seat's own queue, else the first that waits there, as Linux's
/// `pick_next_task` (`kernel/sched/core.c`); none where there is neither.
pub fn pick<B: Kept, R: Wait>(rt: &R, wk: &Wk<B>, pass: &mut Pass) -> Option<TaskNo>
    requires of { IsOf wk.now pass.old }
    requires processor { pass.old.seat < wk.now.shape.cpus }
    requires nothing { HoldsNothing pass.old.trace }
    requires idle { current_task pass.old.seat pass.old.trace ≡ None }
    requires clear { task_to_clear pass.old.seat pass.old.trace ≡ None }
    requires spare { need_call ≤ pass.old.turn.spare }
    ensures same { IsSameSeat pass.old pass.new }
    ensures current { current_task pass.new.seat pass.new.trace ≡ result }
    ensures task { IfSome result (λ t. t < wk.now.shape.tasks) }
    ensures stays { IfSome result (λ t. stays_queued pass.new.trace ≡ true) }
    ensures nothing { HoldsNothing pass.new.trace }
    ensures none { IsBetween pass.old → IfNone result (IsBetween pass.new) }
    ensures some { IsBetween pass.old → IfSome result (λ t. IsRunning t pass.new) }
{
    let c = pass.seat();
    let mut queue = lock_queue(rt, wk, pass, c);
    if let Some(t) = queue.val_mut(wk).get().cur {
        queue.pick_cur(rt, wk, pass, t);
        queue.give_as_picked(wk, pass);
        return Some(t);
    }
    let Some(t) = queue.pop(wk, pass) else {
        queue.give_as_taken(wk, pass);
        return None;
    };
    queue.pick(rt, wk, pass, t);
    queue.give_picked(wk, pass);
    Some(t)
}

/// Takes the body of the current task out and puts it home.
pub fn run<B: Kept>(wk: &Wk<B>, pass: &mut Pass, t: TaskNo)
    requires of { IsOf wk.now pass.old }
    requires current { current_task pass.old.seat pass.old.trace ≡ Some t }
    requires nothing { HoldsNothing pass.old.trace }
    ensures same { IsSame pass.old pass.new }
    ensures current { current_task pass.new.seat pass.new.trace ≡ Some t }
    ensures stays { stays_queued pass.new.trace ≡ stays_queued pass.old.trace }
    ensures nothing { HoldsNothing pass.new.trace }
    ensures running { IsRunning t pass.old → IsRunning t pass.new }
{
    let out = body_out(wk, pass);
    body_home(wk, pass, out);
}

/// Puts the current task, while it runs or is still TASK_NEW, at the back of its queue, as Linux's `schedule`
/// (`kernel/sched/core.c`) of a preempted task; whether it did.
pub fn put_back<B: Kept, R: Wait>(rt: &R, wk: &Wk<B>, pass: &mut Pass, t: TaskNo) -> bool
    requires of { IsOf wk.now pass.old }
    requires processor { pass.old.seat < wk.now.shape.cpus }
    requires task { t < wk.now.shape.tasks }
    requires nothing { HoldsNothing pass.old.trace }
    requires current { current_task pass.old.seat pass.old.trace ≡ Some t }
    requires stays { stays_queued pass.old.trace ≡ true }
    requires spare { need_call ≤ pass.old.turn.spare }
    ensures same { IsSameSeat pass.old pass.new }
    ensures nothing { HoldsNothing pass.new.trace }
    ensures gone { result ≡ true → current_task pass.new.seat pass.new.trace ≡ None }
    ensures clear { result ≡ true → task_to_clear pass.new.seat pass.new.trace ≡ None }
    ensures back { result ≡ true → IsRunning t pass.old → IsBetween pass.new }
{
    let c = pass.seat();
    let mut queue = lock_queue(rt, wk, pass, c);
    let state = load_state(wk, pass, t);
    if state != State::TASK_RUNNING && state != State::TASK_NEW {
        queue.give_as_taken(wk, pass);
        return false;
    }
    // Read while the task is still the seat's own: once it is given up another seat may move it.
    load_count(wk, pass, t);
    queue.push(wk, pass, t);
    queue.val_mut(wk).set_cur(None);
    queue.val_mut(wk).set_left(Some(t));
    queue.give_put_back(wk, pass);
    clear_busy(wk, pass, t);
    true
}
