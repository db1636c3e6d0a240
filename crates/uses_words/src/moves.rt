//! A queued task goes to another processor, step by step.
ghost use Rattle.std.specs.Prelude.{◌≡◌, ◌≢◌, ℕ, ◌+◌, ◌^◌, ◌<◌, ◌≤◌, true, false, Some, None, IfNone, IfSome, IsSome};
ghost use Rattle.core_data.specs.Columns.{put};
ghost use Rattle.task_words.specs.Folds.{body_held, current_task, is_claimed, is_moving};
ghost use Rattle.task_words.specs.Folds.{has_stored, last_reads, number_read, queue_held, task_held};
ghost use Rattle.task_words.specs.Folds.{task_to_clear, wait_held, works_held};
ghost use Rattle.task_words.specs.May.{number_of};
ghost use Rattle.task_words.specs.Needs.{need_step, need_wake};
ghost use Rattle.task_words.specs.Seats.{IsBetween};
ghost use Rattle.task_words.specs.Views.{IsOf, IsSameSeat};

use core_data::Rq;
use handoff_data::{CpuNo, TaskNo};
use std::sync::Wait;
use task_words::{
    Kept, Pass, Wk, load_busy, load_cpu, lock_queue, lock_task, move_task, queue_task, store_cpu,
};

/// Moves a task that waits in its processor's queue, and runs nowhere, to the back of the queue of `to`, as Linux's
/// `move_queued_task` (`kernel/sched/core.c`); whether it did.
pub fn move_to<B: Kept, R: Wait>(rt: &R, wk: &Wk<B>, pass: &mut Pass, t: TaskNo, to: CpuNo) -> bool
    requires of { IsOf wk.now pass.old }
    requires task { t < wk.now.shape.tasks }
    requires processor { to < wk.now.shape.cpus }
    requires free { task_held pass.old.trace t ≡ None }
    requires free_queues { (c : ℕ) → queue_held pass.old.trace c ≡ None }
    requires unclaimed { is_claimed pass.old.trace t ≡ false }
    requires other { current_task pass.old.seat pass.old.trace ≢ Some t }
    requires spare { need_wake ≤ pass.old.turn.spare }
    ensures same { IsSameSeat pass.old pass.new }
    ensures between { IsBetween pass.old → IsBetween pass.new }
{
    let task = lock_task(rt, wk, pass, t);
    let Some(m) = take_off(rt, wk, pass, t) else {
        task.give(wk, pass);
        return false;
    };
    store_cpu(wk, pass, &task, to);
    queue_moved(rt, wk, pass, t, to, m + 1);
    task.give_queued(wk, pass);
    true
}

// Takes a task that waits in its processor's queue, and runs nowhere, off that queue; the number of
// its changes before, or None where it doesn't wait there.
fn take_off<B: Kept, R: Wait>(rt: &R, wk: &Wk<B>, pass: &mut Pass, t: TaskNo) -> Option<u64>
    requires of { IsOf wk.now pass.old }
    requires task { t < wk.now.shape.tasks }
    requires locked { IsSome (task_held pass.old.trace t) }
    requires free_queues { (c : ℕ) → queue_held pass.old.trace c ≡ None }
    requires other { current_task pass.old.seat pass.old.trace ≢ Some t }
    requires spare { need_step ≤ pass.old.turn.spare }
    ensures same { IsSameSeat pass.old pass.new }
    ensures spare { pass.old.turn.spare ≤ pass.new.turn.spare + 1 }
    ensures tasks { task_held pass.new.trace ≡ task_held pass.old.trace }
    ensures queues { (c : ℕ) → queue_held pass.new.trace c ≡ None }
    ensures works { works_held pass.new.trace ≡ works_held pass.old.trace }
    ensures waits { wait_held pass.new.trace ≡ wait_held pass.old.trace }
    ensures body { body_held pass.new.trace ≡ body_held pass.old.trace }
    ensures other { current_task pass.new.seat pass.new.trace ≢ Some t }
    ensures idle { current_task pass.old.seat pass.old.trace ≡ None → current_task pass.new.seat pass.new.trace ≡ None }
    ensures cleared { current_task pass.old.seat pass.old.trace ≡ None
        → task_to_clear pass.new.seat pass.new.trace ≡ task_to_clear pass.old.seat pass.old.trace }
    ensures claimed { is_claimed pass.new.trace ≡ is_claimed pass.old.trace }
    ensures moving { IfSome result (λ m. is_moving pass.new.trace t ≡ true) }
    ensures number { IfSome result (λ m. number_read pass.new.trace t ≡ Some (m + 1)) }
    ensures room { IfSome result (λ m. m < 2 ^ 60) }
    ensures unstored { IfNone result (has_stored pass.new.trace ≡ has_stored pass.old.trace) }
{
    let from = load_cpu(wk, pass, t);
    let mut queue = lock_queue(rt, wk, pass, from);
    if load_busy(wk, pass, t).on || !queue.val_mut(wk).get().contains(t) {
        queue.give_as_taken(wk, pass);
        return None;
    }
    let m = move_task(rt, wk, pass, &queue, t);
    queue.remove(wk, pass, t);
    queue.give_moved(wk, pass);
    Some(m)
}

// Puts a task that moves at the back of its new processor's queue.
fn queue_moved<B: Kept, R: Wait>(rt: &R, wk: &Wk<B>, pass: &mut Pass, t: TaskNo, to: CpuNo, m: u64)
    requires of { IsOf wk.now pass.old }
    requires task { t < wk.now.shape.tasks }
    requires processor { to < wk.now.shape.cpus }
    requires locked { IsSome (task_held pass.old.trace t) }
    requires cpu { (last_reads pass.old.trace t).cpu ≡ Some to }
    requires moving { is_moving pass.old.trace t ≡ true }
    requires number { number_read pass.old.trace t ≡ Some m }
    requires free { queue_held pass.old.trace to ≡ None }
    requires spare { need_step ≤ pass.old.turn.spare }
    ensures same { IsSameSeat pass.old pass.new }
    ensures tasks { task_held pass.new.trace ≡ task_held pass.old.trace }
    ensures queues { ((c : ℕ) → queue_held pass.old.trace c ≡ None) → (c : ℕ) → queue_held pass.new.trace c ≡ None }
    ensures works { works_held pass.new.trace ≡ works_held pass.old.trace }
    ensures waits { wait_held pass.new.trace ≡ wait_held pass.old.trace }
    ensures body { body_held pass.new.trace ≡ body_held pass.old.trace }
    ensures idle { current_task pass.old.seat pass.old.trace ≡ None → current_task pass.new.seat pass.new.trace ≡ None }
    ensures cleared { current_task pass.old.seat pass.old.trace ≡ None
        → task_to_clear pass.new.seat pass.new.trace ≡ task_to_clear pass.old.seat pass.old.trace }
    ensures claims { is_claimed pass.new.trace ≡ put (is_claimed pass.old.trace) t false }
    ensures moving { is_moving pass.new.trace t ≡ false }
    ensures number { 0 < number_of pass.new.trace t }
{
    let mut queue = lock_queue(rt, wk, pass, to);
    queue_task(rt, wk, pass, &queue, t, Rq { on: 2, m });
    queue.push(wk, pass, t);
    queue.give_put(wk, pass);
}
