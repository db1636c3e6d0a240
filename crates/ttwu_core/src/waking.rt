//! The wake-up of another task.
ghost use Rattle.std.specs.Prelude.{◌≡◌, ◌≢◌, ℕ, ◌+◌, ◌<◌, ◌≤◌, true, false, None, Some};
ghost use Rattle.run_queue.specs.Rests.{Rests};
ghost use Rattle.task_words.specs.Folds.{task_held, queue_held, is_claimed, current_task, task_to_clear, has_passed};
ghost use Rattle.task_words.specs.Needs.{need_wake};
ghost use Rattle.task_words.specs.States.{IsWakeMask};
ghost use Rattle.task_words.specs.Steps.{normal};
ghost use Rattle.task_words.specs.Views.{IsOf, IsSameSeat};
ghost use Rattle.ttwu_core.specs.Wakes.{DidWake};

use crate::answers::{How, Wake};
use crate::claiming::{choose, claim, queue_woken};
use crate::finding::{Found, find};
use handoff_data::{State, TaskNo, matches};
use run_queue::place;
use std::sync::Wait;
use task_words::{Kept, Pass, Wk, lock_task, match_state};

/// Wakes a task that isn't the pass's current one, where its state has a bit of the mask, as Linux's `try_to_wake_up`
/// (`kernel/sched/core.c`): a task that is still queued is runnable again, and one that is off every queue is queued on
/// the processor that placement gives. It makes two entries at most. The pass hasn't the task's busy word to clear
/// itself, for which it would wait for good.
pub fn wake<B: Kept, R: Wait>(rt: &R, wk: &Wk<B>, pass: &mut Pass, t: TaskNo, mask: State) -> Wake
    requires of { IsOf wk.now pass.old }
    requires task { t < wk.now.shape.tasks }
    requires mask { IsWakeMask mask }
    requires free { task_held pass.old.trace t ≡ None }
    requires free_queues { (c : ℕ) → queue_held pass.old.trace c ≡ None }
    requires unclaimed { is_claimed pass.old.trace t ≡ false }
    requires other { current_task pass.old.seat pass.old.trace ≢ Some t }
    requires cleared { task_to_clear pass.old.seat pass.old.trace ≢ Some t }
    requires spare { need_wake ≤ pass.old.turn.spare }
    ensures same { IsSameSeat pass.old pass.new }
    ensures did { DidWake t mask wk.now.shape pass.old pass.new result }
    ensures rests { Rests pass.old.seat pass.old.trace pass.new.trace }
    ensures passed { mask ≡ normal → (k : ℕ) → has_passed pass.new.trace k t ≡ true }
    ensures spare { pass.old.turn.spare ≤ pass.new.turn.spare + 2 }
{
    // T's lock stays with this seat until T is settled, so that no second waker finds T at TASK_WAKING off its queue
    // and walks away (two wakers).
    let mut task = lock_task(rt, wk, pass, t);
    let seen = match_state(wk, pass, t, mask);
    if !matches(seen, mask) {
        task.give(wk, pass);
        return Wake::NoMatch { seen };
    }
    // The queue word is read after the state, both under T's lock: a 0 read before may be of an earlier sleep, and T
    // would be queued twice (the queue word before the lock).
    let Found::Off { m } = find(rt, wk, pass, t) else {
        task.give(wk, pass);
        return Wake::Woke { how: How::Runnable };
    };
    // TASK_WAKING, and only then a clear busy word: T's last processor has switched away from it before T gets another
    // (queued while busy).
    claim(rt, wk, pass, t, m);
    let c = choose(wk, task.val_mut(wk).get());
    // The processor is stored only once the busy word was read as clear: the seat of T's processor alone clears it, and
    // that has to be the one that T left (moved under the switch).
    place(wk, pass, &task, c);
    queue_woken(rt, wk, pass, t, c, m);
    // The lock goes back last, when T stands in a queue as TASK_RUNNING (two wakers).
    task.set_wake_cpu(wk, c);
    task.give(wk, pass);
    Wake::Woke {
        how: How::Queued(c),
    }
}
