//! A task that sleeps leaves its processor, step by step.
ghost use Rattle.std.specs.Prelude.{◌≡◌, ◌<◌, ◌≤◌, true, false, None, Some};
ghost use Rattle.task_words.specs.Folds.{body_held, current_task, queue_held, stays_queued};
ghost use Rattle.task_words.specs.Needs.{need_call};
ghost use Rattle.task_words.specs.Seats.{IsBetween, IsRunning};
ghost use Rattle.task_words.specs.Views.{IsOf, IsSameSeat};

use handoff_data::{State, TaskNo};
use std::sync::Wait;
use task_words::{Kept, Pass, Wk, clear_busy, dequeue_task, load_count, load_state, lock_queue};

/// Takes the current task off its queue where its state says that it sleeps, as Linux's `schedule`
/// (`kernel/sched/core.c`); whether it did.
pub fn switch_out<B: Kept, R: Wait>(rt: &R, wk: &Wk<B>, pass: &mut Pass, t: TaskNo) -> bool
    requires of { IsOf wk.now pass.old }
    requires processor { pass.old.seat < wk.now.shape.cpus }
    requires task { t < wk.now.shape.tasks }
    requires free { queue_held pass.old.trace pass.old.seat ≡ None }
    requires current { current_task pass.old.seat pass.old.trace ≡ Some t }
    requires stays { stays_queued pass.old.trace ≡ true }
    requires home { body_held pass.old.trace ≡ None }
    requires spare { need_call ≤ pass.old.turn.spare }
    ensures same { IsSameSeat pass.old pass.new }
    ensures slept { result ≡ true → IsRunning t pass.old → IsBetween pass.new }
    ensures woken { result ≡ false → IsRunning t pass.old → IsRunning t pass.new }
{
    let c = pass.seat();
    let mut queue = lock_queue(rt, wk, pass, c);
    let state = load_state(wk, pass, t);
    if state != State::TASK_INTERRUPTIBLE {
        queue.give_as_taken(wk, pass);
        return false;
    }
    // Read while the task is still the seat's own: once it is given up its waker may place it elsewhere.
    load_count(wk, pass, t);
    dequeue_task(rt, wk, pass, t, false);
    queue.val_mut(wk).set_cur(None);
    queue.val_mut(wk).set_left(Some(t));
    queue.give_asleep(wk, pass);
    clear_busy(wk, pass, t);
    true
}
