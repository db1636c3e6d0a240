//! A task dies, step by step.
ghost use Rattle.std.specs.Prelude.{◌≡◌, ℕ, ◌<◌, ◌≤◌, true, false, Some, None};
ghost use Rattle.task_words.specs.Folds.{ended_known};
ghost use Rattle.task_words.specs.Needs.{need_call};
ghost use Rattle.task_words.specs.Seats.{IsBetween, IsRunning};
ghost use Rattle.task_words.specs.Views.{IsOf, IsSameSeat};

use handoff_data::{State, TaskNo};
use std::sync::Wait;
use task_words::{
    Kept, Pass, Wk, clear_busy, dequeue_task, load_count, load_state, lock_queue, lock_task,
    set_state,
};

/// Ends the current task, whose body has ended, as Linux's `do_task_dead` (`kernel/sched/core.c`): it is TASK_DEAD,
/// which no other seat changes, and leaves its queue for good.
pub fn die<B: Kept, R: Wait>(rt: &R, wk: &Wk<B>, pass: &mut Pass, t: TaskNo)
    requires of { IsOf wk.now pass.old }
    requires processor { pass.old.seat < wk.now.shape.cpus }
    requires task { t < wk.now.shape.tasks }
    requires running { IsRunning t pass.old }
    requires ended { ended_known pass.old.trace t ≡ Some true }
    requires spare { need_call ≤ pass.old.turn.spare }
    ensures same { IsSameSeat pass.old pass.new }
    ensures gone { IsBetween pass.new }
{
    let task = lock_task(rt, wk, pass, t);
    set_state(wk, pass, State::TASK_DEAD);
    task.give(wk, pass);
    let c = pass.seat();
    let mut queue = lock_queue(rt, wk, pass, c);
    load_state(wk, pass, t);
    // A task that dies with migration disabled would be counted on its processor for good.
    load_count(wk, pass, t);
    dequeue_task(rt, wk, pass, t, true);
    queue.val_mut(wk).set_cur(None);
    queue.val_mut(wk).set_left(Some(t));
    queue.give_asleep(wk, pass);
    clear_busy(wk, pass, t);
}
