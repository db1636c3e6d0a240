//! A new task is started.
ghost use Rattle.std.specs.Prelude.{◌≡◌, ℕ, ◌<◌, ◌≤◌, ◌+◌, false, None, Some, IsSome};
ghost use Rattle.run_queue.specs.Rests.{Rests};
ghost use Rattle.run_queue.specs.Starts.{DidStart, IsQueuedNew};
ghost use Rattle.task_words.specs.Folds.{current_task, task_to_clear, task_held, queue_held, number_read, is_moving};
ghost use Rattle.task_words.specs.Folds.{last_reads};
ghost use Rattle.task_words.specs.Needs.{need_step, need_call};
ghost use Rattle.task_words.specs.Views.{IsOf, IsSameSeat};

use crate::answer::Start;
use crate::placing::place;
use core_data::Rq;
use handoff_data::{CpuNo, State, TaskNo};
use std::sync::Wait;
use task_words::{
    Kept, Pass, Wk, load_rq, load_state, lock_queue, lock_task, make_runnable, queue_task,
};

// Stores TASK_RUNNING, and puts the new task at the back of its processor's queue.
fn queue_new<B: Kept, R: Wait>(rt: &R, wk: &Wk<B>, pass: &mut Pass, t: TaskNo, c: CpuNo)
    requires of { IsOf wk.now pass.old }
    requires task { t < wk.now.shape.tasks }
    requires processor { c < wk.now.shape.cpus }
    requires locked { IsSome (task_held pass.old.trace t) }
    requires never { number_read pass.old.trace t ≡ Some 0 }
    requires unmoved { is_moving pass.old.trace t ≡ false }
    requires here { (last_reads pass.old.trace t).cpu ≡ Some c }
    requires free { queue_held pass.old.trace c ≡ None }
    requires spare { need_step ≤ pass.old.turn.spare }
    ensures same { IsSameSeat pass.old pass.new }
    ensures did { IsQueuedNew t c pass.old pass.new }
    ensures current { current_task pass.new.seat pass.new.trace ≡ current_task pass.old.seat pass.old.trace }
    ensures clear { task_to_clear pass.new.seat pass.new.trace ≡ task_to_clear pass.old.seat pass.old.trace }
{
    // TASK_RUNNING while T is still on no queue: who takes it from the queue finds it runnable (started twice,
    // picked while waking).
    make_runnable(wk, pass, t);
    let mut queue = lock_queue(rt, wk, pass, c);
    queue_task(rt, wk, pass, &queue, t, Rq { on: 0, m: 0 });
    queue.push(wk, pass, t);
    queue.give(wk, pass);
}

/// Starts a new task on a processor, as Linux's `wake_up_new_task` (`kernel/sched/core.c`): it is placed there, and put
/// at the back of that processor's queue as TASK_RUNNING.
pub fn start<B: Kept, R: Wait>(rt: &R, wk: &Wk<B>, pass: &mut Pass, t: TaskNo, c: CpuNo) -> Start
    requires of { IsOf wk.now pass.old }
    requires task { t < wk.now.shape.tasks }
    requires processor { c < wk.now.shape.cpus }
    requires free { task_held pass.old.trace t ≡ None }
    requires free_queue { queue_held pass.old.trace c ≡ None }
    requires spare { need_call ≤ pass.old.turn.spare }
    ensures same { IsSameSeat pass.old pass.new }
    ensures did { DidStart t c pass.old pass.new result }
    ensures rests { Rests pass.old.seat pass.old.trace pass.new.trace }
    ensures spare { pass.old.turn.spare ≤ pass.new.turn.spare + 1 }
{
    let mut task = lock_task(rt, wk, pass, t);
    // Both words under T's lock, the number too: a task at TASK_NEW whose number isn't 0 has been queued by another
    // starter (started twice).
    let seen = load_state(wk, pass, t);
    if seen != State::TASK_NEW || load_rq(wk, pass, t).m != 0 {
        task.give(wk, pass);
        return Start::NotNew { seen };
    }
    place(wk, pass, &task, c);
    queue_new(rt, wk, pass, t, c);
    task.set_wake_cpu(wk, c);
    task.give(wk, pass);
    Start::Started { m: 1 }
}
