//! The next task of a processor is picked.
ghost use Rattle.std.specs.Prelude.{◌≡◌, ◌<◌, ◌≤◌, ◌+◌, None, IfSome, MatchOption};
ghost use Rattle.sched_switch.specs.Standing.{IsSteady};
ghost use Rattle.sched_switch.specs.Switches.{IsPicked, IsEmpty};
ghost use Rattle.task_words.specs.Needs.{need_step};
ghost use Rattle.task_words.specs.Views.{IsOf, IsSameSeat};
ghost use Rattle.word_steps.specs.Folds.{current_task, owes_walk};

use handoff_data::TaskNo;
use std::sync::Wait;
use task_words::{Kept, Pass, Wk, lock_queue};

/// Picks the task at the front of the seat's own queue, as `pick_next_task` of Linux's `kernel/sched/core.c`: the one
/// that stands as the next, if one does, else the first that waits. None where there is neither.
pub fn pick<B: Kept, R: Wait>(rt: &R, wk: &Wk<B>, pass: &mut Pass) -> Option<TaskNo>
    requires of { IsOf wk.now pass.old }
    requires processor { pass.old.seat < wk.now.shape.cpus }
    requires steady { IsSteady pass.old }
    requires idle { current_task pass.old.seat pass.old.trace ≡ None }
    requires spare { need_step ≤ pass.old.turn.spare }
    ensures same { IsSameSeat pass.old pass.new }
    ensures steady { IsSteady pass.new }
    ensures current { current_task pass.new.seat pass.new.trace ≡ result }
    ensures task { IfSome result (λ t. t < wk.now.shape.tasks) }
    ensures did { MatchOption result (IsEmpty pass.old pass.new) (λ t. IsPicked t pass.old pass.new) }
    ensures owes { owes_walk pass.new.trace ≡ owes_walk pass.old.trace }
    ensures spare { pass.old.turn.spare ≤ pass.new.turn.spare + 1 }
{
    let c = pass.seat();
    // From waiting to busy under one hold of the lock: who looks for the task under it sees one or the other. (Bars:
    // picked without the lock.)
    let mut queue = lock_queue(rt, wk, pass, c);
    if let Some(t) = queue.val_mut(wk).get().cur {
        queue.pick_cur(rt, wk, pass, t);
        queue.give_as_picked(wk, pass);
        return Some(t);
    }
    let Some(t) = queue.pop(wk, pass) else {
        queue.give_as_taken(wk, pass);
        return None;
    };
    queue.pick(rt, wk, pass, t);
    queue.give_picked(wk, pass);
    Some(t)
}
