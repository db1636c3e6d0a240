//! A switch: the current task leaves its processor, and the next one is picked.
ghost use Rattle.std.specs.Prelude.{◌≡◌, ◌≢◌, ℕ, ◌<◌, ◌≤◌, ◌+◌, [], true, false, None, Some, IfSome, IfNone};
ghost use Rattle.core_kinds.specs.Steps.{dead};
ghost use Rattle.sched_switch.specs.Currents.{current_after, current_left, IsTaskOf};
ghost use Rattle.sched_switch.specs.Standing.{IsSteady};
ghost use Rattle.sched_switch.specs.Switches.{DidSwitchOut, DidPick, DidSwitch, IsKept, HasLeft, HasDied};
ghost use Rattle.sched_switch.specs.declared.answer.Next.TheVariants as asked;
ghost use Rattle.task_words.specs.Needs.{need_step, need_call};
ghost use Rattle.task_words.specs.Views.{IsOf, IsSameSeat};
ghost use Rattle.word_rule.specs.Own.{last_own};
ghost use Rattle.word_rule.specs.Standing.{is_runnable};
ghost use Rattle.word_steps.specs.Folds.{current_task, owes_walk};

use crate::answer::{Next, Out, Switch};
use crate::picking::pick;
use core_data::QueueVal;
use handoff_data::{State, TaskNo};
use std::sync::Wait;
use task_words::{Kept, Pass, Wk, clear_busy, dequeue_task, load_count, load_state, lock_queue};

// Whether a task in this state goes on running.
fn goes_on(state: State) -> bool
    ensures { result ≡ is_runnable state }
{
    state == State::TASK_RUNNING || state == State::TASK_NEW
}

// Whether a task that goes on stays: a task is asked for, and nobody else waits. At the back it would be at the front.
fn stays_alone(next: Next, queue: &QueueVal) -> bool
    ensures alone { result ≡ true → (next ≡ asked.Task) × (queue.now.waiting ≡ []) }
    ensures others { result ≡ false → next ≡ asked.Task → queue.now.waiting ≢ [] }
{
    next == Next::Task && queue.get(0).is_none()
}

/// Puts the current task back, or takes it off its queue, by its state as it is read under the queue's lock, as
/// `__schedule` of Linux's `kernel/sched/core.c` does with `prev`. Where a task is asked for and nobody else waits, a
/// task that goes on stays. It is the one place where a task leaves its processor.
// A part of its two callers, which else would save their registers twice: a lock waits for each store before it.
#[inline(always)]
pub fn switch_out<B: Kept, R: Wait>(
    rt: &R,
    wk: &Wk<B>,
    pass: &mut Pass,
    t: TaskNo,
    next: Next,
) -> Out
    requires of { IsOf wk.now pass.old }
    requires processor { pass.old.seat < wk.now.shape.cpus }
    requires task { t < wk.now.shape.tasks }
    requires steady { IsSteady pass.old }
    requires current { current_task pass.old.seat pass.old.trace ≡ Some t }
    requires spare { need_call ≤ pass.old.turn.spare }
    ensures same { IsSameSeat pass.old pass.new }
    ensures steady { IsSteady pass.new }
    ensures current { current_task pass.new.seat pass.new.trace ≡ current_left t result }
    ensures did { DidSwitchOut t next pass.old pass.new result }
    ensures owes { owes_walk pass.new.trace ≡ owes_walk pass.old.trace }
    ensures spare { pass.old.turn.spare ≤ pass.new.turn.spare + 2 }
{
    let c = pass.seat();
    // The state is read under the lock: who wakes a queued task stores TASK_RUNNING under it, so that comes before this
    // read, and the task goes on, or the waker finds it off its queue. (Bars: the state before the lock.)
    let mut queue = lock_queue(rt, wk, pass, c);
    let state = load_state(wk, pass, t);
    // Who gives its task up has to know its level: at 0 any seat may move it from then on, and it may die.
    load_count(wk, pass, t);
    // Who doesn't go on isn't put back: a task that waits is picked in the state that it has. (Bars: put back asleep.)
    if goes_on(state) {
        if stays_alone(next, queue.val_mut(wk).get()) {
            queue.give_as_taken(wk, pass);
            return Out::Stays;
        }
        queue.push(wk, pass, t);
        queue.val_mut(wk).set_cur(None);
        queue.val_mut(wk).set_left(Some(t));
        queue.give_put_back(wk, pass);
        // Cleared after the give, in which the queue says that the task runs here no more: from then on another seat
        // may move it away and pick it. (Bars: the busy word before the give.)
        clear_busy(wk, pass, t);
        return Out::Back;
    }
    // Off its queue by word before the give, after which it stands in none: who found it queued then would make it
    // runnable, and nobody would pick it. (Bars: given up on its queue.)
    let before = dequeue_task(rt, wk, pass, t, state == State::TASK_DEAD);
    queue.val_mut(wk).set_cur(None);
    queue.val_mut(wk).set_left(Some(t));
    queue.give_asleep(wk, pass);
    // Cleared last, and before the next pick: a waker that found the task off its queue waits for it before it queues
    // it on any processor. (Bars: queued while busy, the forgotten busy word, a death without its end.)
    clear_busy(wk, pass, t);
    Out::Gone { m: before + 1 }
}

// The current task leaves, unless it stays: then it is the answer.
fn make_way<B: Kept, R: Wait>(rt: &R, wk: &Wk<B>, pass: &mut Pass, next: Next) -> Option<TaskNo>
    requires of { IsOf wk.now pass.old }
    requires processor { pass.old.seat < wk.now.shape.cpus }
    requires steady { IsSteady pass.old }
    requires spare { need_call ≤ pass.old.turn.spare }
    ensures same { IsSameSeat pass.old pass.new }
    ensures steady { IsSteady pass.new }
    ensures current { current_task pass.new.seat pass.new.trace ≡ result }
    ensures stays { IfSome result (λ t. (next ≡ asked.Task) × (t < wk.now.shape.tasks) × IsKept t pass.old pass.new) }
    ensures left { IfNone result (HasLeft next pass.old pass.new) }
    ensures owes { owes_walk pass.new.trace ≡ owes_walk pass.old.trace }
    ensures spare { pass.old.turn.spare ≤ pass.new.turn.spare + 2 }
{
    let Some(t) = pass.current() else {
        return None;
    };
    match switch_out(rt, wk, pass, t, next) {
        Out::Stays => Some(t),
        Out::Back => None,
        Out::Gone { m: _ } => None,
    }
}

// Picks the next task, where one is asked for.
fn switch_in<B: Kept, R: Wait>(rt: &R, wk: &Wk<B>, pass: &mut Pass, next: Next) -> Switch
    requires of { IsOf wk.now pass.old }
    requires processor { pass.old.seat < wk.now.shape.cpus }
    requires steady { IsSteady pass.old }
    requires idle { current_task pass.old.seat pass.old.trace ≡ None }
    requires spare { need_step ≤ pass.old.turn.spare }
    ensures same { IsSameSeat pass.old pass.new }
    ensures steady { IsSteady pass.new }
    ensures current { current_task pass.new.seat pass.new.trace ≡ current_after result }
    ensures task { IsTaskOf wk.now.shape.tasks result }
    ensures did { DidPick next pass.old pass.new result }
    ensures owes { owes_walk pass.new.trace ≡ owes_walk pass.old.trace }
    ensures spare { pass.old.turn.spare ≤ pass.new.turn.spare + 1 }
{
    match next {
        Next::Nobody => Switch::Nobody,
        Next::Task => match pick(rt, wk, pass) {
            Some(t) => Switch::Running(t),
            None => Switch::Idle,
        },
    }
}

/// Switches, as `__schedule` of Linux's `kernel/sched/core.c`: the current task, if there is one, goes to the back of
/// its queue, sleeps or dies, by its state as it is read under the queue's lock. Then the task at the front is picked,
/// where one is asked for; one that went to the back and is picked again at once makes no entry, and stays current
/// throughout. `Idle` comes exactly where a task was asked for and none was in the queue under its lock, `Nobody`
/// exactly where nobody was asked for. A current task's body is home. It adds at most three entries to the turn, and
/// takes no memory.
pub fn schedule<B: Kept, R: Wait>(rt: &R, wk: &Wk<B>, pass: &mut Pass, next: Next) -> Switch
    requires of { IsOf wk.now pass.old }
    requires processor { pass.old.seat < wk.now.shape.cpus }
    requires steady { IsSteady pass.old }
    requires spare { need_call ≤ pass.old.turn.spare }
    ensures same { IsSameSeat pass.old pass.new }
    ensures steady { IsSteady pass.new }
    ensures current { current_task pass.new.seat pass.new.trace ≡ current_after result }
    ensures task { IsTaskOf wk.now.shape.tasks result }
    ensures did { DidSwitch next pass.old pass.new result }
    ensures dies { (t : ℕ) → current_task pass.old.seat pass.old.trace ≡ Some t → last_own pass.old.trace t ≡ Some dead
        → HasDied t pass.old pass.new }
    ensures owes { owes_walk pass.new.trace ≡ owes_walk pass.old.trace }
    ensures spare { pass.old.turn.spare ≤ pass.new.turn.spare + 3 }
{
    match make_way(rt, wk, pass, next) {
        Some(t) => Switch::Running(t),
        None => switch_in(rt, wk, pass, next),
    }
}
