//! The current task enters a wait queue, and leaves it.
ghost use Rattle.std.specs.Prelude.{◌≡◌, ◌<◌, true, None, IsSome};
ghost use Rattle.task_words.specs.Folds.{current_task, stays_queued, wait_held};
ghost use Rattle.task_words.specs.Steps.{is_sleep};
ghost use Rattle.task_words.specs.Told.{TakenWait};
ghost use Rattle.task_words.specs.Views.{IsOf, IsSame};
ghost use Rattle.wait_queue.specs.Entering.{IsPrepared, IsFinished, with_entry};
ghost use Rattle.wait_queue.specs.Settles.{Settles};

use handoff_data::{CondNo, State, TaskNo};
use std::sync::Wait;
use task_words::{Kept, Pass, WaitGuard, Wk, lock_wait, set_running, set_state};

// Puts an entry of a task in, where it has none there.
#[tactic(auto, unfolding(crate::specs::Entering::with_entry))]
fn enter_once<B: Kept>(wk: &Wk<B>, pass: &Pass, wait: &mut WaitGuard<B>, t: TaskNo, exclusive: bool)
    requires of { IsOf wk.now pass.now }
    requires task { t < wk.now.shape.tasks }
    requires table { wait.old.of ≡ wk.now.name }
    requires taken { TakenWait pass.now.shape wait.old.val }
    ensures table { wait.new.of ≡ wait.old.of }
    ensures condition { wait.new.cond ≡ wait.old.cond }
    ensures value { wait.new.val ≡ with_entry (record { t = t; exclusive = exclusive }) wait.old.val }
{
    if !wait.val_mut(wk).has_task(t) {
        wait.enter(wk, pass, t, exclusive);
    }
}

/// Puts an entry of the current task into the wait queue of a condition, where it has none there, and stores a sleep
/// state, both under the lock of the wait queue, as Linux's `prepare_to_wait` and `prepare_to_wait_exclusive`
/// (`kernel/sched/wait.c`): an exclusive entry goes to the tail, another to the head. After it the task tests the
/// condition, and sleeps or calls `finish`.
#[tactic(auto, using(crate::proofs::Settling::prepared_settles))]
pub fn prepare<B: Kept, R: Wait>(
    rt: &R,
    wk: &Wk<B>,
    pass: &mut Pass,
    k: CondNo,
    exclusive: bool,
    state: State,
)
    requires of { IsOf wk.now pass.old }
    requires condition { k < wk.now.shape.conds }
    requires free { wait_held pass.old.trace k ≡ None }
    requires current { IsSome (current_task pass.old.seat pass.old.trace) }
    requires stays { stays_queued pass.old.trace ≡ true }
    requires state { is_sleep state ≡ true }
    ensures same { IsSame pass.old pass.new }
    ensures did { IsPrepared k exclusive state pass.old.seat pass.old.trace pass.new.trace }
    ensures settles { Settles pass.old.seat pass.old.trace pass.new.trace }
{
    let Some(t) = pass.current() else {
        unreachable!()
    };
    // Entry and state under one hold of the lock, and both before the test: an entry that came in later would stand
    // behind a walk that has gone by, and T sleep on what it read before (the entry behind the walk).
    let mut wait = lock_wait(rt, wk, pass, k);
    enter_once(wk, pass, &mut wait, t, exclusive);
    // The caller tests the condition after this store: tested before it, a raise in between finds nobody asleep
    // (the test before the store).
    set_state(wk, pass, state);
    wait.give(wk, pass);
}

/// Stores TASK_RUNNING as the state of the current task, and takes its entry out of the wait queue of a condition, if
/// it has one there, as Linux's `finish_wait` (`kernel/sched/wait.c`).
#[tactic(auto, using(crate::proofs::Settling::finished_settles))]
pub fn finish<B: Kept, R: Wait>(rt: &R, wk: &Wk<B>, pass: &mut Pass, k: CondNo)
    requires of { IsOf wk.now pass.old }
    requires condition { k < wk.now.shape.conds }
    requires free { wait_held pass.old.trace k ≡ None }
    requires current { IsSome (current_task pass.old.seat pass.old.trace) }
    requires stays { stays_queued pass.old.trace ≡ true }
    ensures same { IsSame pass.old pass.new }
    ensures did { IsFinished k pass.old.seat pass.old.trace pass.new.trace }
    ensures settles { Settles pass.old.seat pass.old.trace pass.new.trace }
{
    let Some(t) = pass.current() else {
        unreachable!()
    };
    // The state first, then the entry: between them an entry too many is met for nothing, where a sleep state with no
    // entry would never be woken (the sleeper without an entry).
    set_running(wk, pass);
    let mut left = lock_wait(rt, wk, pass, k);
    left.val_mut(wk).remove(t);
    left.give(wk, pass);
}
