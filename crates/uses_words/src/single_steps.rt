//! A wake-up and a sleep by single steps: what `ttwu_core` and `wait_queue` do, without the waits of a wake-up for a
//! task that leaves its queue.
ghost use Rattle.std.specs.Prelude.{◌≡◌, ◌≢◌, ℕ, ◌<◌, ◌≤◌, ◌-◌, ◌∷◌, true, false, Some, None, IsSome};
ghost use Rattle.core_data.specs.Columns.{put};
ghost use Rattle.task_words.specs.Folds.{body_held, current_task, is_claimed, has_matched, is_moving, last_reads};
ghost use Rattle.task_words.specs.Folds.{number_read, queue_held, saw_clear, saw_off, stays_queued, task_held};
ghost use Rattle.task_words.specs.Folds.{task_to_clear, wait_held, works_held};
ghost use Rattle.task_words.specs.May.{number_of};
ghost use Rattle.task_words.specs.Needs.{need_call, need_step, need_wake};
ghost use Rattle.task_words.specs.Records.{Gave};
ghost use Rattle.task_words.specs.Seats.{IsBetween, IsRunning};
ghost use Rattle.task_words.specs.Told.{TakenWait};
ghost use Rattle.task_words.specs.Val.TheVariants as val;
ghost use Rattle.task_words.specs.Views.{IsOf, IsSame, IsSameSeat};

use crate::switch_out;
use core_data::Rq;
use handoff_data::{CondNo, CpuNo, State, TaskNo, matches};
use std::sync::Wait;
use task_words::{
    Kept, Pass, TaskGuard, WaitGuard, Wk, claim_task, load_cond, load_cpu, load_rq, lock_queue,
    lock_task, lock_wait, make_runnable, match_state, queue_task, set_running, set_state,
    store_cpu, wait_clear,
};

/// Wakes a task that sleeps as TASK_NORMAL says, as Linux's `try_to_wake_up` (`kernel/sched/core.c`), on the processor
/// `to`; whether it did.
pub(crate) fn wake<B: Kept, R: Wait>(
    rt: &R,
    wk: &Wk<B>,
    pass: &mut Pass,
    t: TaskNo,
    to: CpuNo,
) -> bool
    requires of { IsOf wk.now pass.old }
    requires task { t < wk.now.shape.tasks }
    requires processor { to < wk.now.shape.cpus }
    requires free { task_held pass.old.trace t ≡ None }
    requires free_queues { (c : ℕ) → queue_held pass.old.trace c ≡ None }
    requires unclaimed { is_claimed pass.old.trace t ≡ false }
    requires other { current_task pass.old.seat pass.old.trace ≢ Some t }
    requires spare { need_wake ≤ pass.old.turn.spare }
    ensures same { IsSameSeat pass.old pass.new }
    ensures free { task_held pass.new.trace t ≡ None }
    ensures between { IsBetween pass.old → IsBetween pass.new }
{
    let task = lock_task(rt, wk, pass, t);
    let state = match_state(wk, pass, t, State::TASK_NORMAL);
    if !matches(state, State::TASK_NORMAL) {
        task.give(wk, pass);
        return false;
    }
    let seen = load_rq(wk, pass, t);
    if seen.on == 1 {
        let did = run_on(rt, wk, pass, t);
        task.give(wk, pass);
        return did;
    }
    if seen.on != 0 {
        task.give(wk, pass);
        return false;
    }
    claim(rt, wk, pass, t, seen.m);
    place(wk, pass, &task, to);
    queue_woken(rt, wk, pass, t, to, seen.m);
    task.give_queued(wk, pass);
    true
}

// Lets a task that matched run on, where it is still queued; whether it is.
fn run_on<B: Kept, R: Wait>(rt: &R, wk: &Wk<B>, pass: &mut Pass, t: TaskNo) -> bool
    requires of { IsOf wk.now pass.old }
    requires task { t < wk.now.shape.tasks }
    requires locked { IsSome (task_held pass.old.trace t) }
    requires matched { has_matched pass.old.trace t ≡ true }
    requires free_queues { (c : ℕ) → queue_held pass.old.trace c ≡ None }
    requires other { current_task pass.old.seat pass.old.trace ≢ Some t }
    ensures same { IsSame pass.old pass.new }
    ensures tasks { task_held pass.new.trace ≡ task_held pass.old.trace }
    ensures queues { (c : ℕ) → queue_held pass.new.trace c ≡ None }
    ensures works { works_held pass.new.trace ≡ works_held pass.old.trace }
    ensures waits { wait_held pass.new.trace ≡ wait_held pass.old.trace }
    ensures body { body_held pass.new.trace ≡ body_held pass.old.trace }
    ensures idle { current_task pass.old.seat pass.old.trace ≡ None → current_task pass.new.seat pass.new.trace ≡ None }
    ensures cleared { current_task pass.old.seat pass.old.trace ≡ None
        → task_to_clear pass.new.seat pass.new.trace ≡ task_to_clear pass.old.seat pass.old.trace }
    ensures claimed { is_claimed pass.new.trace ≡ is_claimed pass.old.trace }
    ensures moving { is_moving pass.new.trace ≡ is_moving pass.old.trace }
    ensures matched { has_matched pass.new.trace t ≡ true }
{
    let c = load_cpu(wk, pass, t);
    let queue = lock_queue(rt, wk, pass, c);
    let again = load_rq(wk, pass, t);
    if again.on != 1 {
        queue.give_as_taken(wk, pass);
        return false;
    }
    make_runnable(wk, pass, t);
    queue.give_as_taken(wk, pass);
    true
}

// Claims a task that matched and is on no queue, and waits until it runs nowhere.
fn claim<B: Kept, R: Wait>(rt: &R, wk: &Wk<B>, pass: &mut Pass, t: TaskNo, m: u64)
    requires of { IsOf wk.now pass.old }
    requires task { t < wk.now.shape.tasks }
    requires locked { IsSome (task_held pass.old.trace t) }
    requires off { saw_off pass.old.trace t ≡ true }
    requires number { number_of pass.old.trace t ≡ m }
    requires spare { need_step ≤ pass.old.turn.spare }
    ensures same { IsSameSeat pass.old pass.new }
    ensures turn { pass.new.turn.spare ≡ pass.old.turn.spare - 1 }
    ensures tasks { task_held pass.new.trace ≡ task_held pass.old.trace }
    ensures queues { queue_held pass.new.trace ≡ queue_held pass.old.trace }
    ensures works { works_held pass.new.trace ≡ works_held pass.old.trace }
    ensures waits { wait_held pass.new.trace ≡ wait_held pass.old.trace }
    ensures body { body_held pass.new.trace ≡ body_held pass.old.trace }
    ensures current { current_task pass.new.seat pass.new.trace ≡ current_task pass.old.seat pass.old.trace }
    ensures cleared { task_to_clear pass.new.seat pass.new.trace ≡ task_to_clear pass.old.seat pass.old.trace }
    ensures claims { is_claimed pass.new.trace ≡ put (is_claimed pass.old.trace) t true }
    ensures claimed { is_claimed pass.new.trace t ≡ true }
    ensures clear { saw_clear pass.new.trace t ≡ true }
    ensures moving { is_moving pass.new.trace ≡ is_moving pass.old.trace }
    ensures numbers { number_read pass.new.trace ≡ number_read pass.old.trace }
{
    claim_task(wk, pass, t, m);
    wait_clear(rt, wk, pass, t);
}

// Puts a claimed task at the back of its processor's queue, to run.
fn queue_woken<B: Kept, R: Wait>(rt: &R, wk: &Wk<B>, pass: &mut Pass, t: TaskNo, to: CpuNo, m: u64)
    requires of { IsOf wk.now pass.old }
    requires task { t < wk.now.shape.tasks }
    requires processor { to < wk.now.shape.cpus }
    requires locked { IsSome (task_held pass.old.trace t) }
    requires cpu { (last_reads pass.old.trace t).cpu ≡ Some to }
    requires claimed { is_claimed pass.old.trace t ≡ true }
    requires clear { saw_clear pass.old.trace t ≡ true }
    requires number { number_read pass.old.trace t ≡ Some m }
    requires unmoved { is_moving pass.old.trace t ≡ false }
    requires free { queue_held pass.old.trace to ≡ None }
    requires other { current_task pass.old.seat pass.old.trace ≢ Some t }
    requires spare { need_step ≤ pass.old.turn.spare }
    ensures same { IsSameSeat pass.old pass.new }
    ensures tasks { task_held pass.new.trace ≡ task_held pass.old.trace }
    ensures queues { ((c : ℕ) → queue_held pass.old.trace c ≡ None) → (c : ℕ) → queue_held pass.new.trace c ≡ None }
    ensures works { works_held pass.new.trace ≡ works_held pass.old.trace }
    ensures waits { wait_held pass.new.trace ≡ wait_held pass.old.trace }
    ensures body { body_held pass.new.trace ≡ body_held pass.old.trace }
    ensures idle { current_task pass.old.seat pass.old.trace ≡ None → current_task pass.new.seat pass.new.trace ≡ None }
    ensures cleared { current_task pass.old.seat pass.old.trace ≡ None
        → task_to_clear pass.new.seat pass.new.trace ≡ task_to_clear pass.old.seat pass.old.trace }
    ensures claims { is_claimed pass.new.trace ≡ put (is_claimed pass.old.trace) t false }
    ensures claimed { is_claimed pass.new.trace t ≡ false }
    ensures moving { is_moving pass.new.trace t ≡ false }
    ensures number { 0 < number_of pass.new.trace t }
{
    let mut queue = lock_queue(rt, wk, pass, to);
    queue_task(rt, wk, pass, &queue, t, Rq { on: 0, m });
    queue.push(wk, pass, t);
    queue.make_runnable(wk, pass, t);
    queue.give_woken(wk, pass);
}

// Stores the processor of a claimed task where it isn't that one already.
fn place<B: Kept>(wk: &Wk<B>, pass: &mut Pass, task: &TaskGuard<B>, to: CpuNo)
    requires of { IsOf wk.now pass.old }
    requires table { task.now.of ≡ wk.now.name }
    requires task { task.now.task < wk.now.shape.tasks }
    requires processor { to < wk.now.shape.cpus }
    requires claimed { is_claimed pass.old.trace task.now.task ≡ true }
    requires clear { saw_clear pass.old.trace task.now.task ≡ true }
    ensures same { IsSame pass.old pass.new }
    ensures cpu { (last_reads pass.new.trace task.now.task).cpu ≡ Some to }
    ensures tasks { task_held pass.new.trace ≡ task_held pass.old.trace }
    ensures works { works_held pass.new.trace ≡ works_held pass.old.trace }
    ensures waits { wait_held pass.new.trace ≡ wait_held pass.old.trace }
    ensures body { body_held pass.new.trace ≡ body_held pass.old.trace }
    ensures cleared { task_to_clear pass.new.seat pass.new.trace ≡ task_to_clear pass.old.seat pass.old.trace }
    ensures queues { queue_held pass.new.trace ≡ queue_held pass.old.trace }
    ensures claimed { is_claimed pass.new.trace ≡ is_claimed pass.old.trace }
    ensures moving { is_moving pass.new.trace ≡ is_moving pass.old.trace }
    ensures numbers { number_read pass.new.trace ≡ number_read pass.old.trace }
    ensures clear { saw_clear pass.new.trace ≡ saw_clear pass.old.trace }
    ensures current { current_task pass.new.seat pass.new.trace ≡ current_task pass.old.seat pass.old.trace }
{
    let t = task.task();
    let c = load_cpu(wk, pass, t);
    if c == to {
        return;
    }
    store_cpu(wk, pass, task, to);
}

/// Puts the current task to sleep until a condition has another value than `seen`, as Linux's `prepare_to_wait`
/// (`kernel/sched/wait.c`) and `schedule`; whether it sleeps. It doesn't where the condition has changed, or a wake has
/// come first, or the task has an entry there already.
pub(crate) fn sleep<B: Kept, R: Wait>(
    rt: &R,
    wk: &Wk<B>,
    pass: &mut Pass,
    t: TaskNo,
    k: CondNo,
    seen: u64,
) -> bool
    requires of { IsOf wk.now pass.old }
    requires processor { pass.old.seat < wk.now.shape.cpus }
    requires task { t < wk.now.shape.tasks }
    requires condition { k < wk.now.shape.conds }
    requires free { wait_held pass.old.trace k ≡ None }
    requires free_queue { queue_held pass.old.trace pass.old.seat ≡ None }
    requires current { current_task pass.old.seat pass.old.trace ≡ Some t }
    requires stays { stays_queued pass.old.trace ≡ true }
    requires home { body_held pass.old.trace ≡ None }
    requires spare { need_call ≤ pass.old.turn.spare }
    ensures same { IsSameSeat pass.old pass.new }
    ensures slept { result ≡ true → IsRunning t pass.old → IsBetween pass.new }
    ensures woken { result ≡ false → IsRunning t pass.old → IsRunning t pass.new }
{
    if !prepare(rt, wk, pass, t, k) {
        return false;
    }
    if load_cond(wk, pass, k) != seen {
        set_running(wk, pass);
        return false;
    }
    switch_out(rt, wk, pass, t)
}

// Puts an entry of the current task in at a condition, and stores that it sleeps, as Linux's
// `prepare_to_wait`; whether it had none there.
fn prepare<B: Kept, R: Wait>(rt: &R, wk: &Wk<B>, pass: &mut Pass, t: TaskNo, k: CondNo) -> bool
    requires of { IsOf wk.now pass.old }
    requires task { t < wk.now.shape.tasks }
    requires condition { k < wk.now.shape.conds }
    requires free { wait_held pass.old.trace k ≡ None }
    requires current { current_task pass.old.seat pass.old.trace ≡ Some t }
    requires stays { stays_queued pass.old.trace ≡ true }
    ensures same { IsSame pass.old pass.new }
    ensures queues { queue_held pass.new.trace ≡ queue_held pass.old.trace }
    ensures current { current_task pass.new.seat pass.new.trace ≡ current_task pass.old.seat pass.old.trace }
    ensures stays { stays_queued pass.new.trace ≡ true }
    ensures body { body_held pass.new.trace ≡ body_held pass.old.trace }
    ensures running { IsRunning t pass.old → IsRunning t pass.new }
{
    let mut wait = lock_wait(rt, wk, pass, k);
    if wait.val_mut(wk).has_task(t) {
        give_as_taken(wk, pass, wait);
        return false;
    }
    wait.enter(wk, pass, t, false);
    set_state(wk, pass, State::TASK_INTERRUPTIBLE);
    wait.give_entered(wk, pass);
    true
}

// Gives the lock of a wait queue with the entries as they were taken.
fn give_as_taken<B: Kept>(wk: &Wk<B>, pass: &mut Pass, wait: WaitGuard<B>)
    requires of { IsOf wk.now pass.old }
    requires table { wait.of ≡ wk.now.name }
    requires condition { wait.cond < wk.now.shape.conds }
    requires held { wait_held pass.old.trace wait.cond ≡ Some wait.val }
    requires told { TakenWait pass.old.shape wait.val }
    ensures same { IsSame pass.old pass.new }
    ensures trace { pass.new.trace ≡ Gave wait.cond (val.Wait wait.val) (val.Wait wait.val) ∷ pass.old.trace }
{
    wait.give(wk, pass);
}
